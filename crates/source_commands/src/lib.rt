//! The commands on a source: its artifact, and a spend of its contract, judged, traced or given its meaning.
#![tactic(auto)]

mod compiling;
mod debugging;
mod meaning;
mod parts;
mod runnable;
mod sources;
mod tracing;

pub use compiling::compile_file;
pub use debugging::{debug_files, debugged};
pub use meaning::{meaning_files, meant};
pub use sources::{NO_TIME, compiled, compiled_in};
pub use tracing::trace_files;
