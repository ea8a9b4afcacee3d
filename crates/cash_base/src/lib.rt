//! What every layer speaks of: elements, script numbers, spans, slots, causes, and the outside as two traits.
#![tactic(auto)]

pub mod element;
pub mod fault;
pub mod look;
pub mod memory;
pub mod number;
pub mod outside;
pub mod place;
pub mod real;
pub mod sure;
pub mod value;

pub use element::{Element, MAX_ELEMENT_LEN};
pub use fault::{Cause, MachineCause, Memory};
pub use look::{Look0, LookAt};
pub use memory::{MemorySink, MemoryStore};
pub use number::{operand, read_number, truth, write_number};
pub use outside::{Sink, SinkFailed, Store, StoreStop};
pub use place::{Slot, Span, text_at};
pub use real::{FileStore, StreamSink};
pub use sure::{SureSink, SureStore};
pub use value::TypedValue;
