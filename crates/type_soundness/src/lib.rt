//! The types of a contract are sound: a run on values of the parameters' types finds a number wherever it reads one.
#![tactic(auto)]

pub mod laws;

pub use laws::{contracts_have_room, contracts_stay_plain, types_are_sound};
