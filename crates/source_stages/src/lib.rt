//! The stages of a source: from its bytes to its contract with types, or to what is wrong with it.
#![tactic(auto)]

pub mod fault;
pub mod laws;
pub mod reading;

pub use fault::SourceFault;
pub use laws::{accepted_contracts, one_contract, one_way};
pub use reading::{MAX_SOURCE_LEN, typed_contract_of};
