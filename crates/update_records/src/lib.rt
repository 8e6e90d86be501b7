//! What is recorded of an update of well-formed documents. Laws alone: each function does nothing, and its caller learns the
//! law.
#![tactic(auto)]

mod laws;

pub use laws::{updates_record, updates_stay_well_formed};
