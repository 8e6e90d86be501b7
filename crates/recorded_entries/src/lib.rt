//! What is recorded of a schedule's writes is read again. Laws alone: each function does nothing, and its caller learns
//! the law.
#![tactic(auto)]

mod laws;

pub use laws::{good_entries, recorded_is_good};
