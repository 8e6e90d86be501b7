//! What Extended JSON reads. Laws alone: each function does nothing, and its caller learns the law.
#![tactic(auto)]

mod laws;

pub use laws::{json_is_formed, read_is_formed, read_is_plain};
