//! What the lines of a schedule hold that was read. Laws alone: each function does nothing, and its caller learns the
//! law.
#![tactic(auto)]

mod laws;

pub use laws::{read_is_given, read_is_short, read_is_timed};
