//! Copies of a state that are read while writes go on. Laws alone: each function does nothing, and its
//! caller learns the law.
#![tactic(auto)]

mod laws;

pub use laws::{blocks_make_copy, copy_heals, differences_are_covered, writes_are_recorded};
