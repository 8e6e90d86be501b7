//! A committed transaction stands whole in each state of a source, or not at all. Laws alone: each function does
//! nothing, and its caller learns the law.
#![tactic(auto)]

mod laws;

pub use laws::{at_is_whole, before_is_whole};
