//! The indexes of a history have no fault at any moment, nor in what a filter takes of it. Laws alone: each function does
//! nothing, and its caller learns the law.
#![tactic(auto)]

mod laws;

pub use laws::{moments_are_faultless, taken_are_faultless};
