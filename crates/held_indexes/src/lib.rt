//! Indexes that hold have no fault. A law alone: the function does nothing, and its caller learns it.
#![tactic(auto)]

mod laws;

pub use laws::held_are_faultless;
