//! A value isn't much longer than the print of its tree. A law alone: its function does nothing, and its caller learns
//! the law.
#![tactic(auto)]

mod laws;

pub use laws::values_are_short;
