//! The trees of well-formed values. A law alone: the function does nothing, and its caller learns the law.
#![tactic(auto)]

mod laws;

pub use laws::trees_are_formed;
