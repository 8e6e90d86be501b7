//! What a schedule that was read stays within. A law alone: the function does nothing, and its caller learns the law.
#![tactic(auto)]

mod laws;

pub use laws::read_is_dumped;
