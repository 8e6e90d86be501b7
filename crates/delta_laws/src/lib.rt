//! What is written of an accepted update is read again. A law alone: the function does nothing, and its caller learns the law.
#![tactic(auto)]

mod laws;

pub use laws::delta_is_read;
