//! The timestamps of entries. A law alone: the function does nothing, and its caller learns the law.
#![tactic(auto)]

mod laws;

pub use laws::timestamps_fit;
