//! The bytes of what is recorded and kept are decoded again. A law alone: its function does nothing, and its caller
//! learns the law.
#![tactic(auto)]

mod laws;

pub use laws::entries_are_read;
