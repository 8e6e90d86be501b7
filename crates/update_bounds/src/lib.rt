//! What an accepted update leaves as it was, and the limits that its document keeps. Laws alone: each function does
//! nothing, and its caller learns the law.
#![tactic(auto)]

mod laws;

pub use laws::{updates_are_small, updates_keep_first};
