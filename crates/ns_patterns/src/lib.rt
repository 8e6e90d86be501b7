//! Patterns of names: which namespaces they take, and what they rename them to.
#![tactic(auto)]

mod joined;
mod pattern;

pub use pattern::{Pattern, PatternFault};
