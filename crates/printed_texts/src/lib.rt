//! The prints of values of JSON. Laws alone: each function does nothing, and its caller learns the law.
#![tactic(auto)]

mod laws;

pub use laws::{prints_are_texts, strings_are_short};
