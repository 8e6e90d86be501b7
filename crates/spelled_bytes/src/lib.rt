//! The bytes of spellings. Laws alone: each function does nothing, and its caller learns the law.
#![tactic(auto)]

mod laws;

pub use laws::{documents_are_bytes, texts_are_bytes};
