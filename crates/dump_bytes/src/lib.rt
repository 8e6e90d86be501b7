//! What a dump writes. Laws alone: each function does nothing, and its caller learns the law.
#![tactic(auto)]

mod laws;

pub use laws::{metadata_fits, written_are_bytes};
