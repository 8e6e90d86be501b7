//! From the bytes that a dump wrote to the state that a restore makes of them. Laws alone: each function does nothing,
//! and its caller learns the law.
#![tactic(auto)]

mod laws;

pub use laws::{archive_heals, archive_is_taken, finish_heals};
