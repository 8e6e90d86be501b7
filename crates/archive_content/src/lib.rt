//! What is written of an archive, block by block, is its content. Laws alone: each function does nothing, and its caller
//! learns the law.
#![tactic(auto)]

mod laws;

pub use laws::{block_is_read, end_is_read, written_is_content};
