//! What a dump copies: a cursor on each collection, and the blocks in which its documents are written.
#![tactic(auto)]

mod copies;
mod writing;

pub use copies::Copies;
pub use writing::write_read;
