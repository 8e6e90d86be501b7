//! The prelude of an archive: the documents between its magic number and its first block.
#![tactic(auto)]

mod fault;
mod prelude;
mod reading;
mod writing;

pub use fault::PreludeFault;
pub use prelude::{Meta, Prelude};
pub use reading::{read_header, read_meta};
pub use writing::write;
