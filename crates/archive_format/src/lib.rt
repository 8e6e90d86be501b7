//! The format of archives: their items, the shapes of their documents, and the fault of bytes that are no archive.
#![tactic(auto)]

mod fault;
mod laws;
mod marks;
mod names;
mod place;

pub use fault::FormatFault;
pub use laws::{
    content_or_fault, crc_by_parts, headers_are_read, heads_are_read, metas_are_read, one_end,
    written_sizes,
};
pub use marks::{MAGIC, TERMINATOR};
pub use names::{is_namespace, is_oplog};
pub use place::Place;
