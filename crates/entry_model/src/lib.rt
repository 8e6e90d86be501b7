//! Entries of the oplog: what the document of an entry is in both forms of updates, which entry a document is, and the laws of both.
#![tactic(auto)]

mod entry;
mod fault;
mod laws;

pub use entry::{Action, Entry};
pub use fault::EntryFault;
pub use laws::{entry_reads_back, written_is_document, written_is_read};
