//! Entries of the oplog: which entry a document is.
#![tactic(auto)]

mod commands;
mod delta;
mod fields;
mod names;
mod operations;
mod paths;
mod reading;
mod update;

pub use entry_model::{Action, Entry, EntryFault};
pub use reading::{head, read};
pub use update::read_delta;
