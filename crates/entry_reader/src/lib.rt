//! Entries of the oplog that change one document, read in the bytes that spell them.
#![tactic(auto)]

mod actions;
mod array_fields;
mod diff_fields;
mod entry;
mod field_delta;
mod found;
mod parts;
mod single;

pub use entry::{EntryView, to_doc};
pub use field_delta::{FieldDelta, FieldPlace};
