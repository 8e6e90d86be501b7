//! When the fields of an entry are a document, how many bytes it has, and how many levels. Laws alone: each function
//! does nothing, and its caller learns the law.
#![tactic(auto)]

mod laws;

pub use laws::{entries_are_documents, entry_sizes};
