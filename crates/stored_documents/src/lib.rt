//! What commands leave of the documents that they store: each keeps its `_id`, and none is too large. The laws
//! are functions that do nothing, and whose caller learns the law.
#![tactic(auto)]

mod equality;
mod laws;

pub use equality::same_document;
pub use laws::{id_first_is_alike, stored_documents_are_good, updates_keep_documents_good};
