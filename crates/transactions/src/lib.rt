//! What the commands of a transaction make of collections that stay as they are: the changes, with the entries that
//! record them, or the first refusal.
#![tactic(auto)]

mod change_record;
mod laws;
mod scratch;
mod step;
mod transaction;

pub use laws::{changes_are_writes, changes_keep_documents, good_changes};
pub use transaction::{Transaction, changes_together};
