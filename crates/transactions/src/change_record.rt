//! A change with the action that records it.
use coll_state::Change;
use entry_model::Action;

/// A change of a document, and the action of its entry.
#[derive(Drop)]
pub(crate) struct ChangeRecord {
    pub(crate) change: Change,
    pub(crate) action: Action,
}
