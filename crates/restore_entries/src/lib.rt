//! The oplog of an archive: which of its entries a restore replays, what of them, and what they make of its collections.
#![tactic(auto)]

mod cut;
mod fields;
mod laws;
mod reading;
mod replaying;

pub use cut::takes_entry;
pub use fields::{read_field, replay_field};
pub use laws::cut_is_taken;
pub use reading::{EntryReading, read_entry};
pub use replaying::{changes_document, replay_document, replay_entries};
