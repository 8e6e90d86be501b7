//! What the store records: the oplog, with its clock.
#![tactic(auto)]

mod log;

pub use log::{Log, MOST_ENTRIES, next_ts};
