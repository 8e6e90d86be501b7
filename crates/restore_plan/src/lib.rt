//! What a restore makes of an archive: the state of its takings, on which the entries of its oplog were replayed.
#![tactic(auto)]

mod collections;
mod early;
mod entries;
mod fault;
mod finish;
mod plan;
mod reading;
mod restore;
mod taking;

pub use fault::RestoreFault;
pub use plan::Plan;
pub use reading::{
    ArchiveFault, definitions_stand, one_outcome, refused_is_outcome, restore_archive,
};
pub use restore::Restore;
