//! The store: collections that commands change, and the oplog in which each change is recorded.
#![tactic(auto)]

mod apply;
mod check;
mod collections;
mod entries;
mod fault;
mod indexes;
mod inserts;
mod own_bytes;
mod replacements;
mod store;
mod transaction;
mod updates;
mod writes;

pub use fault::StoreFault;
pub use store::Store;
