//! A dump of a store that goes on changing: the collections as they are copied, and the entries of the oplog since.
#![tactic(auto)]

mod dump;
mod fault;
mod prelude;
mod window;

pub use dump::Dump;
pub use fault::{DumpFault, DumpReport};
