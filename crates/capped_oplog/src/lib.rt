//! The last entries of the oplog, capped in their number and in their bytes.
#![tactic(auto)]

mod laws;
mod ring;

pub use laws::keeps_the_longest_suffix;
pub use ring::CappedOplog;
