//! The indexes of the collections that a transaction names: what they refuse of its changes, which they follow.
#![tactic(auto)]

mod following;
mod laws;
mod reversal;

pub use following::{forget_all, keep_all, pass};
pub use laws::indexes_decide;
pub use reversal::take_back;
