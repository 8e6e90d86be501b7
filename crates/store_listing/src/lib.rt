//! The listing of what a store holds.
#![tactic(auto)]

mod listing;

pub use listing::list_store;
