//! The action by which the entry of an update records it.
#![tactic(auto)]

mod action;
mod delta;
mod entry;
mod single;

pub use action::update_action;
pub use entry::update_entry;
