//! Indexes over the documents of collections.
#![tactic(auto)]

mod count;
mod counts;
mod entries;
mod entry;
mod fault;
mod holder;
mod holders;
mod index;
mod index_fault;
mod laws;
mod newest;
mod owners;
mod place;
mod swap;

pub use count::{count_all, count_definitions};
pub use counts::{Counts, Numbers};
pub use fault::CountFault;
pub use index::Index;
pub use index_fault::IndexFault;
pub use laws::{holds_on, kept_is_built, numbers_are_told, same_states};
pub use swap::Swap;
