//! The filter of a restore: which namespaces it takes, and under which names it restores them.
#![tactic(auto)]

mod filter;
mod laws;

pub use filter::Filter;
pub use laws::{
    matches_are_found, names_stay, new_name_is_found, renamed_is_found, shortest_is_found,
    taken_is_found,
};
