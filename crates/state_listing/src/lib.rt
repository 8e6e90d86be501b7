//! The listing of a state: a text with its collections, their indexes and their documents.
#![tactic(auto)]

mod lines;
mod listing;

pub use lines::quoted_name;
pub use listing::list;
