//! Indexes of collections, kept up as documents come and go: what they say of a document without a look at the others.
#![tactic(auto)]

mod collection;
mod indexes;
mod verdict;

pub use indexes::KeptIndexes;
pub use verdict::Verdict;
