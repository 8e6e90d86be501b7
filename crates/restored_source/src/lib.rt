//! From a schedule whose dump is done to the listing that a restore of its archive gives. Laws alone: each function does
//! nothing, and its caller learns the law.
#![tactic(auto)]

mod laws;

pub use laws::{lists_source, lists_whole_source, lists_whole_transactions, same_are_listed_alike};
