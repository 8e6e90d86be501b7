//! Entries of the oplog, as bytes.
#![tactic(auto)]

mod body;
mod diff;
mod edits;
mod elements;
mod group;
mod heading;
mod index;
mod level;
mod names;
mod parts;
mod paths;
mod rising;
mod spelled;

pub use group::{write, write_delta};
pub use spelled::{write_put, write_update};
