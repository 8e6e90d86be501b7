//! Values of JSON, with the members of an object in order.
#![tactic(auto)]

mod builder;
mod copy;
mod members;
mod number;
mod tree;
mod well_formed;

pub use builder::MembersBuilder;
pub use members::Members;
pub use number::Number;
pub use tree::{Fields, Tree};
