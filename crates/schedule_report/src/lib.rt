//! What is told of a schedule while it runs.
#![tactic(auto)]

mod lines;
mod refusal;

pub use lines::write_refusal;
pub use refusal::LineRefusal;
