//! The source that the commands of a schedule make, up to a limit.
#![tactic(auto)]

mod command;
mod input;
mod run;

pub use input::run_input;
pub use run::{RefusedLine, SourceRun};
