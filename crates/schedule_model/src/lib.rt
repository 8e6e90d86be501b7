//! What the lines of a schedule are: commands to the store, steps of the dump, and why a command is
//! refused.
#![tactic(auto)]

mod command;
mod line;
mod refused;

pub use command::{Command, DocumentCommand};
pub use line::Line;
pub use refused::Refused;
