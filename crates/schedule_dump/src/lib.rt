//! The dump of a store beside which the commands of a schedule run, and the lines that are told of it.
#![tactic(auto)]

mod command;
mod fault;
mod lines;
mod run;
mod start;
mod step;
mod well_formed;

pub use fault::RunFault;
pub use lines::{renamed_line, rolled_line, ts_text, write_report};
pub use run::dump;
