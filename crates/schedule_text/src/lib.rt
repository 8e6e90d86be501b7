//! Schedules as texts.
#![tactic(auto)]

mod drill_text;
mod fault;
mod laws;
mod lines;
mod operands;
mod queue;
mod reader;
mod schedule;
mod statement;
mod verb;
mod words;

pub use drill_text::drill;
pub use fault::{LineFault, LineKind};
pub use laws::{read_is_schedule, schedules_are_read};
pub use lines::line_end;
pub use queue::LineQueue;
pub use reader::LineReader;
pub use schedule::{NumberedLine, Schedule};
