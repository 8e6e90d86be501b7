//! Schedules that are read from a source.
#![tactic(auto)]

mod fault;
mod input;
mod laws;
mod lines;
mod piece;
mod unread;

pub use fault::InputFault;
pub use input::read_schedule;
pub use laws::long_texts_are_cut;
pub use lines::InputLines;
