//! Which schedule the text of a drill is. Laws alone: each function does nothing, and its caller learns the law.
#![tactic(auto)]

mod laws;

pub use laws::{drills_are_plain, drills_are_schedules};
