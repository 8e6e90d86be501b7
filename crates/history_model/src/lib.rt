//! What the lines of a schedule mean: refusals, writes and their entries, states, and the steps of a dump.
//! Laws alone: each function does nothing, and its caller learns the law.
#![tactic(auto)]

mod dumps;
mod histories;

pub use dumps::{
    done_is_healed, done_is_healed_before, done_is_whole, lines_are_events, lines_heal,
    marked_dump_heals, run_is_lines, steps_read_copy,
};
pub use histories::{
    history_is_recorded, indexes_are_kept, oplog_is_kept, source_is_before, state_is_history,
    timestamps_rise, window_has_no_rename, window_stands,
};
