//! Lines of a schedule.
use crate::command::Command;
use bson_value::NsName;

/// A line of a schedule: a command to the store, or a step of the dump.
#[derive(Drop)]
pub enum Line {
    Cmd(Command),
    /// The dump starts.
    Dump,
    /// The cursor of a namespace reads so many documents.
    Copy { ns: NsName, n: u32 },
    /// The end of the window is noted.
    Mark,
    /// So many entries of the window are written.
    Tail { n: u32 },
}
