//! The law of schedules that were read.
ghost use Rattle.schedule_bounds.specs.Laws.{ReadIsDumped};

use dump_bytes::{metadata_fits, written_are_bytes};
use entry_times::timestamps_fit;
use given_lines::{read_is_given, read_is_short, read_is_timed};
use schedule_text::read_is_schedule;

/// A schedule that was read from a text, and whose dump is done, holds what Extended JSON reads, its timestamps have 32
/// bits each, and its dump writes metadata that the archive has room for, and bytes.
pub fn read_is_dumped()
    ensures { ReadIsDumped }
{
    read_is_schedule();
    read_is_given();
    read_is_timed();
    read_is_short();
    timestamps_fit();
    metadata_fits();
    written_are_bytes();
}
