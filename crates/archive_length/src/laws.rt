//! The law of the length of archives.
ghost use Rattle.archive_length.specs.Laws.{ArchivesAreShort};

use dump_steps::steps_follow;
use history_model::done_is_healed_before;
use recorded_entries::recorded_is_good;
use schedule_bounds::read_is_dumped;
use schedule_text::read_is_schedule;

/// A line of the text makes two writes at most. Each write adds a collection, a document to be read and an entry to be
/// sent at most, and each of these is a document of the archive, with a header and an end at most.
pub fn archives_are_short()
    ensures { ArchivesAreShort }
{
    steps_follow();
    done_is_healed_before();
    recorded_is_good();
    read_is_dumped();
    read_is_schedule();
}
