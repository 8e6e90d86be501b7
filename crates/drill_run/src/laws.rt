//! What the laws of dumps say of drills.
ghost use Rattle.drill_run.specs.Restores.{DrillsHeal};

use archive_length::archives_are_short;
use done_dumps::{dumps_start, plain_dumps_are_done, unmarked_dumps_end_last};
use drill_schedule::{drills_are_plain, drills_are_schedules};
use restore_filter::names_stay;
use restored_dump::archive_restores;
use restored_source::lists_whole_source;
use schedule_bounds::read_is_dumped;

/// The dump of a drill is done, its archive is restored by a replay, and what that gives is listed as the source.
pub fn drills_heal()
    ensures { DrillsHeal }
{
    drills_are_schedules();
    drills_are_plain();
    plain_dumps_are_done();
    dumps_start();
    unmarked_dumps_end_last();
    read_is_dumped();
    archives_are_short();
    names_stay();
    archive_restores();
    lists_whole_source();
}
