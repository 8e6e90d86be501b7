//! The laws of drills.
ghost use Rattle.drill_schedule.specs.Laws.{DrillsAreSchedules, DrillsArePlain, DrillsHaveLines};

use json_text::print_is_json;
use schedule_text::schedules_are_read;

/// The text of each drill is a schedule, and `Schedule::read` gives it the lines that its draws say.
pub fn drills_are_schedules()
    ensures { DrillsAreSchedules }
{
    print_is_json();
    schedules_are_read();
}

/// The lines of a drill create a collection, change a document, or start the dump or copy for it, and are five more than
/// its number.
pub fn drills_are_plain()
    ensures lines { DrillsArePlain }
    ensures count { DrillsHaveLines }
{}
