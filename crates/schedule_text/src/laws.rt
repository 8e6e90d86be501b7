//! The laws of reading schedules. Each function does nothing, and its caller learns the law.
ghost use Rattle.schedule_text.specs.Laws.{SchedulesAreRead, ReadIsSchedule};

use json_text::{json_is_read, read_is_json};

/// What the grammar has is read: `Schedule::read` gives each text of the grammar its schedule.
pub fn schedules_are_read()
    ensures { SchedulesAreRead }
{
    json_is_read();
}

/// What is read is in the grammar: each text to which `Schedule::read` gives a schedule is that schedule.
pub fn read_is_schedule()
    ensures { ReadIsSchedule }
{
    read_is_json();
}
