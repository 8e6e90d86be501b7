//! The dump of a store beside which a schedule runs.
ghost use Rattle.std.specs.Prelude.{◌≤◌};
ghost use Rattle.schedule_report.specs.Schedules.{schedule_in};
ghost use Rattle.tools_commands.specs.Ends.{turn};
ghost use Rattle.tools_commands.specs.DumpAnswers.{ScheduleSays, DumpSays};

use crate::status::Status;
use schedule_dump::{RunFault, dump, write_report};
use schedule_input::{InputFault, read_schedule};
use schedule_text::Schedule;
use std::alloc::Global;
use tool_io::{Fault, Sink, Source};

// Runs a schedule, writes the archive of its dump, and tells what the dump came to.
fn dump_schedule<K: Sink, R: Sink>(
    alloc: Global,
    schedule: Schedule,
    output: &mut K,
    report: &mut R,
) -> Status
    requires least { 1 ≤ schedule.cap }
    requires most { schedule.cap ≤ 1000000 }
    ensures { ScheduleSays (schedule_in schedule) result
        (turn (K.end output.old) (K.end output.new))
        (turn (R.end report.old) (R.end report.new)) }
{
    match dump(alloc, schedule, output, report) {
        Ok((came, store)) => {
            drop(store);
            match write_report(alloc, came, report) {
                Ok(()) => Status::Done,
                Err(Fault::Failed) => Status::WriteFault,
                Err(Fault::NoMemory) => Status::NoMemory,
            }
        }
        Err(RunFault::Renamed { ts }) => Status::Renamed { ts },
        Err(RunFault::Rolled { start, oldest }) => Status::Rolled { start, oldest },
        Err(RunFault::OutputFault) => Status::WriteFault,
        Err(RunFault::ReportFault) => Status::WriteFault,
        Err(RunFault::NoMemory) => Status::NoMemory,
    }
}

/// Reads a schedule from the input, runs its lines, tells each one that is refused, and writes on the output the archive of the
/// dump that it makes.
pub fn dump_source<S: Source, K: Sink, R: Sink>(
    alloc: Global,
    input: &mut S,
    output: &mut K,
    report: &mut R,
) -> Status
    ensures { DumpSays result
        (turn (S.end input.old) (S.end input.new))
        (turn (K.end output.old) (K.end output.new))
        (turn (R.end report.old) (R.end report.new)) }
{
    match read_schedule(alloc, input) {
        Ok(schedule) => dump_schedule(alloc, schedule, output, report),
        Err(InputFault::Bad { line, kind }) => Status::BadSchedule { line, kind },
        Err(InputFault::ReadFault) => Status::ReadFault,
        Err(InputFault::NoMemory) => Status::NoMemory,
    }
}
