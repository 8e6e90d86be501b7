//! A command, and the telling of a line that does nothing.
ghost use Rattle.std.specs.Prelude.{◌≤◌, IsErrOf};
ghost use Rattle.tool_io.specs.Causes.{Rose};
ghost use Rattle.schedule_model.specs.declared.line.Line.TheVariants.{Cmd};
ghost use Rattle.schedule_report.specs.Lines.{refusal_of};
ghost use Rattle.schedule_dump.specs.Lines.{Commands, Refuses};

use crate::fault::RunFault;
use schedule_model::Command;
use schedule_report::{LineRefusal, write_refusal};
use std::alloc::Global;
use store_core::{Store, StoreFault};
use tool_io::{Fault, Sink};

// The store records no more entries than this.
const MOST_ENTRIES: u64 = 4_000_000_000;

/// Tells that a line does nothing.
pub fn refuse<R: Sink>(
    alloc: Global,
    number: u32,
    refusal: LineRefusal,
    report: &mut R,
) -> Result<(), RunFault>
    ensures tells { Refuses (number, refusal_of refusal) result (R.end report.old).bytes (R.end report.new).bytes }
    ensures later { (R.end report.old).faults ≤ (R.end report.new).faults }
    ensures failed { IsErrOf result RunFault.ReportFault → Rose (R.end report.old).faults (R.end report.new).faults }
{
    match write_refusal(alloc, number, refusal, report) {
        Ok(()) => Ok(()),
        Err(Fault::Failed) => Err(RunFault::ReportFault),
        Err(Fault::NoMemory) => Err(RunFault::NoMemory),
    }
}

/// Applies a command, or tells why it is refused.
pub fn run_command<R: Sink>(
    alloc: Global,
    store: &mut Store,
    number: u32,
    cmd: &Command,
    report: &mut R,
) -> Result<(), RunFault>
    ensures runs { Commands (number, Cmd cmd.now) result store.old store.new (R.end report.old).bytes (R.end report.new).bytes }
    ensures later { (R.end report.old).faults ≤ (R.end report.new).faults }
    ensures failed { IsErrOf result RunFault.ReportFault → Rose (R.end report.old).faults (R.end report.new).faults }
{
    if store.recorded() >= MOST_ENTRIES {
        return Err(RunFault::NoMemory);
    }
    match store.apply(cmd) {
        Ok(_) => Ok(()),
        Err(StoreFault::Refused(row)) => {
            refuse(alloc, number, LineRefusal::NotTaken(row), report)
        }
        Err(StoreFault::NoMemory) => Err(RunFault::NoMemory),
    }
}
