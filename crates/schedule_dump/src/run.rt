//! The whole run.
ghost use Rattle.std.specs.Prelude.{◌≤◌, ℕ, List, Option, map as each, IsErrOf};
ghost use Rattle.tool_io.specs.Causes.{Rose};
ghost use Rattle.history_model.specs.WellFormed.{AreWellFormedLines};
ghost use Rattle.history_model.specs.Runs.{Schedule as Model};
ghost use Rattle.schedule_report.specs.Schedules.{schedule_in, numbered};
ghost use Rattle.schedule_dump.specs.Progress.{AtStart, ends};
ghost use Rattle.schedule_dump.specs.Outcomes.{RunOutcome};

use crate::fault::{RunFault, fault_of};
use crate::start::run_up_to_start;
use crate::step::run_beside;
use crate::well_formed::lines_are_well_formed;
use dump_run::{Dump, DumpReport};
use history_model::{done_is_healed_before, window_stands};
use schedule_text::{LineQueue, Schedule};
use std::alloc::Global;
use store_core::Store;
use tool_io::Sink;

// Starts the dump, runs these lines beside it, and does what is left of it. It gives the store back.
fn dump_beside<K: Sink, R: Sink>(
    alloc: Global,
    mut store: Store,
    lines: LineQueue,
    output: &mut K,
    report: &mut R,
) -> Result<(DumpReport, Store), RunFault>
    ensures comes { (s : Model) → (first : Option (List ℕ)) → AreWellFormedLines s.lines → AtStart s store (each numbered lines) first (R.end report.old).bytes → RunOutcome result s (record { output = (K.end output.old).bytes; report = first }) (ends (K.end output.new) (R.end report.new)) }
    ensures written { (K.end output.old).faults ≤ (K.end output.new).faults }
    ensures told { (R.end report.old).faults ≤ (R.end report.new).faults }
    ensures output { (s : Model) → (first : Option (List ℕ)) → AtStart s store (each numbered lines) first (R.end report.old).bytes → IsErrOf result RunFault.OutputFault → Rose (K.end output.old).faults (K.end output.new).faults }
    ensures report { IsErrOf result RunFault.ReportFault → Rose (R.end report.old).faults (R.end report.new).faults }
{
    done_is_healed_before();
    let mut dump = match Dump::start(alloc, &store, output) {
        Ok(dump) => dump,
        Err(fault) => return Err(fault_of(fault)),
    };
    match run_beside(alloc, &mut store, &mut dump, lines, output, report) {
        Ok(()) => {}
        Err(fault) => return Err(fault),
    }
    match dump.finish(&store, output) {
        Ok(report) => Ok((report, store)),
        Err(fault) => Err(fault_of(fault)),
    }
}

/// Runs the lines of a schedule, and writes the archive of the dump that it makes. The dump starts with the first line `dump`, or
/// behind the last line where there is none; behind the last line what is left of it is done. Each line that is refused is told
/// at once, and each line is dropped when it was run. A step of the dump that fails ends the run. It gives what the dump
/// reports, and the store as all lines left it.
pub fn dump<K: Sink, R: Sink>(
    alloc: Global,
    schedule: Schedule,
    output: &mut K,
    report: &mut R,
) -> Result<(DumpReport, Store), RunFault>
    requires least { 1 ≤ schedule.cap }
    requires most { schedule.cap ≤ 1000000 }
    ensures comes { RunOutcome result (schedule_in schedule) (ends (K.end output.old) (R.end report.old)) (ends (K.end output.new) (R.end report.new)) }
    ensures written { (K.end output.old).faults ≤ (K.end output.new).faults }
    ensures told { (R.end report.old).faults ≤ (R.end report.new).faults }
    ensures output { IsErrOf result RunFault.OutputFault → Rose (K.end output.old).faults (K.end output.new).faults }
    ensures report { IsErrOf result RunFault.ReportFault → Rose (R.end report.old).faults (R.end report.new).faults }
{
    window_stands();
    lines_are_well_formed(schedule.lines.as_slice());
    let mut store = match Store::new(alloc, schedule.cap, schedule.bytes) {
        Ok(store) => store,
        Err(_) => return Err(RunFault::NoMemory),
    };
    let mut lines = LineQueue::of(schedule.lines);
    match run_up_to_start(alloc, &mut store, &mut lines, report) {
        Ok(()) => dump_beside(alloc, store, lines, output, report),
        Err(fault) => Err(fault),
    }
}
