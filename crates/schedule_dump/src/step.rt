//! The lines behind the start of the dump.
ghost use Rattle.std.specs.Prelude.{◌≡◌, ◌≤◌, ◌∷◌, [], ℕ, List, None, map as each, OnOk, IsErrOf};
ghost use Rattle.tool_io.specs.Causes.{Rose};
ghost use Rattle.schedule_model.specs.declared.line.Line.{Line as Ran};
ghost use Rattle.history_model.specs.Runs.{Schedule as Model};
ghost use Rattle.schedule_report.specs.Schedules.{numbered};
ghost use Rattle.schedule_dump.specs.Lines.{Settles};
ghost use Rattle.schedule_dump.specs.Progress.{DuringDump, Ends, ends};
ghost use Rattle.schedule_dump.specs.Outcomes.{RunsOn};

use crate::command::{refuse, run_command};
use crate::fault::RunFault;
use dump_run::{Dump, DumpFault};
use schedule_model::Line;
use schedule_report::LineRefusal;
use schedule_text::{LineQueue, NumberedLine};
use std::alloc::Global;
use store_core::Store;
use tool_io::Sink;

// What a step of the dump comes to: where it had no place, that is told.
fn settle<R: Sink>(
    alloc: Global,
    number: u32,
    step: Result<(), DumpFault>,
    report: &mut R,
) -> Result<(), RunFault>
    ensures settles { Settles number step result (R.end report.old).bytes (R.end report.new).bytes }
    ensures later { (R.end report.old).faults ≤ (R.end report.new).faults }
    ensures failed { IsErrOf result RunFault.ReportFault → Rose (R.end report.old).faults (R.end report.new).faults }
    ensures output { IsErrOf result RunFault.OutputFault → IsErrOf step DumpFault.WriteFault }
{
    match step {
        Ok(()) => Ok(()),
        Err(DumpFault::NotNow) => refuse(alloc, number, LineRefusal::NotNow, report),
        Err(DumpFault::NoCursor) => refuse(alloc, number, LineRefusal::NoCursor, report),
        Err(DumpFault::Renamed { ts }) => Err(RunFault::Renamed { ts }),
        Err(DumpFault::Rolled { start, oldest }) => Err(RunFault::Rolled { start, oldest }),
        Err(DumpFault::WriteFault) => Err(RunFault::OutputFault),
        Err(DumpFault::NoMemory) => Err(RunFault::NoMemory),
    }
}

// Runs a line beside the dump.
fn run_line<K: Sink, R: Sink>(
    alloc: Global,
    store: &mut Store,
    dump: &mut Dump,
    line: &NumberedLine,
    output: &mut K,
    report: &mut R,
) -> Result<(), RunFault>
    ensures runs { (s : Model) → (first : Ends) → (rest : List (ℕ × Ran)) → DuringDump s store.old dump.old (numbered line.now ∷ rest) first (ends (K.end output.old) (R.end report.old)) → RunsOn result s store.new dump.new rest first (ends (K.end output.new) (R.end report.new)) }
    ensures going { dump.old.failed ≡ None → OnOk result (dump.new.failed ≡ None) }
    ensures written { (K.end output.old).faults ≤ (K.end output.new).faults }
    ensures told { (R.end report.old).faults ≤ (R.end report.new).faults }
    ensures output { dump.old.failed ≡ None → IsErrOf result RunFault.OutputFault → Rose (K.end output.old).faults (K.end output.new).faults }
    ensures report { IsErrOf result RunFault.ReportFault → Rose (R.end report.old).faults (R.end report.new).faults }
{
    match &line.line {
        Line::Cmd(cmd) => run_command(alloc, store, line.number, cmd, report),
        Line::Dump => refuse(alloc, line.number, LineRefusal::NotNow, report),
        Line::Copy { ns, n } => {
            let step = dump.copy(store, ns, *n, output);
            settle(alloc, line.number, step, report)
        }
        Line::Mark => {
            let step = dump.mark(store);
            settle(alloc, line.number, step, report)
        }
        Line::Tail { n } => {
            let step = dump.tail(store, *n, output);
            settle(alloc, line.number, step, report)
        }
    }
}

/// Runs lines beside the dump, up to the last one, or to the step of the dump that fails.
pub fn run_beside<K: Sink, R: Sink>(
    alloc: Global,
    store: &mut Store,
    dump: &mut Dump,
    mut left: LineQueue,
    output: &mut K,
    report: &mut R,
) -> Result<(), RunFault>
    ensures runs { (s : Model) → (first : Ends) → DuringDump s store.old dump.old (each numbered left) first (ends (K.end output.old) (R.end report.old)) → RunsOn result s store.new dump.new [] first (ends (K.end output.new) (R.end report.new)) }
    ensures going { dump.old.failed ≡ None → OnOk result (dump.new.failed ≡ None) }
    ensures written { (K.end output.old).faults ≤ (K.end output.new).faults }
    ensures told { (R.end report.old).faults ≤ (R.end report.new).faults }
    ensures output { dump.old.failed ≡ None → IsErrOf result RunFault.OutputFault → Rose (K.end output.old).faults (K.end output.new).faults }
    ensures report { IsErrOf result RunFault.ReportFault → Rose (R.end report.old).faults (R.end report.new).faults }
{
    'lines: while let Some(line) = left.next() {
        let ran = run_line(alloc, store, dump, &line, output, report);
        drop(line);
        match ran {
            Ok(()) => {}
            Err(fault) => return Err(fault),
        }
    }
    Ok(())
}
