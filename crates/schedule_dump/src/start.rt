//! The lines before the dump starts.
ghost use Rattle.std.specs.Prelude.{◌≤◌, ◌∷◌, ℕ, List, Option, map as each, IsErrOf};
ghost use Rattle.tool_io.specs.Causes.{Rose};
ghost use Rattle.schedule_model.specs.declared.line.Line.{Line as Ran};
ghost use Rattle.history_model.specs.Runs.{Schedule as Model};
ghost use Rattle.schedule_report.specs.Schedules.{numbered};
ghost use Rattle.schedule_dump.specs.Progress.{BeforeStart, RunsBefore, GetsToStart};

use crate::command::{refuse, run_command};
use crate::fault::RunFault;
use schedule_model::Line;
use schedule_report::LineRefusal;
use schedule_text::{LineQueue, NumberedLine};
use std::alloc::Global;
use store_core::Store;
use tool_io::Sink;

// Runs a line before the dump has started. Answers whether the dump starts with it.
fn run_line_before<R: Sink>(
    alloc: Global,
    store: &mut Store,
    line: &NumberedLine,
    report: &mut R,
) -> Result<bool, RunFault>
    ensures runs { (s : Model) → (first : Option (List ℕ)) → (rest : List (ℕ × Ran)) → BeforeStart s store.old (numbered line.now ∷ rest) first (R.end report.old).bytes → RunsBefore result s store.new rest first (R.end report.new).bytes }
    ensures later { (R.end report.old).faults ≤ (R.end report.new).faults }
    ensures failed { IsErrOf result RunFault.ReportFault → Rose (R.end report.old).faults (R.end report.new).faults }
{
    match &line.line {
        Line::Dump => Ok(true),
        Line::Cmd(cmd) => match run_command(alloc, store, line.number, cmd, report) {
            Ok(()) => Ok(false),
            Err(fault) => Err(fault),
        },
        Line::Copy { .. } | Line::Mark | Line::Tail { .. } => {
            match refuse(alloc, line.number, LineRefusal::NotNow, report) {
                Ok(()) => Ok(false),
                Err(fault) => Err(fault),
            }
        }
    }
}

/// Runs the lines up to the one with which the dump starts, and leaves those behind it. Where there is none such, the dump starts
/// behind the last line. Steps of the dump have no place there.
pub fn run_up_to_start<R: Sink>(
    alloc: Global,
    store: &mut Store,
    left: &mut LineQueue,
    report: &mut R,
) -> Result<(), RunFault>
    ensures gets { (s : Model) → (first : Option (List ℕ)) → BeforeStart s store.old (each numbered left.old) first (R.end report.old).bytes → GetsToStart result s store.new left.new first (R.end report.new).bytes }
    ensures later { (R.end report.old).faults ≤ (R.end report.new).faults }
    ensures failed { IsErrOf result RunFault.ReportFault → Rose (R.end report.old).faults (R.end report.new).faults }
{
    'lines: while let Some(line) = left.next() {
        let starts = run_line_before(alloc, store, &line, report);
        drop(line);
        match starts {
            Ok(true) => return Ok(()),
            Ok(false) => {}
            Err(fault) => return Err(fault),
        }
    }
    Ok(())
}
