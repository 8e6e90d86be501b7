//! A run of the commands of a schedule, a line at a time, up to the first one that would record an entry that isn't before a limit.
ghost use Rattle.std.specs.Prelude.{◌≡◌, ◌≤◌, true, IfOk, OnOk, OnErr, IsErrOf, map as each};
ghost use Rattle.std.specs.Io.KnownBytes.{Appends};
ghost use Rattle.tool_io.specs.Causes.{Rose, AppendsFront};
ghost use Rattle.history_model.specs.Commands.{applied};
ghost use Rattle.schedule_report.specs.Lines.{refusal_line, refusals_text};
ghost use Rattle.schedule_report.specs.Schedules.{numbered};
ghost use Rattle.schedule_source.specs.Progress.{Progress, at_first, behind_command, refusal_in, Advances, RunsTo};

use crate::command::run_before;
use bson_value::{List, Ts};
use schedule_model::{Command, Line, Refused};
use schedule_report::{LineRefusal, write_refusal};
use schedule_text::NumberedLine;
use std::alloc::{AllocError, Global};
use store_core::{Store, StoreFault};
use tool_io::{Fault, Sink};

/// A line whose command the store refused.
#[derive(Drop)]
pub struct RefusedLine {
    /// Its number in the text, from 1.
    pub number: u32,
    /// Why it was refused.
    pub row: Refused,
}

/// What the lines so far made.
#[derive(Drop)]
pub struct SourceRun {
    pub store: Store,
    /// In the order of the lines.
    pub refused: List<RefusedLine>,
    /// No command yet would have recorded an entry that isn't before the limit.
    pub goes_on: bool,
}

impl RefusedLine {
    // Tells the line. Behind an error some front of that was written.
    fn tell<R: Sink>(&self, alloc: Global, report: &mut R) -> Result<(), Fault>
        ensures ok { OnOk result (Appends (R.end report.old).bytes (R.end report.new).bytes (refusal_line (refusal_in self.now))) }
        ensures err { OnErr result (AppendsFront (R.end report.old).bytes (R.end report.new).bytes (refusal_line (refusal_in self.now))) }
        ensures later { (R.end report.old).faults ≤ (R.end report.new).faults }
        ensures failed { IsErrOf result Fault.Failed → Rose (R.end report.old).faults (R.end report.new).faults }
    {
        write_refusal(alloc, self.number, LineRefusal::NotTaken(self.row), report)
    }
}

impl SourceRun {
    /// A run before its first line, over a store whose oplog has these caps.
    pub fn new(alloc: Global, cap: usize, bytes: Option<u64>) -> Result<SourceRun, AllocError>
        requires least { 1 ≤ cap }
        requires most { cap ≤ 1000000 }
        ensures { IfOk result (λ run. RunsTo run (at_first (record { entries = cap; bytes = bytes }))) }
    {
        Ok(SourceRun {
            store: Store::new(alloc, cap, bytes)?,
            refused: List::new(alloc),
            goes_on: true,
        })
    }

    fn command(&mut self, number: u32, cmd: &Command, limit: Option<Ts>) -> Result<(), AllocError>
        requires { self.old.goes_on ≡ true }
        ensures { OnOk result ((p : Progress) → RunsTo self.old p → RunsTo self.new (behind_command limit number (applied cmd.now p.stage) p)) }
    {
        match run_before(&mut self.store, cmd, limit) {
            Ok(is_whole) => {
                self.goes_on = is_whole;
                Ok(())
            }
            Err(StoreFault::Refused(row)) => self.refused.push(RefusedLine { number, row }),
            Err(StoreFault::NoMemory) => Err(AllocError),
        }
    }

    /// Runs the next line. Lines of the dump are passed over, and all lines behind a command that would record an entry that isn't
    /// before the limit. Without memory the run is of no use.
    pub fn take(&mut self, line: &NumberedLine, limit: Option<Ts>) -> Result<(), AllocError>
        ensures { OnOk result (Advances limit (numbered line.now) self.old self.new) }
    {
        match &line.line {
            Line::Cmd(cmd) => {
                if self.goes_on {
                    self.command(line.number, cmd, limit)
                } else {
                    Ok(())
                }
            }
            _ => Ok(()),
        }
    }

    /// Tells each line that was refused. Behind an error some front of that was written.
    pub fn tell<R: Sink>(&self, alloc: Global, report: &mut R) -> Result<(), Fault>
        ensures ok { OnOk result (Appends (R.end report.old).bytes (R.end report.new).bytes (refusals_text (each refusal_in self.now.refused))) }
        ensures err { OnErr result (AppendsFront (R.end report.old).bytes (R.end report.new).bytes (refusals_text (each refusal_in self.now.refused))) }
        ensures later { (R.end report.old).faults ≤ (R.end report.new).faults }
        ensures failed { IsErrOf result Fault.Failed → Rose (R.end report.old).faults (R.end report.new).faults }
    {
        for line in self.refused.as_slice() {
            line.tell(alloc, report)?;
        }
        Ok(())
    }
}
