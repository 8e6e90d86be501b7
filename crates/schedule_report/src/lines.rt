//! The lines of the report.
ghost use Rattle.std.specs.Prelude.{◌≡◌, ◌≤◌, IfOk, OnOk, OnErr, IsErrOf, string_bytes};
ghost use Rattle.std.specs.Io.KnownBytes.{Appends};
ghost use Rattle.tool_io.specs.Causes.{Rose, AppendsFront};
ghost use Rattle.schedule_report.specs.Lines.{line_with, refusal_line, refusal_of};

use crate::refusal::LineRefusal;
use std::alloc::{AllocError, Global};
use tool_io::{Fault, Sink};

// The line of a refusal of this name.
fn refusal_line(alloc: Global, number: u32, name: &str) -> Result<String, AllocError>
    ensures { IfOk result (λ s. string_bytes s ≡ line_with number name.now) }
{
    format!(in alloc; "line {number} refused {name}\n")
}

/// Tells that the line of this number was refused, in one write. Behind an error some front of the line was written.
pub fn write_refusal<R: Sink>(
    alloc: Global,
    number: u32,
    refusal: LineRefusal,
    report: &mut R,
) -> Result<(), Fault>
    ensures ok { OnOk result (Appends (R.end report.old).bytes (R.end report.new).bytes (refusal_line (number, refusal_of refusal))) }
    ensures err { OnErr result (AppendsFront (R.end report.old).bytes (R.end report.new).bytes (refusal_line (number, refusal_of refusal))) }
    ensures later { (R.end report.old).faults ≤ (R.end report.new).faults }
    ensures failed { IsErrOf result Fault.Failed → Rose (R.end report.old).faults (R.end report.new).faults }
{
    let line = refusal_line(alloc, number, refusal.name())?;
    report.write(line.as_bytes())
}
