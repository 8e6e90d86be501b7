//! The lines of the report.
ghost use Rattle.std.specs.Prelude.{◌≡◌, ◌≤◌, IfOk, OnOk, OnErr, IsErrOf, string_bytes};
ghost use Rattle.std.specs.Io.KnownBytes.{Appends};
ghost use Rattle.tool_io.specs.Causes.{Rose, AppendsFront};
ghost use Rattle.schedule_report.specs.Lines.{ts_text};
ghost use Rattle.schedule_dump.specs.Texts.{report_line, rolled_line, renamed_line};

use bson_value::Ts;
use dump_run::DumpReport;
use std::alloc::{AllocError, Global};
use tool_io::{Fault, Sink};

/// Seconds and ordinal.
pub fn ts_text(alloc: Global, ts: Ts) -> Result<String, AllocError>
    ensures { IfOk result (λ s. string_bytes s ≡ ts_text ts) }
{
    let secs = ts.secs;
    let inc = ts.inc;
    format!(in alloc; "{secs}:{inc}")
}

/// The line of a dump whose oplog doesn't go back to its beginning any more.
pub fn rolled_line(alloc: Global, start: Ts, oldest: Ts) -> Result<String, AllocError>
    ensures { IfOk result (λ s. string_bytes s ≡ rolled_line start oldest) }
{
    let start = ts_text(alloc, start)?;
    let oldest = ts_text(alloc, oldest)?;
    format!(in alloc; "rolled: start {start} oldest {oldest}\n")
}

/// The line of a dump since whose beginning a collection was renamed.
pub fn renamed_line(alloc: Global, ts: Ts) -> Result<String, AllocError>
    ensures { IfOk result (λ s. string_bytes s ≡ renamed_line ts) }
{
    let ts = ts_text(alloc, ts)?;
    format!(in alloc; "renamed: {ts}\n")
}

// The line of a dump that has come to its end.
fn report_line(alloc: Global, dump: DumpReport) -> Result<String, AllocError>
    ensures { IfOk result (λ s. string_bytes s ≡ report_line dump) }
{
    let start = ts_text(alloc, dump.start)?;
    let last_read = ts_text(alloc, dump.last_read)?;
    let end = ts_text(alloc, dump.end)?;
    let documents = dump.documents;
    let entries = dump.entries;
    format!(in alloc;
        "start {start} lastread {last_read} end {end} documents {documents} entries {entries}\n"
    )
}

/// Tells the moments and counts of a dump, in one write. Behind an error some front of the line was written.
pub fn write_report<R: Sink>(alloc: Global, dump: DumpReport, report: &mut R) -> Result<(), Fault>
    ensures ok { OnOk result (Appends (R.end report.old).bytes (R.end report.new).bytes (report_line dump)) }
    ensures err { OnErr result (AppendsFront (R.end report.old).bytes (R.end report.new).bytes (report_line dump)) }
    ensures later { (R.end report.old).faults ≤ (R.end report.new).faults }
    ensures failed { IsErrOf result Fault.Failed → Rose (R.end report.old).faults (R.end report.new).faults }
{
    let line = report_line(alloc, dump)?;
    report.write(line.as_bytes())
}
