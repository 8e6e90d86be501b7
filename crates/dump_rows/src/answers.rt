//! What calls answer, as texts. Want of memory ends in an error.
ghost use Rattle.std.specs.Prelude.{◌≡◌, ◌++◌, IfOk, OnOk, string_bytes};
ghost use Rattle.std.specs.Fmt.{decimal};
ghost use Rattle.schedule_report.specs.Lines.{ts_text};
ghost use Rattle.dump_rows.specs.Rows.{command_text, fault_text, finish_text, step_text};

use anyhow::Result;
use bson_value::Ts;
use dump_run::{DumpFault, DumpReport};
use schedule_report::LineRefusal;
use std::alloc::{AllocError, Global};
use std::fmt::Write;
use store_core::StoreFault;

/// A number.
pub fn count(alloc: Global, number: u64) -> Result<String>
    ensures { IfOk result (λ t. string_bytes t ≡ decimal number) }
{
    let mut text = String::new(alloc);
    write!(text, "{number}")?;
    Ok(text)
}

fn put_ts(out: &mut String, ts: Ts) -> Result<()>
    ensures { OnOk result (string_bytes out.new ≡ string_bytes out.old ++ ts_text ts) }
{
    let secs = ts.secs;
    let inc = ts.inc;
    Ok(write!(out, "{secs}:{inc}")?)
}

fn renamed(alloc: Global, ts: Ts) -> Result<String>
    ensures { IfOk result (λ t. string_bytes t ≡ fault_text (DumpFault.Renamed ts)) }
{
    let mut text = String::from_str(alloc, "Renamed ")?;
    put_ts(&mut text, ts)?;
    Ok(text)
}

fn rolled(alloc: Global, start: Ts, oldest: Ts) -> Result<String>
    ensures { IfOk result (λ t. string_bytes t ≡ fault_text (DumpFault.Rolled start oldest)) }
{
    let mut text = String::from_str(alloc, "Rolled ")?;
    put_ts(&mut text, start)?;
    text.push_str(" ")?;
    put_ts(&mut text, oldest)?;
    Ok(text)
}

fn fault(alloc: Global, fault: DumpFault) -> Result<String>
    ensures { IfOk result (λ t. string_bytes t ≡ fault_text fault) }
{
    match fault {
        DumpFault::NotNow => Ok(String::from_str(alloc, "NotNow")?),
        DumpFault::NoCursor => Ok(String::from_str(alloc, "NoCursor")?),
        DumpFault::Renamed { ts } => renamed(alloc, ts),
        DumpFault::Rolled { start, oldest } => rolled(alloc, start, oldest),
        DumpFault::WriteFault => Ok(String::from_str(alloc, "WriteFault")?),
        DumpFault::NoMemory => Err(AllocError)?,
    }
}

/// How many entries a command records, or why it is refused.
pub fn command(alloc: Global, answer: std::result::Result<u32, StoreFault>) -> Result<String>
    ensures { IfOk result (λ t. string_bytes t ≡ command_text answer) }
{
    match answer {
        Ok(entries) => count(alloc, entries as u64),
        Err(StoreFault::Refused(row)) => {
            Ok(String::from_str(alloc, LineRefusal::NotTaken(row).name())?)
        }
        Err(StoreFault::NoMemory) => Err(AllocError)?,
    }
}

/// Whether a step of a dump is done.
pub fn step(alloc: Global, answer: std::result::Result<(), DumpFault>) -> Result<String>
    ensures { IfOk result (λ t. string_bytes t ≡ step_text answer) }
{
    match answer {
        Ok(()) => Ok(String::from_str(alloc, "done")?),
        Err(why) => fault(alloc, why),
    }
}

/// What a dump has written at its end.
pub fn finish(alloc: Global, answer: std::result::Result<DumpReport, DumpFault>) -> Result<String>
    ensures { IfOk result (λ t. string_bytes t ≡ finish_text answer) }
{
    match answer {
        Ok(report) => {
            let documents = report.documents;
            let entries = report.entries;
            let mut text = String::new(alloc);
            write!(text, "{documents} documents {entries} entries")?;
            Ok(text)
        }
        Err(why) => fault(alloc, why),
    }
}
