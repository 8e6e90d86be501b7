//! Words of a row, and answers.
ghost use Rattle.std.specs.Prelude.{◌≡◌, [], IfOk, string_bytes};
ghost use Rattle.archive_rows.specs.Rows.{own_namespace, written_text};

use anyhow::Result;
use bson_value::{NsName, Text};
use row_script::digits;
use std::alloc::{AllocError, Global};
use tool_io::{Fault, MemSink};

/// The numbers of a list with commas; a dash is the empty list.
pub fn numbers(alloc: Global, text: &str) -> Result<Vec<u64>> {
    let mut numbers = Vec::new(alloc);
    if text == "-" {
        return Ok(numbers);
    }
    for word in text.split(',') {
        let number = word.parse::<u64>()?;
        numbers.push(number)?;
    }
    Ok(numbers)
}

/// The namespace `a.b`.
pub fn own_namespace(alloc: Global) -> Result<NsName, AllocError>
    ensures { IfOk result (λ ns. ns ≡ own_namespace) }
{
    let db = Text::of(alloc, "a")?;
    let coll = Text::of(alloc, "b")?;
    Ok(NsName { db, coll })
}

/// A sink whose calls of these numbers fail.
pub fn failing(alloc: Global, calls: &str) -> Result<MemSink>
    ensures { IfOk result (λ sink. sink.written ≡ []) }
{
    let calls = numbers(alloc, calls)?;
    Ok(MemSink::new(alloc, calls))
}

/// What was written, and whether there was a fault.
pub fn written(alloc: Global, answer: Result<(), Fault>, sink: &MemSink) -> Result<String>
    ensures { IfOk result (λ text. string_bytes text ≡ written_text answer sink.now.written) }
{
    let bytes = digits(alloc, sink.written())?;
    match answer {
        Ok(()) => Ok(bytes),
        Err(Fault::Failed) => Ok(format!(in alloc; "fault behind {bytes}")?),
        Err(Fault::NoMemory) => Err(AllocError)?,
    }
}
