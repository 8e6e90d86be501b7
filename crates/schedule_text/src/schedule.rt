//! Schedules, and reading them.
ghost use Rattle.std.specs.Prelude.{◌≡◌, ◌++◌, OnOk};
ghost use Rattle.schedule_text.specs.Reading.{Gives, added, schedule_of};

use crate::fault::LineFault;
use crate::lines::first_line;
use crate::reader::LineReader;
use bson_value::List;
use schedule_model::Line;
use std::alloc::{AllocError, Global};

/// A line of a schedule, and its number in the text, from 1.
#[derive(Drop)]
pub struct NumberedLine {
    pub number: u32,
    pub line: Line,
}

/// What happens to a store and a dump of it, step by step.
#[derive(Drop)]
pub struct Schedule {
    /// The most entries that the oplog keeps, from 1 to 1,000,000.
    pub cap: usize,
    /// The most bytes of its entries, where that is bounded, from 1 to 1,073,741,824.
    pub bytes: Option<u64>,
    /// A committed transaction is one line, with the number of its `commit`.
    pub lines: List<NumberedLine>,
}

fn push(lines: &mut List<NumberedLine>, line: Option<NumberedLine>) -> Result<(), AllocError>
    ensures { OnOk result (lines.new ≡ lines.old ++ added line) }
{
    match line {
        Some(line) => lines.push(line),
        None => Ok(()),
    }
}

impl Schedule {
    /// The schedule that a text is, by the grammar of docs/schedule.md, or the first line that is none of
    /// a schedule.
    pub fn read(alloc: Global, text: &[u8]) -> Result<Schedule, LineFault>
        ensures { Gives (λ s. s) result (schedule_of text.now) }
    {
        let mut reader = LineReader::new();
        let mut lines = List::new(alloc);
        let mut rest = text;
        let mut number: u32 = 1;
        'lines: while !rest.is_empty() {
            let (line, behind) = first_line(rest);
            let read = reader.line(alloc, number, text.len() - behind.len(), line)?;
            push(&mut lines, read)?;
            number += 1;
            rest = behind;
        }
        Ok(Schedule {
            cap: reader.cap,
            bytes: reader.bytes,
            lines,
        })
    }
}
