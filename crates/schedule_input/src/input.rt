//! Reading an input as a schedule.
ghost use Rattle.std.specs.Prelude.{◌≤◌, IfOk};
ghost use Rattle.schedule_input.specs.Inputs.{Reads};

use crate::fault::InputFault;
use crate::lines::InputLines;
use bson_value::List;
use schedule_text::Schedule;
use std::alloc::Global;
use tool_io::Source;

/// Reads a schedule from the input, to its end, or as far as tells that it is none: no more than 67,108,865 bytes. Its lines are
/// held, and of the text no more than `InputLines` holds.
pub fn read_schedule<S: Source>(alloc: Global, input: &mut S) -> Result<Schedule, InputFault>
    ensures reads { Reads result (S.end input.old) (S.end input.new) }
    ensures caps { IfOk result (λ s. (1 ≤ s.cap) × (s.cap ≤ 1000000)) }
    ensures later { (S.end input.old).faults ≤ (S.end input.new).faults }
{
    let mut read = InputLines::new(alloc)?;
    let mut lines = List::new(alloc);
    'lines: while let Some(line) = read.next(alloc, input)? {
        lines.push(line)?;
    }
    Ok(Schedule {
        cap: read.cap(),
        bytes: read.bytes(),
        lines,
    })
}
