//! A schedule that is run as it is read.
ghost use Rattle.std.specs.Prelude.{◌≤◌, List, ℕ, Option, Some, IfOk, IfErr};
ghost use Rattle.schedule_input.specs.Inputs.{NextIsFurther};
ghost use Rattle.schedule_source.specs.Inputs.{FailsInput, FailsLater, RunsInput};
ghost use Rattle.schedule_source.specs.Reading.{Behind, IsUnread};

use crate::run::SourceRun;
use bson_value::Ts;
use history_model::source_is_before;
use schedule_input::{InputFault, InputLines};
use schedule_text::NumberedLine;
use std::alloc::Global;
use tool_io::Source;

// Reads the first line, since the caps are known behind it, and begins a run.
fn begin<S: Source>(
    alloc: Global,
    limit: Option<Ts>,
    lines: &mut InputLines,
    input: &mut S,
) -> Result<(SourceRun, Option<NumberedLine>), InputFault>
    requires unread { IsUnread lines.old }
    ensures behind { IfOk result (λ first. Behind limit (S.end input.old).bytes first.1 lines.new first.0 (S.end input.new).bytes) }
    ensures err { IfErr result (λ e. FailsInput e (S.end input.old) (S.end input.new)) }
    ensures later { (S.end input.old).faults ≤ (S.end input.new).faults }
{
    let next = lines.next(alloc, input)?;
    match SourceRun::new(alloc, lines.cap(), lines.bytes()) {
        Ok(run) => Ok((run, next)),
        Err(_) => {
            drop(next);
            Err(InputFault::NoMemory)
        }
    }
}

// Runs a line, and reads the next one.
fn advance<S: Source>(
    alloc: Global,
    limit: Option<Ts>,
    run: &mut SourceRun,
    line: NumberedLine,
    lines: &mut InputLines,
    input: &mut S,
) -> Result<Option<NumberedLine>, InputFault>
    ensures behind { IfOk result (λ next. (all : Option (List ℕ)) → Behind limit all (Some line) lines.old run.old (S.end input.old).bytes → Behind limit all next lines.new run.new (S.end input.new).bytes) }
    ensures err { IfErr result (λ e. (all : Option (List ℕ)) → Behind limit all (Some line) lines.old run.old (S.end input.old).bytes → FailsLater e all (S.end input.old).faults (S.end input.new).faults) }
    ensures further { IfOk result (λ next. NextIsFurther lines.old lines.new next) }
    ensures later { (S.end input.old).faults ≤ (S.end input.new).faults }
{
    let taken = run.take(&line, limit);
    drop(line);
    taken?;
    lines.next(alloc, input)
}

/// Runs the commands of a schedule up to the limit, each line as soon as it was read, and reads the input to its end, or as far as
/// tells that it is no schedule. Of the lines no more is held than the run holds, and of the text what `InputLines` holds.
pub fn run_input<S: Source>(
    alloc: Global,
    input: &mut S,
    limit: Option<Ts>,
) -> Result<SourceRun, InputFault>
    ensures runs { IfOk result (λ run. RunsInput limit run (S.end input.old).bytes (S.end input.new).bytes) }
    ensures err { IfErr result (λ e. FailsInput e (S.end input.old) (S.end input.new)) }
    ensures later { (S.end input.old).faults ≤ (S.end input.new).faults }
{
    source_is_before();
    let mut lines = InputLines::new(alloc)?;
    let (mut run, mut next) = begin(alloc, limit, &mut lines, input)?;
    'lines: while let Some(line) = next {
        next = advance(alloc, limit, &mut run, line, &mut lines, input)?;
    }
    Ok(run)
}
