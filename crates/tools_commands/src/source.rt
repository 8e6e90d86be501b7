//! The source that a schedule makes, and its listing.
ghost use Rattle.std.specs.Prelude.{map as each};
ghost use Rattle.coll_state.specs.Rows.{state_of};
ghost use Rattle.state_listing.specs.Listing.{listing};
ghost use Rattle.schedule_report.specs.Lines.{refusals_text};
ghost use Rattle.schedule_source.specs.Progress.{refusal_in};
ghost use Rattle.tools_commands.specs.Ends.{turn};
ghost use Rattle.tools_commands.specs.SourceAnswers.{Lists, SourceSays};

use crate::status::Status;
use document_lines::ListForm;
use schedule_input::InputFault;
use schedule_source::{SourceRun, run_input};
use std::alloc::Global;
use store_listing::list_store;
use tool_io::{Fault, Sink, Source};
use tools_words::SourceOrder;

// Tells the lines that were refused, and lists what the others made.
fn list_run<K: Sink, R: Sink>(
    alloc: Global,
    form: ListForm,
    run: &SourceRun,
    output: &mut K,
    report: &mut R,
) -> Status
    ensures { Lists (listing form (state_of run.now.store.rows)) (refusals_text (each refusal_in run.now.refused)) result
        (turn (K.end output.old) (K.end output.new))
        (turn (R.end report.old) (R.end report.new)) }
{
    match run.tell(alloc, report) {
        Ok(()) => match list_store(alloc, &run.store, form, output) {
            Ok(()) => Status::Done,
            Err(Fault::Failed) => Status::WriteFault,
            Err(Fault::NoMemory) => Status::NoMemory,
        },
        Err(Fault::Failed) => Status::WriteFault,
        Err(Fault::NoMemory) => Status::NoMemory,
    }
}

/// Runs the commands of the schedule that the input is, up to the limit, tells each line that is refused up to there, and lists on
/// the output what they made. Each line is run as soon as it was read, and nothing is told before all were read.
pub fn list_source<S: Source, K: Sink, R: Sink>(
    alloc: Global,
    order: SourceOrder,
    input: &mut S,
    output: &mut K,
    report: &mut R,
) -> Status
    ensures { SourceSays order result
        (turn (S.end input.old) (S.end input.new))
        (turn (K.end output.old) (K.end output.new))
        (turn (R.end report.old) (R.end report.new)) }
{
    let SourceOrder { limit, form } = order;
    match run_input(alloc, input, limit) {
        Ok(run) => list_run(alloc, form, &run, output, report),
        Err(InputFault::Bad { line, kind }) => Status::BadSchedule { line, kind },
        Err(InputFault::ReadFault) => Status::ReadFault,
        Err(InputFault::NoMemory) => Status::NoMemory,
    }
}
