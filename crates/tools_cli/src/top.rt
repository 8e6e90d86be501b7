//! The whole call.
ghost use Rattle.std.specs.Prelude.{◌≤◌, Ok};
ghost use Rattle.drill_run.specs.Drills.{drill_line};
ghost use Rattle.tools_words.specs.Laws.{MayRun};
ghost use Rattle.tools_words.specs.Words.{meaning_of, texts_of};
ghost use Rattle.tools_commands.specs.Ends.{turn};
ghost use Rattle.tools_cli.specs.ShowAnswers.{Shown};
ghost use Rattle.tools_cli.specs.Answers.{Says, Answers};
ghost use Rattle.tools_cli.specs.Headline.{ListsDump, ListsWholeTransactions, CompletesDump};

use crate::texts::{HELP, VERSION};
use archive_length::archives_are_short;
use drill_run::drill;
use restore_filter::names_stay;
use restored_dump::archive_restores;
use restored_source::lists_source;
use schedule_bounds::read_is_dumped;
use std::alloc::Global;
use tool_io::{Fault, Sink, Source};
use tools_commands::{Status, dump_source, list_archive, list_source, tell};
use tools_words::{Order, WordsFault, read_words, rounds_are_few};
use whole_transactions::at_is_whole;

// Writes a text that the command shows.
fn show<K: Sink>(text: &str, output: &mut K) -> Status
    ensures { Shown text.now result (turn (K.end output.old) (K.end output.new)) }
{
    match output.write(text.as_bytes()) {
        Ok(()) => Status::Done,
        Err(Fault::Failed) => Status::WriteFault,
        Err(Fault::NoMemory) => Status::NoMemory,
    }
}

// Writes the line of a drill.
fn show_drill<K: Sink>(alloc: Global, n: u32, output: &mut K) -> Status
    requires least { 1 ≤ n }
    requires most { n ≤ 100000 }
    ensures { Shown (drill_line n) result (turn (K.end output.old) (K.end output.new)) }
{
    match drill(alloc, n, output) {
        Ok(()) => Status::Done,
        Err(Fault::Failed) => Status::WriteFault,
        Err(Fault::NoMemory) => Status::NoMemory,
    }
}

// What the command does, without its line on the report.
fn perform<S: Source, K: Sink, R: Sink>(
    alloc: Global,
    order: Order,
    input: &mut S,
    output: &mut K,
    report: &mut R,
) -> Status
    requires { MayRun order }
    ensures { Says (Ok order) result
        (turn (S.end input.old) (S.end input.new))
        (turn (K.end output.old) (K.end output.new))
        (turn (R.end report.old) (R.end report.new)) }
{
    match order {
        Order::Source(order) => list_source(alloc, order, input, output, report),
        Order::Dump => dump_source(alloc, input, output, report),
        Order::Restore(order) => list_archive(alloc, order, input, output),
        Order::Drill { rounds } => show_drill(alloc, rounds, output),
        Order::Help => show(HELP, output),
        Order::Version => show(VERSION, output),
    }
}

// The whole call, without its line on the report.
fn run<S: Source, K: Sink, R: Sink>(
    alloc: Global,
    words: &[String],
    input: &mut S,
    output: &mut K,
    report: &mut R,
) -> Status
    ensures { Says (meaning_of (texts_of words.now)) result
        (turn (S.end input.old) (S.end input.new))
        (turn (K.end output.old) (K.end output.new))
        (turn (R.end report.old) (R.end report.new)) }
{
    rounds_are_few();
    match read_words(alloc, words) {
        Ok(order) => perform(alloc, order, input, output, report),
        Err(WordsFault::Usage { word }) => Status::Usage { word },
        Err(WordsFault::NoMemory) => Status::NoMemory,
    }
}

// The whole call, and what it comes to by the words.
fn answer<S: Source, K: Sink, R: Sink>(
    alloc: Global,
    words: &[String],
    input: &mut S,
    output: &mut K,
    report: &mut R,
) -> u8
    ensures { Answers (meaning_of (texts_of words.now)) result
        (turn (S.end input.old) (S.end input.new))
        (turn (K.end output.old) (K.end output.new))
        (turn (R.end report.old) (R.end report.new)) }
{
    let status = run(alloc, words, input, output, report);
    tell(alloc, status, report).code()
}

/// All that the program does: reads the input, writes the output, tells a line on the report where the status isn't 0, and
/// answers the status. Of a restore of the archive of a dump that is done, replaying up to a limit later than the copy's last
/// read or to the end: where the status is 0, the output is the listing of the source just before the limit, or at the copy's
/// end where that is earlier, in which each transaction stands whole or not at all; and the status is 0, or that of missing
/// memory, as long as the input and the output don't fail.
pub fn tools<S: Source, K: Sink, R: Sink>(
    alloc: Global,
    words: &[String],
    input: &mut S,
    output: &mut K,
    report: &mut R,
) -> u8
    ensures answers { Answers (meaning_of (texts_of words.now)) result
        (turn (S.end input.old) (S.end input.new))
        (turn (K.end output.old) (K.end output.new))
        (turn (R.end report.old) (R.end report.new)) }
    ensures lists { ListsDump (texts_of words.now) result
        (turn (S.end input.old) (S.end input.new))
        (turn (K.end output.old) (K.end output.new)) }
    ensures transactions { ListsWholeTransactions (texts_of words.now) result
        (turn (S.end input.old) (S.end input.new))
        (turn (K.end output.old) (K.end output.new)) }
    ensures complete { CompletesDump (texts_of words.now) result
        (turn (S.end input.old) (S.end input.new))
        (turn (K.end output.old) (K.end output.new)) }
{
    lists_source();
    archive_restores();
    read_is_dumped();
    archives_are_short();
    names_stay();
    at_is_whole();
    answer(alloc, words, input, output, report)
}
