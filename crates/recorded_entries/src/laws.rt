//! The laws of recorded entries.
ghost use Rattle.recorded_entries.specs.Laws.{GoodIsWritable, GoodIsReadBack, RecordedIsGood, RowsAreKept};

use entry_model::entry_reads_back;

/// The document of an entry whose parts are good is read as that entry.
pub fn good_entries()
    ensures writable { GoodIsWritable }
    ensures read { GoodIsReadBack }
{
    entry_reads_back();
}

/// All that is recorded of a schedule is good, and its collections have good names and keep good documents,
/// options and definitions.
pub fn recorded_is_good()
    ensures recorded { RecordedIsGood }
    ensures kept { RowsAreKept }
{}
