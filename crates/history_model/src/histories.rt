//! The laws of histories. Each function does nothing, and its caller learns the law. They speak of schedules of
//! well-formed documents, as the types hold them.
ghost use Rattle.history_model.specs.Laws.{HistoryIsRecorded, TimestampsRise, StateIsHistory, OplogIsKept, OplogIsRing, IndexesAreKept, SourceIsBefore, WindowHasNoRename, RunsStayOk, WindowStands, TailsSendKept};

use update_records::updates_record;

/// Each write of a schedule is recorded by its entry on the rows before it, those of a transaction one
/// after the other.
pub fn history_is_recorded()
    ensures { HistoryIsRecorded }
{
    updates_record();
}

/// The timestamps of a history rise strictly.
pub fn timestamps_rise()
    ensures { TimestampsRise }
{
    updates_record();
}

/// The state of the rows that stand is that of the history.
pub fn state_is_history()
    ensures { StateIsHistory }
{
    updates_record();
}

/// The oplog has of all entries those that the caps allow: the longest end of them that has at most so many
/// entries and, where it has more than one, at most so many bytes.
pub fn oplog_is_kept()
    ensures kept { OplogIsKept }
    ensures ring { OplogIsRing }
{
    updates_record();
}

/// The indexes of all collections hold: a unique index has no key of two documents, and in no document two
/// fields of an index meet an array.
pub fn indexes_are_kept()
    ensures { IndexesAreKept }
{}

/// What is made of the commands up to a limit makes the state just before the limit.
pub fn source_is_before()
    ensures { SourceIsBefore }
{}

/// From Start to End no rename is made.
pub fn window_has_no_rename()
    ensures { WindowHasNoRename }
{
    updates_record();
}

/// While the entry at Start isn't gone, no entry of the window is. A tail step that doesn't fail sends
/// entries that stand. What holds of a run holds after more lines.
pub fn window_stands()
    ensures stands { WindowStands }
    ensures sends { TailsSendKept }
    ensures reached { RunsStayOk }
{
    updates_record();
}
