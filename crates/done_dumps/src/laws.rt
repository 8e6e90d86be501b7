//! The laws of dumps that are done. They speak of every schedule.
ghost use Rattle.done_dumps.specs.Laws.{QuietDumpsAreDone, PlainDumpsAreDone, DumpsStart, DoneDumpsAreMarked, UnmarkedDumpsEndLast, UnmarkedStatesAreLast, SourceMakesAll};

/// Where nothing is renamed and no entry leaves the oplog, neither a rename nor a lost Start ends the dump: it is done.
pub fn quiet_dumps_are_done()
    ensures { QuietDumpsAreDone }
{}

/// A line makes two entries at most, an insert that makes its collection among them. So the lines alone tell that no
/// entry leaves the oplog.
pub fn plain_dumps_are_done()
    ensures { PlainDumpsAreDone }
{}

/// Each dump starts, behind the last line where no line starts it, and has a last read from then on.
pub fn dumps_start()
    ensures { DumpsStart }
{}

/// A dump that is done was marked: its window has an end.
pub fn done_dumps_are_marked()
    ensures { DoneDumpsAreMarked }
{}

/// Where no line is a mark, the dump is marked behind the last line. The window ends at the newest entry, so the state
/// just before a limit, or at End, is that just before the limit.
pub fn unmarked_dumps_end_last()
    ensures last { UnmarkedDumpsEndLast }
    ensures states { UnmarkedStatesAreLast }
{}

/// With no limit a source makes all that the lines make.
pub fn source_makes_all()
    ensures { SourceMakesAll }
{}
