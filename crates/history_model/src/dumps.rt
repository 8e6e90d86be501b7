//! The laws of dumps that are made while writes go on. Each function does nothing, and its caller learns
//! the law. They speak of schedules of well-formed documents, as the types hold them.
ghost use Rattle.history_model.specs.Laws.{LinesAreRecorded, LinesLead, StepsReadCopy, LinesHeal, MarkedDumpHeals, RunIsLines, DoneIsWhole, DoneIsHealed, DoneIsHealedBefore};

use copy_model::copy_heals;
use state_model::{cut_is_replayed, same_is_shown_alike};
use update_records::updates_record;

/// Lines that make no rename are writes and steps of cursors. Each write is recorded, and they lead to the
/// rows that stand after them.
pub fn lines_are_events()
    ensures recorded { LinesAreRecorded }
    ensures lead { LinesLead }
{
    updates_record();
}

/// The steps of a dump read what the steps of cursors read, as long as the dump doesn't fail.
pub fn steps_read_copy()
    ensures { StepsReadCopy }
{
    updates_record();
}

/// A dump starts, and lines follow that make no rename and after which every cursor has ended. The entries
/// of the last writes before it and of all since, replayed over what was read, make the state.
pub fn lines_heal()
    ensures { LinesHeal }
{
    updates_record();
    copy_heals();
}

/// A dump starts, lines follow, and a mark succeeds. The entries of the window, from Start to End,
/// replayed over what was read, make the state at End.
pub fn marked_dump_heals()
    ensures { MarkedDumpHeals }
{
    updates_record();
    copy_heals();
}

/// The whole run of a schedule, with what is still to do behind its last line, is a list of lines behind
/// the start of its dump.
pub fn run_is_lines()
    ensures { RunIsLines }
{
    updates_record();
}

/// Where the outcome is Done, the dump was marked, and its window was sent to the end.
pub fn done_is_whole()
    ensures { DoneIsWhole }
{
    updates_record();
}

/// For every schedule whose outcome is Done: the entries of the window, replayed over what the dump read,
/// make the state at the mark, and all that was made since is later.
pub fn done_is_healed()
    ensures { DoneIsHealed }
{
    updates_record();
    copy_heals();
}

/// For every schedule whose outcome is Done: its moments, the rows at Start, and for each limit that is
/// later than LastRead, or none, that the entries of the window before it, replayed over what the dump
/// read, make the state just before the limit, or at End where that is earlier. What a filter takes of
/// them is listed as what it takes of that state.
pub fn done_is_healed_before()
    ensures { DoneIsHealedBefore }
{
    updates_record();
    copy_heals();
    cut_is_replayed();
    same_is_shown_alike();
}
