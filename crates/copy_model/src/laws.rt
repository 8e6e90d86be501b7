//! The laws of copies that are read while writes go on. Each function does nothing, and its caller learns
//! the law.
ghost use Rattle.copy_model.specs.Laws.{WritesAreRecorded, RowsChangeAsStates, RowsStaySound, DifferencesAreCovered, CopyAgrees, CopyHeals, CutCopyHeals, BlocksMakeCopy};

use state_model::{
    cut_is_replayed, made_moves, moves_change_what_they_cover, moves_cover_all_below,
    same_is_shown_alike, window_heals,
};

/// The moves of a write's entry record it on the state before it. What a write makes of rows is what it
/// makes of their state, and leaves them sound.
pub fn writes_are_recorded()
    ensures recorded { WritesAreRecorded }
    ensures rows { RowsChangeAsStates }
    ensures sound { RowsStaySound }
{
    moves_change_what_they_cover();
    made_moves();
}

/// At each moment of a copy, the rows and what was read differ from the state before the first writes at
/// covered places alone. A document of that state that isn't covered was read, or it waits behind the
/// position of its open cursor.
pub fn differences_are_covered()
    ensures { DifferencesAreCovered }
{
    moves_change_what_they_cover();
    made_moves();
}

/// Once every cursor has ended, the copy differs from the state before the first writes at covered places
/// alone. The moves of all writes, replayed over it, make the state that stands then, and what a filter
/// takes of them makes what it takes of that state.
pub fn copy_heals()
    ensures agrees { CopyAgrees }
    ensures heals { CopyHeals }
    ensures cut { CutCopyHeals }
{
    moves_change_what_they_cover();
    made_moves();
    moves_cover_all_below();
    window_heals();
    cut_is_replayed();
    same_is_shown_alike();
}

/// The documents and ends of blocks, taken one after the other over a copy, make the copy that read these
/// documents too.
pub fn blocks_make_copy()
    ensures { BlocksMakeCopy }
{}
