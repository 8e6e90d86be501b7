//! The law of recorded entries in a restore.
ghost use Rattle.restored_entries.specs.Laws.{GoodIsKept};

use restore_entries::cut_is_taken;

/// Of the entry of what is recorded a restore keeps, where the entry is before the limit, an entry that stands for
/// the moves that the filter takes; else it passes it over, as it does where the filter takes none.
pub fn good_is_kept()
    ensures { GoodIsKept }
{
    cut_is_taken();
}
