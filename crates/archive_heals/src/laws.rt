//! The laws of a dump's archive in a restore.
ghost use Rattle.archive_heals.specs.Laws.{ArchiveHeals, ArchiveIsTaken, FinishHeals};

use archive_base::base_is_copy;
use archive_entries::entries_are_taken;
use dump_content::takings_are;
use history_model::done_is_healed_before;
use metadata_again::kept_is_read_again;
use restored_entries::good_is_kept;
use state_model::{cut_is_replayed, same_is_shown_alike};

/// A restore of the archive of a dump whose outcome is Done makes the state just before its limit, or at End, of the
/// collections that its filter takes: up to the order of fields, so that a listing shows the same.
pub fn archive_heals()
    ensures { ArchiveHeals }
{
    base_is_copy();
    entries_are_taken();
    kept_is_read_again();
    cut_is_replayed();
    same_is_shown_alike();
}

/// So does [`restore_plan::Restore::finish`], whose state is that of what the restore holds: where that is the whole archive, it is the
/// state just before the limit.
pub fn finish_heals()
    ensures { FinishHeals }
{
    archive_heals();
}

/// And it refuses none of what the archive holds.
pub fn archive_is_taken()
    ensures { ArchiveIsTaken }
{
    takings_are();
    good_is_kept();
    done_is_healed_before();
    kept_is_read_again();
}
