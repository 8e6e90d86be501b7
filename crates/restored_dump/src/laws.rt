//! The law.
ghost use Rattle.restored_dump.specs.Laws.{ArchiveRestores};

use archive_heals::{archive_heals, archive_is_taken};
use archive_known::{archive_has_content, entries_are_known};
use held_moments::{moments_are_faultless, taken_are_faultless};
use history_model::done_is_healed_before;
use index_build::same_states;

/// A restore that replays has no reason to fail on the archive of a dump whose outcome is Done: it is an archive, none of
/// its takings is refused, each entry is known, and the indexes of what is restored have no fault.
pub fn archive_restores()
    ensures { ArchiveRestores }
{
    archive_has_content();
    archive_is_taken();
    entries_are_known();
    archive_heals();
    done_is_healed_before();
    moments_are_faultless();
    taken_are_faultless();
    same_states();
}
