//! The laws.
ghost use Rattle.archive_known.specs.Laws.{ArchiveHasContent, EntriesAreKnown};

use archive_content::written_is_content;
use dump_content::takings_are;
use history_model::{done_is_healed_before, history_is_recorded, window_has_no_rename};
use replayed_entries::good_moves;

/// What a dump writes whose outcome is Done is an archive, where it is no longer than an archive may be.
pub fn archive_has_content()
    ensures { ArchiveHasContent }
{
    written_is_content();
    done_is_healed_before();
}

/// No entry of it, as a restore keeps it, renames a collection or is a command that isn't known, alone or in a group.
pub fn entries_are_known()
    ensures { EntriesAreKnown }
{
    takings_are();
    done_is_healed_before();
    history_is_recorded();
    window_has_no_rename();
    good_moves();
}
