//! The law of the entries of a dump's archive.
ghost use Rattle.archive_entries.specs.Laws.{EntriesAreTaken};

use dump_content::takings_are;
use restored_entries::good_is_kept;

/// A restore that replays, of the archive of a dump whose outcome is Done: what it replays are the moves of the entries
/// from Start to End that are before its limit and that its filter takes, in their order.
pub fn entries_are_taken()
    ensures { EntriesAreTaken }
{
    takings_are();
    good_is_kept();
}
