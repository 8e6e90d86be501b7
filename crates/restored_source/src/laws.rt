//! The laws of what is listed of a dump's archive.
ghost use Rattle.restored_source.specs.Laws.{SameAreListedAlike, ListsSource, ListsWholeSource, ListsWholeTransactions};

use archive_heals::archive_heals;
use history_model::done_is_healed_before;
use index_build::same_states;
use state_model::{cut_is_replayed, same_is_shown_alike};
use whole_transactions::at_is_whole;

/// States that are equal up to the order of fields have one listing.
pub fn same_are_listed_alike()
    ensures { SameAreListedAlike }
{
    same_states();
    same_is_shown_alike();
}

/// What is listed of a restored archive of a dump whose outcome is Done is the listing of the source just before the
/// limit, or at End: of the collections that the filter takes.
pub fn lists_source()
    ensures { ListsSource }
{
    archive_heals();
    done_is_healed_before();
    same_are_listed_alike();
}

/// And where the filter takes all names, the listing of the source.
pub fn lists_whole_source()
    ensures { ListsWholeSource }
{
    lists_source();
    cut_is_replayed();
    same_are_listed_alike();
}

/// It has all writes of a transaction that was committed, or none, but for what the filter doesn't take.
pub fn lists_whole_transactions()
    ensures { ListsWholeTransactions }
{
    lists_source();
    at_is_whole();
}
