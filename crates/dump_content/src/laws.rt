//! The law of the takings of a dump's archive.
ghost use Rattle.dump_content.specs.Laws.{TakingsAre};

use archive_content::written_is_content;
use archive_format::content_or_fault;
use history_model::done_is_healed_before;

/// The takings of the archive that a dump writes whose outcome is Done: the metadata of the collections at its start,
/// by name, and then in the order of its steps the documents and entries that they read and sent, and the ends.
pub fn takings_are()
    ensures { TakingsAre }
{
    written_is_content();
    content_or_fault();
    done_is_healed_before();
}
