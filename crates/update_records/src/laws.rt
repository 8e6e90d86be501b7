//! The laws of updates that are recorded.
ghost use Rattle.update_records.specs.Laws.{UpdatesRecord, UpdatesStayWellFormed};

use bson_check::spelled_once;
use bson_encode::spelling_spells;
use delta_laws::delta_is_read;
use entry_model::written_is_document;

/// What is recorded of an accepted update, in either form, records it, and none of its touches is left at once when they
/// are played; where no touches are, the whole document is recorded. The document and the operators are well-formed.
pub fn updates_record()
    ensures { UpdatesRecord }
{
    spelling_spells();
    spelled_once();
    written_is_document();
    delta_is_read();
}

/// An accepted update of a well-formed document by well-formed operators leaves a well-formed document.
pub fn updates_stay_well_formed()
    ensures { UpdatesStayWellFormed }
{}
