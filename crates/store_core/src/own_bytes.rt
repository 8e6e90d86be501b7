//! The spelling of a document that is put, in bytes of its own.
ghost use Rattle.std.specs.Prelude.{◌≡◌, ◌<◌, ◌^◌, IfOk, OnOk, OnErr, is_some, true};
ghost use Rattle.bson_value.specs.Spelling.{document_text};
ghost use Rattle.coll_state.specs.Changes.{put};
ghost use Rattle.coll_state.specs.Kept.{is_short};
ghost use Rattle.coll_state.specs.Rows.{id_of};
ghost use Rattle.store_core.specs.Spellings.{IsSpellingOf};

use bson_check::faultless_if_spelled;
use bson_encode::{encode, spelling_spells};
use bson_value::{Bytes, Doc, NsName};
use bson_view::{DocumentBytes, one_document};
use coll_state::State;
use std::alloc::{AllocError, Global};

// The bytes of a document, which are its spelling.
fn document_bytes(bytes: Bytes, doc: &Doc) -> DocumentBytes
    requires spelling { bytes ≡ document_text doc.now }
    requires short { is_short doc.now ≡ true }
    ensures { IsSpellingOf result doc.now }
{
    doc.is_well_formed();
    spelling_spells();
    faultless_if_spelled();
    one_document();
    DocumentBytes::of_checked(bytes)
}

/// The spelling of a document.
pub(crate) fn spelling_of(alloc: Global, doc: &Doc) -> Result<DocumentBytes, AllocError>
    requires { is_short doc.now ≡ true }
    ensures { IfOk result (λ b. IsSpellingOf b doc.now) }
{
    let bytes = encode(alloc, doc)?;
    Ok(document_bytes(bytes, doc))
}

/// Puts the document, which is kept as this spelling.
pub(crate) fn put_spelled(
    alloc: Global,
    state: &mut State,
    ns: &NsName,
    doc: &Doc,
    spelling: DocumentBytes,
) -> Result<(), AllocError>
    requires id { is_some (id_of doc.now) ≡ true }
    requires spelling { IsSpellingOf spelling doc.now }
    requires short { is_short doc.now ≡ true }
    requires count { state.old.count < 2 ^ 127 }
    ensures ok { OnOk result (state.new ≡ put ns.now doc.now state.old) }
    ensures err { OnErr result (state.new ≡ state.old) }
{
    state.put_spelling(alloc, ns, spelling)
}
