//! Documents as they are kept.
ghost use Rattle.std.specs.Prelude.{◌≡◌, ◌↔◌, IfOk, IsTrue, true};
ghost use Rattle.bson_value.specs.Spelling.{document_text};
ghost use Rattle.bson_view.specs.Kept.{kept_bytes, kept_document};
ghost use Rattle.bson_encode.specs.Key.{key_of};
ghost use Rattle.bson_view.specs.Views.{elem_value};
ghost use Rattle.coll_state.specs.Kept.{shown, shown_in, is_short};
ghost use Rattle.coll_state.specs.Rows.{key_in, id_of};

use bson_check::{DecodeFault, MAX_DOCUMENT_BYTES, MAX_LEVELS, faultless_if_spelled, spelled_once};
use bson_core::decode;
use bson_encode::encode;
use bson_spelling::is_spelling;
use bson_value::{Doc, type_byte};
use bson_view::{DocumentBytes, Elem, Held, one_document};
use std::alloc::{AllocError, Global};
use std::marker::Model;

/// A document is kept as its spelling where that has at most so many bytes.
pub const MAX_KEPT_BYTES: usize = 16777216;

/// A document is kept as its spelling where it has at most so many levels.
pub const MAX_KEPT_LEVELS: usize = 100;

#[derive(Drop)]
pub(crate) enum Form {
    Spelled(DocumentBytes),
    Built(Doc),
}

/// A document: its spelling where that is short, and else the document itself.
#[derive(Drop)]
pub(crate) struct KeptDocument {
    form: Form,
}

impl Model for KeptDocument {
    ghost use Rattle.std.specs.Prelude.{List, ℕ};
    ghost use Rattle.bson_value.specs.declared.value.Value.{Value as Datum};
    ghost use Rattle.std.specs.Coded.{coded_list, coded×, coded_ℕ};
    ghost use Rattle.bson_value.specs.contracts.value.Value as value;

    ghost Value = { List (List ℕ × Datum) };

    ghost coded = { coded_list (coded× (coded_list coded_ℕ) value.the_row.coded) };

    ghost use Rattle.coll_state.specs.Kept.{document_kept, IsKept};

    ghost view = { λ k. document_kept k.form };

    ghost invariant = { λ k. IsKept k.form };
}

// Whether a document is kept as its spelling.
fn is_short(doc: &Doc) -> bool
    ensures { result ≡ is_short doc.now }
{
    doc.fits(MAX_KEPT_BYTES, MAX_KEPT_LEVELS)
}

impl KeptDocument {
    /// The document, in its form.
    pub(crate) fn of(alloc: Global, doc: Doc) -> Result<KeptDocument, AllocError>
        ensures { IfOk result (λ k. k ≡ doc) }
    {
        if !is_short(&doc) {
            return Ok(KeptDocument {
                form: Form::Built(doc),
            });
        }
        let bytes = encode(alloc, &doc)?;
        faultless_if_spelled();
        one_document();
        Ok(KeptDocument {
            form: Form::Spelled(DocumentBytes::of_checked(bytes)),
        })
    }

    /// The document where it lies.
    pub(crate) fn look(&self) -> Held<'_>
        ensures { shown_in result ≡ shown self.now }
    {
        match &self.form {
            Form::Spelled(bytes) => Held::Spelled(bytes.view()),
            Form::Built(doc) => Held::Built(doc),
        }
    }
}

// Whether the key is that of this `_id`, a number or an identifier. Of any other it says no.
fn is_key_of(key: &[u8], id: &Elem<'_>) -> bool
    ensures { result ≡ true → key_of (elem_value id.now) ≡ key.now }
{
    id.spells();
    match id.tag {
        type_byte::DOUBLE | type_byte::OBJECT_ID | type_byte::INT32 | type_byte::INT64 =>
            match key.split_first() {
                Some((tag, rest)) => *tag == id.tag && rest == id.value,
                None => false,
            },
        _ => false,
    }
}

impl KeptDocument {
    /// Whether the key is that of its `_id`. It says so of spelled documents whose `_id` is a number or an identifier; of any other it
    /// says no.
    pub(crate) fn is_under(&self, key: &[u8]) -> bool
        ensures { result ≡ true → key_in (id_of self.now) ≡ key.now }
    {
        match &self.form {
            Form::Spelled(bytes) => match bytes.view().field("_id") {
                Some(id) => is_key_of(key, &id),
                None => false,
            },
            Form::Built(_) => false,
        }
    }
}

impl KeptDocument {
    /// A copy of the document, in memory of its own.
    pub(crate) fn to_doc(&self, alloc: Global) -> Result<Doc, AllocError>
        ensures { IfOk result (λ doc. doc ≡ self.now) }
    {
        match &self.form {
            Form::Spelled(bytes) => decoded(alloc, bytes),
            Form::Built(doc) => doc.copy(alloc),
        }
    }
}

// Whether the bytes are the spelling of a document that is kept as its spelling.
fn is_short_spelling(bytes: &DocumentBytes) -> bool
    ensures { IsTrue result ↔ (kept_bytes bytes.now ≡ document_text (kept_document bytes.now)) × (is_short (kept_document bytes.now) ≡ true) }
{
    let view = bytes.view();
    if view.bytes().len() > MAX_KEPT_BYTES {
        return false;
    }
    is_spelling(&view, MAX_KEPT_LEVELS)
}

impl KeptDocument {
    /// The short document of which these bytes are the spelling.
    pub(crate) fn of_spelling(bytes: DocumentBytes) -> KeptDocument
        requires spelling { kept_bytes bytes ≡ document_text (kept_document bytes) }
        requires short { is_short (kept_document bytes) ≡ true }
        ensures { result ≡ kept_document bytes }
    {
        KeptDocument {
            form: Form::Spelled(bytes),
        }
    }

    /// The document that these bytes spell. They are kept as they lie where they are its spelling.
    pub(crate) fn of_bytes(alloc: Global, bytes: DocumentBytes) -> Result<KeptDocument, AllocError>
        ensures { IfOk result (λ k. k ≡ kept_document bytes) }
    {
        if is_short_spelling(&bytes) {
            return Ok(KeptDocument::of_spelling(bytes));
        }
        let doc = decoded(alloc, &bytes)?;
        KeptDocument::of(alloc, doc)
    }
}

/// The document that the bytes spell.
pub(crate) fn decoded(alloc: Global, bytes: &DocumentBytes) -> Result<Doc, AllocError>
    ensures { IfOk result (λ doc. doc ≡ kept_document bytes.now) }
{
    spelled_once();
    match decode(alloc, bytes.as_slice(), MAX_DOCUMENT_BYTES, MAX_LEVELS) {
        Ok(doc) => Ok(doc),
        Err(DecodeFault::NoMemory) => Err(AllocError),
        Err(DecodeFault::Bad(_)) => unreachable!(),
    }
}
