//! Documents to be stored.
ghost use Rattle.std.specs.Prelude.{◌≡◌, ◌≤◌, ◌∷◌, List, ℕ, Some, IfOk, is_some, length, true, false};
ghost use Rattle.bson_value.specs.declared.value.Value.{Value as Datum};
ghost use Rattle.bson_value.specs.Spelling.{spelled, document_text};
ghost use Rattle.containers.specs.Entries.{IsAbsent, names_of};
ghost use Rattle.doc_path.specs.Played.{id_name};
ghost use Rattle.coll_state.specs.Rows.{id_of};
ghost use Rattle.history_model.specs.Documents.{id_first, is_good_id, is_good_document};

use bson_encode::type_of;
use bson_value::{CText, Doc, Value, type_byte};
use std::alloc::{AllocError, Global};

/// A document has at most so many bytes.
const BYTE_LIMIT: usize = 16_777_216;

/// A document has at most so many levels.
const LEVEL_LIMIT: usize = 100;

/// The value of an `_id` has at most so many bytes.
const ID_LIMIT: usize = 1024;

fn is_good_value(id: &Value) -> bool
    requires { length (spelled id.now) ≤ 16777216 }
    ensures { result ≡ is_good_id (Some id.now) }
{
    if id.spelling_len() > ID_LIMIT {
        return false;
    }
    !matches!(
        type_of(id),
        type_byte::ARRAY | type_byte::UNDEFINED | type_byte::REGEX
    )
}

fn is_good_id(doc: &Doc) -> bool
    requires { length (document_text doc.now) ≤ 16777216 }
    ensures { result ≡ is_good_id (id_of doc.now) }
{
    match doc.get("_id") {
        Some(id) => is_good_value(id),
        None => false,
    }
}

/// Whether a document may be stored: it has an `_id` that is no array, no regular expression and not
/// undefined, and whose value has at most 1,024 bytes, and it has at most 16,777,216 bytes and 100 levels.
/// It takes no memory.
pub fn is_good_document(doc: &Doc) -> bool
    ensures { result ≡ is_good_document doc.now }
{
    doc.fits(BYTE_LIMIT, LEVEL_LIMIT) && is_good_id(doc)
}

// The name `_id`.
fn id_name(alloc: Global) -> Result<CText, AllocError>
    ensures { IfOk result (λ name. name ≡ id_name) }
{
    CText::of_text(alloc, "_id")
}

fn moved_first(name: CText, id: Value, doc: Doc) -> Result<Doc, AllocError>
    requires { IsAbsent name (names_of doc) }
    ensures { IfOk result (λ d. d ≡ (name, id) ∷ doc) }
{
    let mut doc = doc;
    doc.add_first(name, id)?;
    Ok(doc)
}

/// Whether its first field is `_id`: then it is kept as it stands. It takes no memory.
pub fn begins_with_id(doc: &Doc) -> bool
    ensures there { result ≡ true → is_some (id_of doc.now) ≡ true }
    ensures first { result ≡ true → id_first doc.now ≡ doc.now }
    ensures no { result ≡ false → (id : Datum) → (others : List (List ℕ × Datum)) → doc.now ≡ (id_name, id) ∷ others → ⊥ }
{
    match doc.entries().first() {
        Some((name, _)) => name.as_str() == "_id",
        None => false,
    }
}

/// A copy of the document with its `_id` first.
pub fn id_first(alloc: Global, doc: &Doc) -> Result<Doc, AllocError>
    ensures { IfOk result (λ d. d ≡ id_first doc.now) }
{
    let mut copy = doc.copy(alloc)?;
    if begins_with_id(doc) || doc.get("_id").is_none() {
        return Ok(copy);
    }
    let name = id_name(alloc)?;
    match copy.remove("_id") {
        Some(id) => moved_first(name, id, copy),
        None => Ok(copy),
    }
}
