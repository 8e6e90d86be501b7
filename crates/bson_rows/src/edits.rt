//! Edits of a document's fields.
ghost use Rattle.std.specs.Prelude.{◌≡◌, ◌∷◌, ◌++◌, Some, ℕ, List, IfOk, OnOk, codes, length, remove, slice_get, string_bytes};
ghost use Rattle.std.specs.Fmt.{decimal};
ghost use Rattle.hex.specs.Hex.{encode_lower};
ghost use Rattle.containers.specs.Entries.{AreDistinct, names_of, put};
ghost use Rattle.bson_value.specs.declared.value.Value.{Value as Datum};
ghost use Rattle.bson_encode.specs.Key.{key_of};
ghost use Rattle.row_script.specs.Rows.{before_blank, behind_blank};
ghost use Rattle.bson_rows.specs.Rows.{Document, IsFirst, Write, digits_of};

use crate::texts::{joined, spelled, written};
use anyhow::Result;
use bson_encode::put_key;
use bson_value::{CText, Doc, Fields, Value};
use row_script::{digits, refused, words};
use std::alloc::Global;

/// The first field of the document that the digits write.
#[tactic(auto, unfolding(crate::specs::Rows::IsFirst))]
pub fn first_field(alloc: Global, text: &str) -> Result<(CText, Value)>
    ensures { IfOk result (λ field. IsFirst text.now field) }
{
    let mut doc = written(alloc, text)?;
    if doc.len() == 0 {
        return refused("no field");
    }
    Ok(doc.take(0))
}

/// The value of the first field of the document that the digits write.
pub fn first_value(alloc: Global, text: &str) -> Result<Value>
    ensures { IfOk result (λ value. (name : List ℕ) × IsFirst text.now (name, value)) }
{
    let (name, value) = first_field(alloc, text)?;
    drop(name);
    Ok(value)
}

// Puts a field in front, whose name isn't there.
fn add_first(doc: &mut Doc, field: (CText, Value)) -> Result<()>
    ensures { OnOk result (doc.new ≡ field ∷ doc.old) }
{
    let (name, value) = field;
    if doc.place(name.as_str()).is_some() {
        drop(name);
        drop(value);
        return refused("the name is there");
    }
    Ok(doc.add_first(name, value)?)
}

/// A document with a field more in front.
pub fn put_first(alloc: Global, text: &str) -> Result<String>
    ensures { IfOk result (λ answer. (doc : Document) × (field : List ℕ × Datum) × Write (before_blank text.now) doc
        × IsFirst (behind_blank text.now) field × (string_bytes answer ≡ digits_of (field ∷ doc))) }
{
    let (doc, field) = words(text)?;
    let mut doc = written(alloc, doc)?;
    add_first(&mut doc, first_field(alloc, field)?)?;
    spelled(alloc, &doc)
}

fn set_field(doc: &mut Doc, alloc: Global, field: (CText, Value)) -> Result<()>
    ensures { OnOk result (doc.new ≡ put field.0 field.1 doc.old) }
{
    let (name, value) = field;
    Ok(doc.set_by_name(alloc, name.as_str(), value)?)
}

/// A document with a field set by its name.
pub fn set(alloc: Global, text: &str) -> Result<String>
    ensures { IfOk result (λ answer. (doc : Document) × (field : List ℕ × Datum) × Write (before_blank text.now) doc
        × IsFirst (behind_blank text.now) field × (string_bytes answer ≡ digits_of (put field.0 field.1 doc))) }
{
    let (doc, field) = words(text)?;
    let mut doc = written(alloc, doc)?;
    set_field(&mut doc, alloc, first_field(alloc, field)?)?;
    spelled(alloc, &doc)
}

fn key_of(alloc: Global, value: &Value) -> Result<String>
    ensures { IfOk result (λ key. string_bytes key ≡ encode_lower (key_of value.now)) }
{
    let mut key = Vec::new(alloc);
    put_key(&mut key, value)?;
    digits(alloc, key.as_slice())
}

// The name and the key of a field, and the rest of its document.
fn field_text(alloc: Global, name: &CText, value: &Value, rest: &Doc) -> Result<String>
    ensures { IfOk result (λ answer. string_bytes answer
        ≡ name.now ++ codes " " ++ encode_lower (key_of value.now) ++ codes " " ++ digits_of rest.now) }
{
    let key = key_of(alloc, value)?;
    let rest = spelled(alloc, rest)?;
    joined(alloc, name.as_str(), key.as_str(), rest.as_str())
}

/// The name and the key of the first field, which is taken out, and the rest.
pub fn taken(alloc: Global, text: &str) -> Result<String>
    ensures { IfOk result (λ answer. (doc : Document) × (field : List ℕ × Datum) × Write text.now doc × (slice_get doc 0 ≡ Some field)
        × (string_bytes answer ≡ field.0 ++ codes " " ++ encode_lower (key_of field.1) ++ codes " " ++ digits_of (remove doc 0))) }
{
    let mut doc = written(alloc, text)?;
    if doc.len() == 0 {
        return refused("no field");
    }
    let field = doc.take(0);
    field_text(alloc, &field.0, &field.1, &doc)
}

// How many entries there are, and the document of them.
fn entries_text(alloc: Global, entries: Vec<(CText, Value)>) -> Result<String>
    requires { AreDistinct (names_of entries.items) }
    ensures { IfOk result (λ answer. string_bytes answer ≡ decimal (length entries.items) ++ codes " " ++ digits_of entries.items) }
{
    let count = entries.len();
    let doc = Fields::of_distinct(entries);
    let doc = spelled(alloc, &doc)?;
    Ok(format!(in alloc; "{count} {doc}")?)
}

/// How many entries a document has, and the document of them.
pub fn entries(alloc: Global, text: &str) -> Result<String>
    ensures { IfOk result (λ answer. (doc : Document) × Write text.now doc
        × (string_bytes answer ≡ decimal (length doc) ++ codes " " ++ digits_of doc)) }
{
    let doc = written(alloc, text)?;
    entries_text(alloc, doc.into_entries())
}
