//! The keys of documents.
ghost use Rattle.std.specs.Prelude.{◌≡◌, ◌∷◌, ◌≤◌, IfOk, IfSome, is_some, length, true};
ghost use Rattle.bson_encode.specs.Key.{key_of};
ghost use Rattle.bson_view.specs.Kept.{kept_document};
ghost use Rattle.bson_view.specs.Views.{elem_value};
ghost use Rattle.coll_state.specs.Rows.{id_of, key_in};

use bson_encode::{put_key, type_of};
use bson_spelling::put_id_key;
use bson_value::{Doc, Value, type_byte};
use bson_view::{DocumentBytes, Elem};
use containers::SmallBytes;
use std::alloc::{AllocError, Global};

// Most keys are shorter.
const USUAL_LEN: usize = 32;

// A byte in front of at most 12.
fn tagged(tag: u8, bytes: &[u8]) -> SmallBytes
    requires { length bytes.now ≤ 12 }
    ensures { result ≡ tag ∷ bytes.now }
{
    let mut key = [0; 13];
    key[0] = tag;
    key[1..bytes.len() + 1].copy_from_slice(bytes);
    SmallBytes::inline(&key[..bytes.len() + 1])
}

/// The key of an `_id` of a number, but for a decimal, or of an identifier. It takes no memory.
pub(crate) fn short_key(id: &Value) -> Option<SmallBytes>
    ensures { IfSome result (λ key. key ≡ key_of id.now) }
{
    let tag = type_of(id);
    match id {
        Value::Int(n) => Some(tagged(tag, &n.to_le_bytes())),
        Value::Long(n) => Some(tagged(tag, &n.to_le_bytes())),
        Value::Double(bytes) => Some(tagged(tag, bytes)),
        Value::Oid(bytes) => Some(tagged(tag, bytes)),
        _ => None,
    }
}

// The same of an `_id` in bytes.
fn short_key_in(id: &Elem<'_>) -> Option<SmallBytes>
    ensures { IfSome result (λ key. key ≡ key_of (elem_value id.now)) }
{
    id.spells();
    match id.tag {
        type_byte::DOUBLE | type_byte::OBJECT_ID | type_byte::INT32 | type_byte::INT64
            if id.value.len() <= 12 => Some(tagged(id.tag, id.value)),
        _ => None,
    }
}

/// The key of an `_id`.
pub(crate) fn key_of(alloc: Global, id: &Value) -> Result<SmallBytes, AllocError>
    ensures { IfOk result (λ key. key ≡ key_of id.now) }
{
    if let Some(key) = short_key(id) {
        return Ok(key);
    }
    let mut key = Vec::with_capacity(alloc, USUAL_LEN)?;
    put_key(&mut key, id)?;
    SmallBytes::of(alloc, key.as_slice())
}

// The same of an `_id` in bytes.
fn key_of_elem(alloc: Global, id: &Elem<'_>) -> Result<SmallBytes, AllocError>
    ensures { IfOk result (λ key. key ≡ key_of (elem_value id.now)) }
{
    if let Some(key) = short_key_in(id) {
        return Ok(key);
    }
    let mut key = Vec::with_capacity(alloc, USUAL_LEN)?;
    put_id_key(alloc, &mut key, id)?;
    SmallBytes::of(alloc, key.as_slice())
}

/// The key of a document's `_id`.
pub(crate) fn key_in(alloc: Global, doc: &Doc) -> Result<SmallBytes, AllocError>
    requires { is_some (id_of doc.now) ≡ true }
    ensures { IfOk result (λ key. key ≡ key_in (id_of doc.now)) }
{
    match doc.get("_id") {
        Some(id) => key_of(alloc, id),
        None => unreachable!(),
    }
}

/// The key of the `_id` of the document that the bytes spell.
pub(crate) fn key_in_bytes(alloc: Global, bytes: &DocumentBytes) -> Result<SmallBytes, AllocError>
    requires { is_some (id_of (kept_document bytes.now)) ≡ true }
    ensures { IfOk result (λ key. key ≡ key_in (id_of (kept_document bytes.now))) }
{
    match bytes.view().field("_id") {
        Some(id) => key_of_elem(alloc, &id),
        None => unreachable!(),
    }
}
