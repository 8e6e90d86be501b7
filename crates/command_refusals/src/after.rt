//! The documents of a collection after one is put.
ghost use Rattle.std.specs.Prelude.{◌≡◌, IfOk, if◌then◌else◌};
ghost use Rattle.std.specs.FinMap as map;
ghost use Rattle.bson_encode.specs.Key.{key_of};
ghost use Rattle.bson_view.specs.Held.{held_document};
ghost use Rattle.coll_state.specs.Rows.{key_in, id_of};
ghost use Rattle.state_model.specs.Keys.{same_key};
ghost use Rattle.coll_state.specs.Changes.{put_row};
ghost use Rattle.history_model.specs.Refusals.{rows_in};
ghost use Rattle.index_build.specs.Counting.{held};
ghost use Rattle.command_refusals.specs.Keyed.{AreKeyed, put_document, documents};

use bson_encode::{cmp_key, put_key};
use bson_value::{Bytes, Doc, NsName, Value};
use bson_view::Held;
use coll_state::State;
use std::alloc::{AllocError, Global};

// The key of an `_id`.
fn key_of(alloc: Global, id: &Value) -> Result<Bytes, AllocError>
    ensures { IfOk result (λ key. key ≡ key_of id.now) }
{
    let mut key = Vec::new(alloc);
    put_key(&mut key, id)?;
    Ok(Bytes::from_vec(key))
}

// Whether it is the key of an `_id`.
fn is_key_of(key: &Bytes, id: &Value) -> bool
    ensures { result ≡ same_key (key_of id.now) key.now }
{
    match key.as_slice().split_first() {
        Some((tag, rest)) => cmp_key(id, *tag, rest).is_eq(),
        None => false,
    }
}

// Whether it is the key of a document.
fn is_key_in(alloc: Global, key: &Bytes, doc: Held<'_>) -> Result<bool, AllocError>
    ensures { IfOk result (λ same. same ≡ same_key (key_in (id_of (held_document doc.entry))) key.now) }
{
    match doc.field("_id") {
        Some(id) => {
            let id = id.to_value(alloc)?;
            Ok(is_key_of(key, &id))
        }
        None => Ok(key.as_slice().is_empty()),
    }
}

/// All documents of a collection, in record order.
pub fn all_documents<'a>(
    alloc: Global,
    state: &'a State,
    ns: &NsName,
) -> Result<Vec<Held<'a>>, AllocError>
    ensures { IfOk result (λ docs. held docs.items ≡ documents (rows_in (map.get state.now.tables ns.now))) }
{
    state.is_sound();
    let mut docs = Vec::new(alloc);
    let mut left = state.after(ns, 0, usize::MAX);
    'documents: while let Some(item) = left.next() {
        docs.push(item.1)?;
    }
    if docs.len() == usize::MAX {
        return Err(AllocError);
    }
    Ok(docs)
}

// The new document, or else the old one.
fn chosen<'a>(is_new: bool, old: Held<'a>, doc: &'a Doc) -> Held<'a>
    ensures { held_document result ≡ (if is_new then doc.now else held_document old.entry) }
{
    if is_new { Held::Built(doc) } else { old }
}

// The documents with one more in the place of that of its key, or last.
fn put_among<'a>(
    alloc: Global,
    key: &Bytes,
    docs: &[Held<'a>],
    doc: &'a Doc,
) -> Result<Vec<Held<'a>>, AllocError>
    ensures { IfOk result (λ after. held after.items ≡ put_document key.now doc.now (held docs.now)) }
{
    let mut after = Vec::new(alloc);
    let mut is_put = false;
    for old in docs {
        let is_old = is_key_in(alloc, key, *old)?;
        let is_new = is_old && !is_put;
        after.push(chosen(is_new, *old, doc))?;
        is_put = is_put || is_new;
    }
    if is_put {
        return Ok(after);
    }
    after.push(Held::Built(doc))?;
    Ok(after)
}

/// The documents of a collection after one is put under an `_id`, in record order. The time is that of all
/// its documents.
pub(crate) fn documents_after<'a>(
    alloc: Global,
    state: &'a State,
    ns: &NsName,
    id: &Value,
    doc: &'a Doc,
) -> Result<Vec<Held<'a>>, AllocError>
    requires { AreKeyed state.now }
    ensures { IfOk result (λ docs. held docs.items ≡ documents (put_row 0 (key_of id.now) doc.now (rows_in (map.get state.now.tables ns.now)))) }
{
    let key = key_of(alloc, id)?;
    let docs = all_documents(alloc, state, ns)?;
    put_among(alloc, &key, docs.as_slice(), doc)
}
