//! Refusals of commands on documents.
ghost use Rattle.std.specs.Prelude.{◌≡◌, ◌&&◌, not, IfOk, is_some, false};
ghost use Rattle.std.specs.Option.{option_copied};
ghost use Rattle.std.specs.FinMap as map;
ghost use Rattle.bson_encode.specs.Key.{key_of};
ghost use Rattle.coll_state.specs.Rows.{id_of};
ghost use Rattle.history_model.specs.Documents.{id_first, is_good_document, is_bad_name};
ghost use Rattle.history_model.specs.Refusals.{is_there, rows_in, row_at, row_named, definitions_in, with_good, with_update, update_of, document_refusal as refusal_of};
ghost use Rattle.command_refusals.specs.Keyed.{AreKeyed};
ghost use Rattle.command_refusals.specs.Tests.{rows_refusal};

use crate::conditions::{Conditions, first_row};
use crate::index_tests::put_refusal;
use bson_value::{Doc, NsName, Value};
use coll_state::State;
use command_rules::{is_bad_name, is_good_document};
use schedule_model::{DocumentCommand, Refused};
use std::alloc::{AllocError, Global};
use update_ops::Updated;

// Whether a document of this `_id` is there.
fn is_at(state: &State, ns: &NsName, id: &Value) -> bool
    ensures { result ≡ is_some (row_at ns.now (key_of id.now) state.now) }
{
    state.get(ns, id).is_some()
}

// Whether a document with the `_id` of this one is there.
fn is_named(state: &State, ns: &NsName, doc: &Doc) -> bool
    ensures { result ≡ is_some (row_named ns.now (id_of doc.now) state.now) }
{
    match doc.get("_id") {
        Some(id) => is_at(state, ns, id),
        None => false,
    }
}

// Whether the collection isn't there and may not be made.
fn is_bad_new(state: &State, ns: &NsName) -> bool
    ensures { result ≡ (not (is_there ns.now state.now) && is_bad_name ns.now) }
{
    if state.has(ns) {
        return false;
    }
    is_bad_name(ns)
}

/// Why the indexes of a collection refuse a document that is to be put, if it may be stored. `first` is the document as it is to
/// be kept. Where the collection has indexes, the time is that of testing them over all its documents.
pub fn document_refusal(
    alloc: Global,
    state: &State,
    ns: &NsName,
    doc: &Doc,
    first: &Doc,
) -> Result<Option<Refused>, AllocError>
    requires keyed { AreKeyed state.now }
    requires first { first.now ≡ id_first doc.now }
    ensures { IfOk result (λ o. o ≡ rows_refusal (with_good (is_good_document doc.now) doc.now (rows_in (map.get state.now.tables ns.now))) (definitions_in (map.get state.now.tables ns.now))) }
{
    if !is_good_document(doc) {
        return Ok(None);
    }
    match doc.get("_id") {
        Some(id) => put_refusal(alloc, state, ns, id, first),
        None => Ok(None),
    }
}

/// Why an insert is refused that stands alone. `tested` is why the indexes refuse its document.
pub fn insert_refusal(
    state: &State,
    ns: &NsName,
    doc: &Doc,
    tested: Option<Refused>,
) -> Option<Refused>
    requires { tested ≡ rows_refusal (with_good (is_good_document doc.now) doc.now (rows_in (map.get state.now.tables ns.now))) (definitions_in (map.get state.now.tables ns.now)) }
    ensures { result ≡ refusal_of false (DocumentCommand.Insert ns.now doc.now) state.now }
{
    first_row(Conditions {
        no_namespace: false,
        duplicate_id: is_named(state, ns, doc),
        no_document: false,
        tested,
        bad_document: !is_good_document(doc),
        bad_update: false,
        bad_name: is_bad_new(state, ns),
    })
}

// Whether the document has an `_id`, and none of it is there.
fn is_unmatched(state: &State, ns: &NsName, doc: &Doc) -> bool
    ensures { result ≡ (is_some (id_of doc.now) && not (is_some (row_named ns.now (id_of doc.now) state.now))) }
{
    match doc.get("_id") {
        Some(id) => !is_at(state, ns, id),
        None => false,
    }
}

/// Why a replacement is refused. `tested` is why the indexes refuse its document.
pub fn replace_refusal(
    state: &State,
    ns: &NsName,
    doc: &Doc,
    tested: Option<Refused>,
) -> Option<Refused>
    requires { tested ≡ rows_refusal (with_good (is_good_document doc.now) doc.now (rows_in (map.get state.now.tables ns.now))) (definitions_in (map.get state.now.tables ns.now)) }
    ensures { result ≡ refusal_of false (DocumentCommand.Replace ns.now doc.now) state.now }
{
    first_row(Conditions {
        no_namespace: !state.has(ns),
        duplicate_id: false,
        no_document: is_unmatched(state, ns, doc),
        tested,
        bad_document: !is_good_document(doc),
        bad_update: false,
        bad_name: is_bad_new(state, ns),
    })
}

/// Why the indexes of a collection refuse the document that an update makes, where it makes one. Where the collection has
/// indexes, the time is that of testing them over all its documents.
pub fn updated_refusal(
    alloc: Global,
    state: &State,
    ns: &NsName,
    id: &Value,
    updated: Option<&Updated>,
) -> Result<Option<Refused>, AllocError>
    requires { AreKeyed state.now }
    ensures { IfOk result (λ o. o ≡ rows_refusal (with_update id.now (option_copied updated.entry) (rows_in (map.get state.now.tables ns.now))) (definitions_in (map.get state.now.tables ns.now))) }
{
    match updated {
        Some(updated) => put_refusal(alloc, state, ns, id, &updated.doc),
        None => Ok(None),
    }
}

/// Why an update is refused. `updated` is what `updated` makes of the document that stands, and `tested` why the indexes refuse
/// that.
pub fn update_refusal(
    state: &State,
    ns: &NsName,
    id: &Value,
    ops: &Doc,
    updated: Option<&Updated>,
    tested: Option<Refused>,
) -> Option<Refused>
    requires updated { option_copied updated ≡ update_of (row_at ns.now (key_of id.now) state.now) ops.now }
    requires tested { tested ≡ rows_refusal (with_update id.now (option_copied updated) (rows_in (map.get state.now.tables ns.now))) (definitions_in (map.get state.now.tables ns.now)) }
    ensures { result ≡ refusal_of false (DocumentCommand.Update ns.now id.now ops.now) state.now }
{
    match updated {
        Some(_) => tested,
        None => first_row(Conditions {
            no_namespace: !state.has(ns),
            duplicate_id: false,
            no_document: !is_at(state, ns, id),
            tested,
            bad_document: false,
            bad_update: true,
            bad_name: is_bad_new(state, ns),
        }),
    }
}

/// Why a deletion is refused.
pub fn delete_refusal(state: &State, ns: &NsName, id: &Value) -> Option<Refused>
    ensures { result ≡ refusal_of false (DocumentCommand.Delete ns.now id.now) state.now }
{
    first_row(Conditions {
        no_namespace: !state.has(ns),
        duplicate_id: false,
        no_document: !is_at(state, ns, id),
        tested: None,
        bad_document: false,
        bad_update: false,
        bad_name: is_bad_new(state, ns),
    })
}
