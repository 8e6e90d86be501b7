//! One command of a transaction, on the collections after those before it.
ghost use Rattle.std.specs.Prelude.{◌≡◌, true, false, Some, IfOk, is_some};
ghost use Rattle.std.specs.Option.{option_copied};
ghost use Rattle.std.specs.FinMap as map;
ghost use Rattle.bson_encode.specs.Key.{key_of};
ghost use Rattle.doc_path.specs.declared.parts.Form.{Form};
ghost use Rattle.coll_state.specs.Rows.{id_of};
ghost use Rattle.coll_state.specs.Changes.{document_at};
ghost use Rattle.history_model.specs.Refusals.{namespace_of, row_at, update_of, document_refusal};
ghost use Rattle.command_refusals.specs.Keyed.{AreKeyed};
ghost use Rattle.transactions.specs.Steps.{IsPut, IsStep, changes_nothing, update_made};

use crate::change_record::ChangeRecord;
use bson_value::{Doc, NsName, Value};
use coll_state::{COUNT_LIMIT, Change, State};
use command_refusals::{
    delete_refusal, document_refusal, insert_refusal, replace_refusal, update_refusal, updated,
    updated_refusal,
};
use command_rules::id_first;
use doc_path::Form;
use entry_model::Action;
use schedule_model::{DocumentCommand, Refused};
use std::alloc::{AllocError, Global};
use stored_documents::same_document;
use update_action::update_action;
use update_ops::Updated;

/// What came of a command: a change, none, or why it is refused.
pub(crate) type Answer = Result<Option<ChangeRecord>, Refused>;

/// The namespace of a command.
pub(crate) fn namespace_of(command: &DocumentCommand) -> &NsName
    ensures { result.now ≡ namespace_of command.now }
{
    match command {
        DocumentCommand::Insert { ns, .. } => ns,
        DocumentCommand::Replace { ns, .. } => ns,
        DocumentCommand::Update { ns, .. } => ns,
        DocumentCommand::Delete { ns, .. } => ns,
    }
}

// A copy of a document's `_id`.
fn id_in(alloc: Global, doc: &Doc) -> Result<Value, AllocError>
    requires { is_some (id_of doc.now) ≡ true }
    ensures { IfOk result (λ id. id_of doc.now ≡ Some id) }
{
    match doc.get("_id") {
        Some(id) => id.copy(alloc),
        None => unreachable!(),
    }
}

/// Puts a document in a collection, and gives the change that does so.
pub(crate) fn put(
    alloc: Global,
    rows: &mut State,
    ns: &NsName,
    doc: Doc,
) -> Result<Change, AllocError>
    requires { is_some (id_of doc) ≡ true }
    ensures { IfOk result (λ change. IsPut change ns.now doc rows.old rows.new) }
{
    if rows.count() >= COUNT_LIMIT {
        return Err(AllocError);
    }
    let id = id_in(alloc, &doc)?;
    let copy = doc.copy(alloc)?;
    let name = ns.copy(alloc)?;
    rows.put(alloc, ns, copy)?;
    Ok(Change {
        ns: name,
        id,
        doc: Some(doc),
    })
}

fn insert(alloc: Global, rows: &mut State, ns: &NsName, doc: &Doc) -> Result<Answer, AllocError>
    requires keyed { AreKeyed rows.old }
    requires there { map.contains_key rows.old.tables ns.now ≡ true }
    ensures { IfOk result (λ a. (form : Form) → IsStep false form (DocumentCommand.Insert ns.now doc.now) a rows.old rows.new) }
{
    let first = id_first(alloc, doc)?;
    let tested = document_refusal(alloc, rows, ns, doc, &first)?;
    if let Some(refused) = insert_refusal(rows, ns, doc, tested) {
        return Ok(Err(refused));
    }
    let copy = first.copy(alloc)?;
    let change = put(alloc, rows, ns, first)?;
    Ok(Ok(Some(ChangeRecord {
        change,
        action: Action::Put { doc: copy },
    })))
}

// Whether the document is equal to the one that stands, or there is none in whose place it would be put.
fn is_kept(old: Option<&Doc>, doc: &Doc) -> bool
    ensures { result ≡ changes_nothing (option_copied old.entry) doc.now }
{
    match old {
        Some(old) => same_document(old, doc),
        None => true,
    }
}

fn replace(alloc: Global, rows: &mut State, ns: &NsName, doc: &Doc) -> Result<Answer, AllocError>
    requires keyed { AreKeyed rows.old }
    requires there { map.contains_key rows.old.tables ns.now ≡ true }
    ensures { IfOk result (λ a. (form : Form) → IsStep false form (DocumentCommand.Replace ns.now doc.now) a rows.old rows.new) }
{
    let first = id_first(alloc, doc)?;
    let tested = document_refusal(alloc, rows, ns, doc, &first)?;
    if let Some(refused) = replace_refusal(rows, ns, doc, tested) {
        return Ok(Err(refused));
    }
    let id = id_in(alloc, &first)?;
    let old = rows.copy_of(alloc, ns, &id)?;
    if is_kept(old.as_ref(), &first) {
        return Ok(Ok(None));
    }
    let copy = first.copy(alloc)?;
    let change = put(alloc, rows, ns, first)?;
    Ok(Ok(Some(ChangeRecord {
        change,
        action: Action::Whole { id, doc: copy },
    })))
}

// What an update makes of a document.
fn made_of(alloc: Global, old: Option<&Doc>, ops: &Doc) -> Result<Option<Updated>, AllocError>
    ensures { IfOk result (λ u. u ≡ update_made (option_copied old.entry) ops.now) }
{
    match old {
        Some(old) => updated(alloc, old, ops),
        None => Ok(None),
    }
}

fn update(
    alloc: Global,
    rows: &mut State,
    ns: &NsName,
    id: &Value,
    ops: &Doc,
    form: Form,
) -> Result<Answer, AllocError>
    requires keyed { AreKeyed rows.old }
    requires there { map.contains_key rows.old.tables ns.now ≡ true }
    ensures { IfOk result (λ a. IsStep false form (DocumentCommand.Update ns.now id.now ops.now) a rows.old rows.new) }
{
    let old = rows.copy_of(alloc, ns, id)?;
    let made = made_of(alloc, old.as_ref(), ops)?;
    let tested = updated_refusal(alloc, rows, ns, id, made.as_ref())?;
    if let Some(refused) = update_refusal(rows, ns, id, ops, made.as_ref(), tested) {
        return Ok(Err(refused));
    }
    let Some(Updated { doc, touches }) = made else {
        return Ok(Ok(None));
    };
    if is_kept(old.as_ref(), &doc) {
        return Ok(Ok(None));
    }
    let action = update_action(alloc, id, &doc, touches.as_slice(), form)?;
    let change = put(alloc, rows, ns, doc)?;
    Ok(Ok(Some(ChangeRecord { change, action })))
}

fn delete(alloc: Global, rows: &mut State, ns: &NsName, id: &Value) -> Result<Answer, AllocError>
    requires { map.contains_key rows.old.tables ns.now ≡ true }
    ensures { IfOk result (λ a. (form : Form) → IsStep false form (DocumentCommand.Delete ns.now id.now) a rows.old rows.new) }
{
    if let Some(refused) = delete_refusal(rows, ns, id) {
        return Ok(Err(refused));
    }
    let change = Change {
        ns: ns.copy(alloc)?,
        id: id.copy(alloc)?,
        doc: None,
    };
    let action = Action::Remove {
        id: id.copy(alloc)?,
    };
    let _ = rows.remove(ns, id);
    Ok(Ok(Some(ChangeRecord { change, action })))
}

/// Tests a command of a transaction on the collections, and makes its change where it isn't refused. `form` is that
/// in which an update is recorded.
pub(crate) fn step(
    alloc: Global,
    rows: &mut State,
    form: Form,
    command: &DocumentCommand,
) -> Result<Answer, AllocError>
    requires { AreKeyed rows.old }
    ensures { IfOk result (λ a. IsStep true form command.now a rows.old rows.new) }
{
    if !rows.has(namespace_of(command)) {
        return Ok(Err(Refused::NoSuchNamespace));
    }
    match command {
        DocumentCommand::Insert { ns, doc } => insert(alloc, rows, ns, doc),
        DocumentCommand::Replace { ns, doc } => replace(alloc, rows, ns, doc),
        DocumentCommand::Update { ns, id, ops } => update(alloc, rows, ns, id, ops, form),
        DocumentCommand::Delete { ns, id } => delete(alloc, rows, ns, id),
    }
}
