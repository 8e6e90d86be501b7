//! What the operations of entries say.
ghost use Rattle.std.specs.Prelude.{◌≡◌};
ghost use Rattle.entry_model.specs.declared.fault.EntryFault.TheVariants.{UnknownOp};
ghost use Rattle.entry_model.specs.Reading.{is_whole, nothing_read, insert_read, delete_read, updated_read, operation, no_group};
ghost use Rattle.oplog_entry.specs.Answers.{Gives, IsFault};
ghost use Rattle.oplog_entry.specs.Parts.{updated_id};

use crate::commands::command;
use crate::fields::{document_field, id_field, missing};
use crate::update::read_delta;
use bson_value::{Doc, NsName, Text, Value};
use entry_model::{Action, EntryFault};
use std::alloc::Global;

fn nothing(alloc: Global, ns: NsName, doc: &Doc) -> Result<(NsName, Action), EntryFault>
    ensures { Gives result (nothing_read ns doc.now) }
{
    if doc.get("o").is_none() {
        return Err(missing(alloc, "o"));
    }
    Ok((ns, Action::Nothing))
}

fn insert(alloc: Global, ns: NsName, doc: &Doc) -> Result<(NsName, Action), EntryFault>
    ensures { Gives result (insert_read ns doc.now) }
{
    let o = document_field(alloc, doc, "o")?;
    id_field(alloc, o, "o._id")?;
    let doc = o.copy(alloc)?;
    Ok((ns, Action::Put { doc }))
}

fn delete(alloc: Global, ns: NsName, doc: &Doc) -> Result<(NsName, Action), EntryFault>
    ensures { Gives result (delete_read ns doc.now) }
{
    let o = document_field(alloc, doc, "o")?;
    let id = id_field(alloc, o, "o._id")?.copy(alloc)?;
    Ok((ns, Action::Remove { id }))
}

/// Whether an update's fields are the whole document.
fn is_whole(o: &Doc) -> bool
    ensures { result ≡ is_whole o.now }
{
    match o.entries().first() {
        None => true,
        Some(field) => !field.0.as_str().starts_with('$'),
    }
}

/// The `_id` of the document that an entry updates.
fn updated_id(alloc: Global, doc: &Doc) -> Result<Value, EntryFault>
    ensures { Gives result (updated_id doc.now) }
{
    let o2 = document_field(alloc, doc, "o2")?;
    let id = id_field(alloc, o2, "o2._id")?;
    Ok(id.copy(alloc)?)
}

fn update(alloc: Global, ns: NsName, doc: &Doc) -> Result<(NsName, Action), EntryFault>
    ensures { Gives result (updated_read ns doc.now) }
{
    let o = document_field(alloc, doc, "o")?;
    if is_whole(o) {
        let id = updated_id(alloc, doc)?;
        let doc = o.copy(alloc)?;
        return Ok((ns, Action::Whole { id, doc }));
    }
    let (form, touches) = read_delta(alloc, o)?;
    let id = updated_id(alloc, doc)?;
    Ok((ns, Action::Delta { id, form, touches }))
}

fn unknown_op(alloc: Global, op: &str) -> EntryFault
    ensures { IsFault result (UnknownOp op.now) }
{
    match Text::of(alloc, op) {
        Ok(text) => EntryFault::UnknownOp(text),
        Err(_) => EntryFault::NoMemory,
    }
}

/// What an operation says, within a group.
pub(crate) fn operation(
    alloc: Global,
    op: &str,
    ns: NsName,
    doc: &Doc,
) -> Result<(NsName, Action), EntryFault>
    ensures { Gives result (operation no_group op.now ns doc.now) }
{
    if op == "n" {
        return nothing(alloc, ns, doc);
    }
    if op == "i" {
        return insert(alloc, ns, doc);
    }
    if op == "d" {
        return delete(alloc, ns, doc);
    }
    if op == "u" {
        return update(alloc, ns, doc);
    }
    if op == "c" {
        return command(alloc, ns.db.as_str(), document_field(alloc, doc, "o")?);
    }
    Err(unknown_op(alloc, op))
}
