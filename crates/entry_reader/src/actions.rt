//! What an insert, a delete and an update do.
ghost use Rattle.std.specs.Prelude.{◌≡◌, ◌∷◌, [], Some, IfOk, option_map};
ghost use Rattle.bson_value.specs.declared.value.Value.{out-Value};
ghost use Rattle.bson_view.specs.Views.{document, elem_value};
ghost use Rattle.doc_path.specs.declared.parts.Form.TheVariants.{V2};
ghost use Rattle.entry_model.specs.Reading.{document_in};
ghost use Rattle.entry_reader.specs.Parts.{put_of, remove_of, update_of, whole_of, delta_of, delta_at, action_of, document_at};

use crate::parts::{built, id, is_whole};
use crate::single::only_touch;
use bson_value::{Doc, List, Value};
use bson_view::{Elem, View};
use doc_path::{Form, Touch};
use entry_model::{Action, EntryFault};
use oplog_entry::read_delta;
use std::alloc::{AllocError, Global};

fn put(alloc: Global, o: &Elem<'_>) -> Result<Option<Action>, AllocError>
    ensures { IfOk result (λ a. a ≡ put_of (document_in (out-Value (elem_value o.now)))) }
{
    if id(o).is_none() {
        return Ok(None);
    }
    match built(alloc, o)? {
        Some(doc) => Ok(Some(Action::Put { doc })),
        None => Ok(None),
    }
}

fn remove(alloc: Global, o: &Elem<'_>) -> Result<Option<Action>, AllocError>
    ensures { IfOk result (λ a. a ≡ remove_of (document_in (out-Value (elem_value o.now)))) }
{
    match id(o) {
        Some(id) => {
            let id = id.to_value(alloc)?;
            Ok(Some(Action::Remove { id }))
        }
        None => Ok(None),
    }
}

fn whole(alloc: Global, id: Value, o: &Elem<'_>) -> Result<Option<Action>, AllocError>
    ensures { IfOk result (λ a. a ≡ whole_of id (document_in (out-Value (elem_value o.now)))) }
{
    match built(alloc, o)? {
        Some(doc) => Ok(Some(Action::Whole { id, doc })),
        None => Ok(None),
    }
}

fn delta_in(alloc: Global, id: Value, o: &Doc) -> Result<Option<Action>, AllocError>
    ensures { IfOk result (λ a. a ≡ delta_of id o.now) }
{
    match read_delta(alloc, o) {
        Ok((form, touches)) => Ok(Some(Action::Delta { id, form, touches })),
        Err(EntryFault::NoMemory) => Err(AllocError),
        Err(_) => Ok(None),
    }
}

// The delta of this touch alone.
fn delta_of(alloc: Global, id: Value, touch: Touch) -> Result<Option<Action>, AllocError>
    ensures { IfOk result (λ a. a ≡ Some (Action.Delta id V2 (touch ∷ []))) }
{
    let mut touches = List::with_capacity(alloc, 1)?;
    touches.push(touch)?;
    Ok(Some(Action::Delta {
        id,
        form: Form::V2,
        touches,
    }))
}

// The delta that `o` says, of which the document is built.
fn built_delta(alloc: Global, id: Value, o: &Elem<'_>) -> Result<Option<Action>, AllocError>
    ensures { IfOk result (λ a. a ≡ delta_at id (document_in (out-Value (elem_value o.now)))) }
{
    match built(alloc, o)? {
        Some(doc) => delta_in(alloc, id, &doc),
        None => Ok(None),
    }
}

fn delta(
    alloc: Global,
    id: Value,
    o: &Elem<'_>,
    view: &View<'_>,
) -> Result<Option<Action>, AllocError>
    requires { document_in (out-Value (elem_value o.now)) ≡ Some (document view.now) }
    ensures { IfOk result (λ a. a ≡ delta_at id (document_in (out-Value (elem_value o.now)))) }
{
    match only_touch(alloc, view)? {
        Some(touch) => delta_of(alloc, id, touch),
        None => built_delta(alloc, id, o),
    }
}

fn update(alloc: Global, o: &Elem<'_>, o2: &Elem<'_>) -> Result<Option<Action>, AllocError>
    ensures { IfOk result (λ a. a ≡ update_of (document_in (out-Value (elem_value o.now))) (document_in (out-Value (elem_value o2.now)))) }
{
    let Some(view) = o.document() else {
        return Ok(None);
    };
    let Some(id) = id(o2) else {
        return Ok(None);
    };
    let id = id.to_value(alloc)?;
    if is_whole(&view) {
        whole(alloc, id, o)
    } else {
        delta(alloc, id, o, &view)
    }
}

/// What an insert, a delete or an update does. Nothing is said of another operation.
pub(crate) fn action(
    alloc: Global,
    op: &str,
    o: &Elem<'_>,
    o2: Option<Elem<'_>>,
) -> Result<Option<Action>, AllocError>
    ensures { IfOk result (λ a. a ≡ action_of op.now (document_in (out-Value (elem_value o.now))) (document_at (option_map elem_value o2.entry))) }
{
    if op == "i" {
        return put(alloc, o);
    }
    if op == "d" {
        return remove(alloc, o);
    }
    if op == "u" {
        return match o2 {
            Some(o2) => update(alloc, o, &o2),
            None => Ok(None),
        };
    }
    Ok(None)
}
