//! Operators, updates by them, and the actions that record updates.
ghost use Rattle.std.specs.Prelude.{◌≡◌, ◌++◌, None, IfOk, string_bytes};
ghost use Rattle.std.specs.Fmt.{decimal};
ghost use Rattle.entry_model.specs.declared.entry.Action.{Action as Actions};
ghost use Rattle.update_model.specs.Reading.{operators, ops_fault};
ghost use Rattle.row_script.specs.Documents.{Document};
ghost use Rattle.row_script.specs.Jsons.{Write};
ghost use Rattle.entry_rows.specs.Rows.{Records, action_text, document_json, touches_text};

use crate::faults::{ops_fault, update_fault};
use crate::shown::{put_action, put_touches};
use crate::texts::put_document;
use anyhow::Result;
use bson_value::Doc;
use doc_path::Form;
use entry_model::Action;
use row_script::jsons::document;
use row_script::{answer, refused, words};
use std::alloc::Global;
use update_action::update_action;
use update_ops::{Ops, Updated, update};

fn count_text(alloc: Global, count: usize) -> Result<String>
    ensures { IfOk result (λ text. string_bytes text ≡ decimal count) }
{
    Ok(format!(in alloc; "{count}")?)
}

/// How many operators a document has, or its first fault.
pub fn operators(alloc: Global, json: &str) -> Result<String> {
    let doc = document(alloc, json)?;
    match Ops::read(alloc, &doc) {
        Ok(ops) => count_text(alloc, ops.operators().len()),
        Err(fault) => answer(alloc, ops_fault(fault)),
    }
}

fn updated_text(alloc: Global, updated: &Updated) -> Result<String>
    ensures { IfOk result (λ answer. string_bytes answer ≡ document_json updated.now.doc ++ touches_text updated.now.touches) }
{
    let mut text = String::new(alloc);
    put_document(alloc, &mut text, &updated.doc)?;
    put_touches(alloc, &mut text, updated.touches.as_slice())?;
    Ok(text)
}

fn action_of(alloc: Global, form: Form, updated: &Updated) -> Result<Action>
    ensures { IfOk result (λ action. Records form updated.now action) }
{
    let Some(id) = updated.doc.get("_id") else {
        return refused("no _id");
    };
    if !updated.doc.fits(16_777_216, 100) {
        return refused("a large document");
    }
    Ok(update_action(alloc, id, &updated.doc, updated.touches.as_slice(), form)?)
}

fn action_text(alloc: Global, action: &Action) -> Result<String>
    ensures { IfOk result (λ answer. string_bytes answer ≡ action_text action.now) }
{
    let mut text = String::new(alloc);
    put_action(alloc, &mut text, action)?;
    Ok(text)
}

fn recorded_text(alloc: Global, form: Form, updated: &Updated) -> Result<String>
    ensures { IfOk result (λ answer. (action : Actions) × Records form updated.now action × (string_bytes answer ≡ action_text action)) }
{
    let action = action_of(alloc, form, updated)?;
    let text = action_text(alloc, &action);
    drop(action);
    text
}

// What is asked of an update.
#[derive(Clone, Copy)]
enum Asked {
    Document,
    Count,
    Action(Form),
}

// What is shown of an update.
fn shown(alloc: Global, asked: Asked, updated: &Updated) -> Result<String> {
    match asked {
        Asked::Document => updated_text(alloc, updated),
        Asked::Count => count_text(alloc, updated.touches.len()),
        Asked::Action(form) => recorded_text(alloc, form, updated),
    }
}

// What is shown of the update of a document, or the refusal.
fn shown_or_refusal(alloc: Global, asked: Asked, doc: &Doc, ops: &Ops) -> Result<String> {
    match update(alloc, doc, ops) {
        Ok(updated) => shown(alloc, asked, &updated),
        Err(fault) => answer(alloc, update_fault(fault)),
    }
}

// The operators that the text writes.
fn written_ops(alloc: Global, json: &str) -> Result<Ops>
    ensures { IfOk result (λ ops. (doc : Document) × Write json.now doc × (ops ≡ operators doc) × (ops_fault doc ≡ None)) }
{
    let doc = document(alloc, json)?;
    match Ops::read(alloc, &doc) {
        Ok(ops) => Ok(ops),
        Err(_) => refused("no operators"),
    }
}

// The same by the operators that the text writes.
fn shown_by(alloc: Global, asked: Asked, doc: &Doc, json: &str) -> Result<String> {
    let ops = written_ops(alloc, json)?;
    shown_or_refusal(alloc, asked, doc, &ops)
}

// The same of a document and operators.
fn shown_of(alloc: Global, asked: Asked, text: &str) -> Result<String> {
    let (doc, ops) = words(text)?;
    let doc = document(alloc, doc)?;
    shown_by(alloc, asked, &doc, ops)
}

/// The document after an update, and the touches; or the refusal.
pub fn updated(alloc: Global, text: &str) -> Result<String> {
    shown_of(alloc, Asked::Document, text)
}

/// How many touches an update has, or the refusal.
pub fn touches(alloc: Global, text: &str) -> Result<String> {
    shown_of(alloc, Asked::Count, text)
}

/// The action that records an update, in the form 1 or 2; or the refusal.
pub fn recorded(alloc: Global, text: &str) -> Result<String> {
    let (form, rest) = words(text)?;
    let form = if form == "1" { Form::V1 } else { Form::V2 };
    shown_of(alloc, Asked::Action(form), rest)
}
