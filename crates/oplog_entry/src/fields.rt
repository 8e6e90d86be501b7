//! Fields of a kind, or the fault that they have.
ghost use Rattle.std.specs.Prelude.{◌≡◌, IfOk, IfErr, Ok};
ghost use Rattle.std.specs.Option.{option_copied};
ghost use Rattle.bson_value.specs.declared.value.Value.{out-Value};
ghost use Rattle.containers.specs.Entries.{lookup};
ghost use Rattle.doc_path.specs.Played.{id_name};
ghost use Rattle.entry_model.specs.declared.fault.EntryFault.TheVariants.{MissingField, BadField};
ghost use Rattle.oplog_entry.specs.Answers.{IsFault, Fails};
ghost use Rattle.entry_model.specs.Reading.{there, field, text_in, document_in, array_in, stamp_in};

use bson_value::{Doc, List, Text, Ts, Value};
use entry_model::EntryFault;
use std::alloc::Global;

pub(crate) fn missing(alloc: Global, name: &str) -> EntryFault
    ensures { IsFault result (MissingField name.now) }
{
    match Text::of(alloc, name) {
        Ok(text) => EntryFault::MissingField(text),
        Err(_) => EntryFault::NoMemory,
    }
}

pub(crate) fn bad(alloc: Global, name: &str) -> EntryFault
    ensures { IsFault result (BadField name.now) }
{
    match Text::of(alloc, name) {
        Ok(text) => EntryFault::BadField(text),
        Err(_) => EntryFault::NoMemory,
    }
}

pub(crate) fn text_in(value: &Value) -> Option<&str>
    ensures { option_copied result ≡ text_in (out-Value value.now) }
{
    match value {
        Value::Str(text) => Some(text.as_str()),
        _ => None,
    }
}

pub(crate) fn document_in(value: &Value) -> Option<&Doc>
    ensures { option_copied result ≡ document_in (out-Value value.now) }
{
    match value {
        Value::Object(doc) => Some(doc),
        _ => None,
    }
}

pub(crate) fn array_in(value: &Value) -> Option<&List<Value>>
    ensures { option_copied result ≡ array_in (out-Value value.now) }
{
    match value {
        Value::Array(items) => Some(items),
        _ => None,
    }
}

pub(crate) fn stamp_in(value: &Value) -> Option<Ts>
    ensures { result ≡ stamp_in (out-Value value.now) }
{
    match value {
        Value::Stamp(ts) => Some(*ts),
        _ => None,
    }
}

pub(crate) fn text_field<'d>(alloc: Global, doc: &'d Doc, name: &str) -> Result<&'d str, EntryFault>
    ensures ok { IfOk result (λ t. field text_in name.now doc.now ≡ Ok t.now) }
    ensures err { IfErr result (λ e. Fails e (field text_in name.now doc.now)) }
{
    let Some(value) = doc.get(name) else {
        return Err(missing(alloc, name));
    };
    match text_in(value) {
        Some(text) => Ok(text),
        None => Err(bad(alloc, name)),
    }
}

pub(crate) fn stamp_field(alloc: Global, doc: &Doc, name: &str) -> Result<Ts, EntryFault>
    ensures ok { IfOk result (λ t. field stamp_in name.now doc.now ≡ Ok t) }
    ensures err { IfErr result (λ e. Fails e (field stamp_in name.now doc.now)) }
{
    let Some(value) = doc.get(name) else {
        return Err(missing(alloc, name));
    };
    match stamp_in(value) {
        Some(ts) => Ok(ts),
        None => Err(bad(alloc, name)),
    }
}

pub(crate) fn document_field<'d>(
    alloc: Global,
    doc: &'d Doc,
    name: &str,
) -> Result<&'d Doc, EntryFault>
    ensures ok { IfOk result (λ d. field document_in name.now doc.now ≡ Ok d.now) }
    ensures err { IfErr result (λ e. Fails e (field document_in name.now doc.now)) }
{
    let Some(value) = doc.get(name) else {
        return Err(missing(alloc, name));
    };
    match document_in(value) {
        Some(fields) => Ok(fields),
        None => Err(bad(alloc, name)),
    }
}

pub(crate) fn array_field<'d>(
    alloc: Global,
    doc: &'d Doc,
    name: &str,
) -> Result<&'d List<Value>, EntryFault>
    ensures ok { IfOk result (λ vs. field array_in name.now doc.now ≡ Ok vs.now) }
    ensures err { IfErr result (λ e. Fails e (field array_in name.now doc.now)) }
{
    let Some(value) = doc.get(name) else {
        return Err(missing(alloc, name));
    };
    match array_in(value) {
        Some(items) => Ok(items),
        None => Err(bad(alloc, name)),
    }
}

/// The `_id` of a document, or the fault that `name` is missing.
pub(crate) fn id_field<'d>(alloc: Global, doc: &'d Doc, name: &str) -> Result<&'d Value, EntryFault>
    ensures ok { IfOk result (λ v. there name.now (lookup id_name doc.now) ≡ Ok v.now) }
    ensures err { IfErr result (λ e. Fails e (there name.now (lookup id_name doc.now))) }
{
    match doc.get("_id") {
        Some(id) => Ok(id),
        None => Err(missing(alloc, name)),
    }
}
