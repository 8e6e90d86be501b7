//! Namespaces that the fields of entries name.
ghost use Rattle.std.specs.Prelude.{◌≡◌, [], codes, IfOk};
ghost use Rattle.std.specs.List.{before_first};
ghost use Rattle.entry_model.specs.Reading.{good, field, text_in, is_dot, named, namespace_of, collection, is_nothing};
ghost use Rattle.oplog_entry.specs.Answers.{Gives};
ghost use Rattle.oplog_entry.specs.Parts.{namespace_read};

use crate::fields::{bad, text_field, text_in};
use bson_value::{Doc, NsName, Text, Value};
use entry_model::EntryFault;
use std::alloc::{AllocError, Global};

/// A database alone.
pub(crate) fn database(alloc: Global, db: &str) -> Result<NsName, AllocError>
    ensures { IfOk result (λ ns. ns ≡ named db.now []) }
{
    Ok(NsName {
        db: Text::of(alloc, db)?,
        coll: Text::new(alloc),
    })
}

/// What stands before the first dot, or all of it.
fn before_dot(text: &str) -> &str
    ensures { result.now ≡ before_first is_dot text.now }
{
    match text.split_once('.') {
        Some((db, _)) => db,
        None => text,
    }
}

/// The database and the collection that a text names, which stands in this field.
pub(crate) fn whole_name(alloc: Global, name: &str, text: &str) -> Result<NsName, EntryFault>
    ensures { Gives result (good name.now (namespace_of text.now)) }
{
    match NsName::split(alloc, text)? {
        Some(ns) => Ok(ns),
        None => Err(bad(alloc, name)),
    }
}

/// The collection of a database that a value names, which stands in this field.
pub(crate) fn collection(
    alloc: Global,
    db: &str,
    name: &str,
    value: &Value,
) -> Result<NsName, EntryFault>
    ensures { Gives result (collection db.now name.now value.now) }
{
    let Some(coll) = text_in(value) else {
        return Err(bad(alloc, name));
    };
    if coll.is_empty() {
        return Err(bad(alloc, name));
    }
    Ok(NsName {
        db: Text::of(alloc, db)?,
        coll: Text::of(alloc, coll)?,
    })
}

/// Whether the operation of an entry is the string `n`.
fn is_nothing(doc: &Doc) -> bool
    ensures { result ≡ is_nothing (field text_in (codes "op") doc.now) }
{
    let Some(op) = doc.get("op") else {
        return false;
    };
    match text_in(op) {
        Some(text) => text == "n",
        None => false,
    }
}

/// The namespace of an entry.
pub(crate) fn entry_namespace(alloc: Global, doc: &Doc) -> Result<NsName, EntryFault>
    ensures { Gives result (namespace_read doc.now) }
{
    let text = text_field(alloc, doc, "ns")?;
    if is_nothing(doc) {
        Ok(database(alloc, before_dot(text))?)
    } else {
        whole_name(alloc, "ns", text)
    }
}
