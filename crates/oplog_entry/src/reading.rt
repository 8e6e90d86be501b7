//! The reading of entries.
ghost use Rattle.std.specs.Prelude.{◌≡◌, codes, IfSome, IfNone, Some, None, false};
ghost use Rattle.containers.specs.Entries.{lookup};
ghost use Rattle.entry_model.specs.Reading.{is_true, item, items, group_of, command, operation, entry_of, head_of};
ghost use Rattle.oplog_entry.specs.Answers.{Gives};
ghost use Rattle.oplog_entry.specs.Parts.{Begins, further, is_group};

use crate::commands::{command, other};
use crate::fields::{array_in, bad, document_field, document_in, stamp_field, text_field};
use crate::names::{database, entry_namespace};
use crate::operations::operation;
use bson_value::{Doc, List, NsName, Text, Ts, Value};
use entry_model::{Action, Entry, EntryFault};
use std::alloc::Global;

/// The timestamp and the text of the namespace of an entry. Its other fields aren't looked at.
pub fn head(alloc: Global, doc: &Doc) -> Result<(Ts, Text), EntryFault>
    ensures { Gives result (head_of doc.now) }
{
    let ts = stamp_field(alloc, doc, "ts")?;
    let ns = text_field(alloc, doc, "ns")?;
    Ok((ts, Text::of(alloc, ns)?))
}

/// An entry of a group.
fn item(alloc: Global, ts: Ts, value: &Value) -> Result<Entry, EntryFault>
    ensures { Gives result (item ts value.now) }
{
    let Some(doc) = document_in(value) else {
        return Err(bad(alloc, "applyOps"));
    };
    let ns = entry_namespace(alloc, doc)?;
    let op = text_field(alloc, doc, "op")?;
    let (ns, action) = operation(alloc, op, ns, doc)?;
    Ok(Entry { ts, ns, action })
}

fn items(alloc: Global, ts: Ts, values: &[Value]) -> Result<List<Entry>, EntryFault>
    ensures { Gives result (items ts values.now) }
{
    let mut entries = List::new(alloc);
    for value in values {
        entries.push(item(alloc, ts, value)?)?;
    }
    Ok(entries)
}

/// Whether the field of this name is true.
fn is_true(doc: &Doc, name: &str) -> bool
    ensures { result ≡ is_true (lookup name.now doc.now) }
{
    match doc.get(name) {
        Some(Value::Bool(b)) => *b,
        _ => false,
    }
}

/// The value of an `applyOps`.
fn group_value(o: &Doc) -> Option<&Value>
    ensures some { IfSome result (λ value. Begins (codes "applyOps") value.now o.now) }
    ensures none { IfNone result (is_group o.now ≡ false) }
{
    let (name, value) = o.entries().first()?;
    if name.as_str() == "applyOps" {
        Some(value)
    } else {
        None
    }
}

/// What an `applyOps` says.
fn group(
    alloc: Global,
    ts: Ts,
    db: &str,
    value: &Value,
    o: &Doc,
) -> Result<(NsName, Action), EntryFault>
    requires { Begins (codes "applyOps") value.now o.now }
    ensures { Gives result (group_of ts db.now value.now (further o.now)) }
{
    if is_true(o, "prepare") || is_true(o, "partialTxn") {
        return Ok(other(alloc, db, "applyOps", value)?);
    }
    let Some(values) = array_in(value) else {
        return Err(bad(alloc, "applyOps"));
    };
    let entries = items(alloc, ts, values.as_slice())?;
    let ns = database(alloc, db)?;
    Ok((ns, Action::Group { entries }))
}

/// What a command says.
fn outer_command(alloc: Global, ts: Ts, db: &str, o: &Doc) -> Result<(NsName, Action), EntryFault>
    ensures { Gives result (command (group_of ts) db.now o.now) }
{
    match group_value(o) {
        Some(value) => group(alloc, ts, db, value, o),
        None => command(alloc, db, o),
    }
}

/// What an operation says.
fn outer_operation(
    alloc: Global,
    ts: Ts,
    op: &str,
    ns: NsName,
    doc: &Doc,
) -> Result<(NsName, Action), EntryFault>
    ensures { Gives result (operation (group_of ts) op.now ns doc.now) }
{
    if op == "c" {
        let o = document_field(alloc, doc, "o")?;
        return outer_command(alloc, ts, ns.db.as_str(), o);
    }
    operation(alloc, op, ns, doc)
}

/// The entry that a document is, or its first fault. The entry is a copy of what it takes from the document, and takes
/// the time of that; of an update, also the time of its touches and the lengths of their places.
pub fn read(alloc: Global, doc: &Doc) -> Result<Entry, EntryFault>
    ensures { Gives result (entry_of doc.now) }
{
    let ts = stamp_field(alloc, doc, "ts")?;
    let ns = entry_namespace(alloc, doc)?;
    let op = text_field(alloc, doc, "op")?;
    let (ns, action) = outer_operation(alloc, ts, op, ns, doc)?;
    Ok(Entry { ts, ns, action })
}
