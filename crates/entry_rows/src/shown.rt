//! Touches, actions and entries as texts.
ghost use Rattle.std.specs.Prelude.{◌≡◌, ◌++◌, OnOk, codes, if◌then◌else◌, string_bytes};
ghost use Rattle.std.specs.Fmt.{decimal};
ghost use Rattle.std.specs.List.{flat_map};
ghost use Rattle.row_script.specs.Jsons.{value_text};
ghost use Rattle.row_script.specs.Names.{ns_text};
ghost use Rattle.entry_rows.specs.Rows.{action_text, definition_text, document_json, form_text, item_text, place_text, touch_text, touches_text};

use crate::texts::{put_document, put_value};
use anyhow::Result;
use bson_value::{Doc, NsName, Value};
use doc_path::{Form, Part, Place, Touch};
use entry_model::{Action, Entry};
use std::alloc::{AllocError, Global};
use std::fmt::Write;

// A dot before a name, and # before an index.
fn put_place(out: &mut String, place: &Place) -> Result<(), AllocError>
    ensures { OnOk result (string_bytes out.new ≡ string_bytes out.old ++ place_text place.now) }
{
    for part in place.parts().as_slice() {
        match part {
            Part::Name(name) => write!(out, ".{}", name.as_str())?,
            Part::Index(at) => write!(out, "#{at}")?,
        }
    }
    Ok(())
}

fn put_set(alloc: Global, out: &mut String, place: &Place, value: &Value, fresh: bool) -> Result<()>
    ensures { OnOk result (string_bytes out.new ≡ string_bytes out.old ++ (if fresh then codes " fresh " else codes " set ") ++ place_text place.now ++ codes " " ++ value_text value.now) }
{
    out.push_str(if fresh { " fresh " } else { " set " })?;
    put_place(out, place)?;
    out.push(' ')?;
    put_value(alloc, out, value)
}

fn put_resize(out: &mut String, place: &Place, len: u32) -> Result<()>
    ensures { OnOk result (string_bytes out.new ≡ string_bytes out.old ++ codes " resize " ++ place_text place.now ++ codes " " ++ decimal len) }
{
    out.push_str(" resize ")?;
    put_place(out, place)?;
    Ok(write!(out, " {len}")?)
}

fn put_touch(alloc: Global, out: &mut String, touch: &Touch) -> Result<()>
    ensures { OnOk result (string_bytes out.new ≡ string_bytes out.old ++ touch_text touch.now) }
{
    match touch {
        Touch::Set {
            place,
            value,
            fresh,
        } => put_set(alloc, out, place, value, *fresh),
        Touch::Unset { place } => {
            out.push_str(" unset ")?;
            Ok(put_place(out, place)?)
        }
        Touch::Resize { place, len } => put_resize(out, place, *len),
    }
}

/// Writes touches, each behind a blank.
pub fn put_touches(alloc: Global, out: &mut String, touches: &[Touch]) -> Result<()>
    ensures { OnOk result (string_bytes out.new ≡ string_bytes out.old ++ touches_text touches.now) }
{
    for touch in touches {
        put_touch(alloc, out, touch)?;
    }
    Ok(())
}

fn put_whole(alloc: Global, out: &mut String, id: &Value, doc: &Doc) -> Result<()>
    ensures { OnOk result (string_bytes out.new ≡ string_bytes out.old ++ codes "whole " ++ value_text id.now ++ codes " " ++ document_json doc.now) }
{
    out.push_str("whole ")?;
    put_value(alloc, out, id)?;
    out.push(' ')?;
    put_document(alloc, out, doc)
}

fn put_delta(
    alloc: Global,
    out: &mut String,
    id: &Value,
    form: Form,
    touches: &[Touch],
) -> Result<()>
    ensures { OnOk result (string_bytes out.new ≡ string_bytes out.old ++ form_text form ++ value_text id.now ++ touches_text touches.now) }
{
    out.push_str(match form {
        Form::V1 => "delta1 ",
        Form::V2 => "delta2 ",
    })?;
    put_value(alloc, out, id)?;
    put_touches(alloc, out, touches)
}

fn put_indexes(alloc: Global, out: &mut String, defs: &[Doc]) -> Result<()>
    ensures { OnOk result (string_bytes out.new ≡ string_bytes out.old ++ codes "indexes" ++ flat_map definition_text defs.now) }
{
    out.push_str("indexes")?;
    for def in defs {
        out.push(' ')?;
        put_document(alloc, out, def)?;
    }
    Ok(())
}

fn put_namespace(out: &mut String, ns: &NsName) -> Result<(), AllocError>
    ensures { OnOk result (string_bytes out.new ≡ string_bytes out.old ++ ns_text ns.now) }
{
    write!(out, "{}.{}", ns.db.as_str(), ns.coll.as_str())
}

fn put_renaming(out: &mut String, from: &NsName, to: &NsName) -> Result<()>
    ensures { OnOk result (string_bytes out.new ≡ string_bytes out.old ++ codes "rename " ++ ns_text from.now ++ codes " " ++ ns_text to.now) }
{
    out.push_str("rename ")?;
    put_namespace(out, from)?;
    out.push(' ')?;
    Ok(put_namespace(out, to)?)
}

fn put_word_and_document(alloc: Global, out: &mut String, word: &str, doc: &Doc) -> Result<()>
    ensures { OnOk result (string_bytes out.new ≡ string_bytes out.old ++ word.now ++ document_json doc.now) }
{
    out.push_str(word)?;
    put_document(alloc, out, doc)
}

fn put_removal(alloc: Global, out: &mut String, id: &Value) -> Result<()>
    ensures { OnOk result (string_bytes out.new ≡ string_bytes out.old ++ codes "remove " ++ value_text id.now) }
{
    out.push_str("remove ")?;
    put_value(alloc, out, id)
}

/// Writes an action, of a group only that it is one.
pub fn put_action(alloc: Global, out: &mut String, action: &Action) -> Result<()>
    ensures { OnOk result (string_bytes out.new ≡ string_bytes out.old ++ action_text action.now) }
{
    match action {
        Action::Nothing => Ok(out.push_str("nothing")?),
        Action::Put { doc } => put_word_and_document(alloc, out, "put ", doc),
        Action::Remove { id } => put_removal(alloc, out, id),
        Action::Whole { id, doc } => put_whole(alloc, out, id, doc),
        Action::Delta { id, form, touches } => put_delta(alloc, out, id, *form, touches.as_slice()),
        Action::Create { options } => put_word_and_document(alloc, out, "create ", options),
        Action::DropColl => Ok(out.push_str("drop")?),
        Action::DropDb => Ok(out.push_str("drop database")?),
        Action::AddIndexes { defs } => put_indexes(alloc, out, defs.as_slice()),
        Action::DropIndex { name } => Ok(write!(out, "drop index {}", name.as_str())?),
        Action::Rename { from, to } => put_renaming(out, from, to),
        Action::Group { .. } => Ok(out.push_str("group")?),
        Action::Other { name } => Ok(write!(out, "other \"{}\"", name.as_str())?),
    }
}

fn put_item(alloc: Global, out: &mut String, entry: &Entry) -> Result<()>
    ensures { OnOk result (string_bytes out.new ≡ string_bytes out.old ++ item_text entry.now) }
{
    write!(out, "{}:{} ", entry.ts.secs, entry.ts.inc)?;
    put_namespace(out, &entry.ns)?;
    out.push(' ')?;
    put_action(alloc, out, &entry.action)
}

/// Writes an entry, and behind a group its items.
pub fn put_entry(alloc: Global, out: &mut String, entry: &Entry) -> Result<()> {
    put_item(alloc, out, entry)?;
    if let Action::Group { entries } = &entry.action {
        for item in entries.as_slice() {
            out.push_str("; ")?;
            put_item(alloc, out, item)?;
        }
    }
    Ok(())
}
