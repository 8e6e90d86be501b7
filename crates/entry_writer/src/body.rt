//! The operation, the namespace and the fields of an entry.
ghost use Rattle.std.specs.Prelude.{◌≡◌, ◌∷◌, ◌++◌, [], codes, Contains, OnOk, IfOk};
ghost use Rattle.bson_value.specs.declared.value.Value.{Object, Str};
ghost use Rattle.bson_value.specs.Spelling.{elements_of};
ghost use Rattle.entry_model.specs.Spelling.{namespace_text, id_alone, document_body, update_body, command_body, body_fields, text_of, one_definition, level_limit};
ghost use Rattle.entry_model.specs.Touches.{written};
ghost use Rattle.entry_writer.specs.Bodies.{plain_fields};

use crate::diff::put_second_form;
use crate::elements::{close, open, put_document, put_element, put_fields};
use crate::heading::put_heading;
use crate::paths::put_first_form;
use bson_value::{CText, Doc, Fields, List, NsName, Text, Value};
use doc_path::{Form, Touch};
use entry_model::Action;
use std::alloc::{AllocError, Global};

pub(crate) fn namespace_text(alloc: Global, db: &str, coll: &str) -> Result<Text, AllocError>
    ensures { IfOk result (λ t. t ≡ namespace_text db.now coll.now) }
{
    let mut text = Text::of(alloc, db)?;
    text.push_str(".")?;
    text.push_str(coll)?;
    Ok(text)
}

fn name_text(alloc: Global, ns: &NsName) -> Result<Text, AllocError>
    ensures { IfOk result (λ t. t ≡ text_of ns.now) }
{
    namespace_text(alloc, ns.db.as_str(), ns.coll.as_str())
}

/// Appends the operation and the namespace.
pub(crate) fn put_head(
    alloc: Global,
    out: &mut Vec<u8>,
    op: &str,
    ns: Text,
) -> Result<(), AllocError>
    ensures { OnOk result (out.new.items ≡ out.old.items ++ elements_of ((codes "op", Str op.now) ∷ (codes "ns", Str ns) ∷ [])) }
{
    let op = Text::of(alloc, op)?;
    put_element(out, "op", &Value::Str(op))?;
    put_element(out, "ns", &Value::Str(ns))
}

/// Appends a document that is an `_id` alone.
fn put_id(out: &mut Vec<u8>, name: &str, id: &Value) -> Result<(), AllocError>
    ensures { OnOk result (out.new.items ≡ out.old.items ++ elements_of ((name.now, Object (id_alone id.now)) ∷ [])) }
{
    open(out, name)?;
    let start = out.len();
    put_element(out, "_id", id)?;
    close(out, start)
}

fn put_nothing(alloc: Global, out: &mut Vec<u8>) -> Result<(), AllocError>
    ensures { OnOk result (out.new.items ≡ out.old.items ++ elements_of ((codes "op", Str (codes "n")) ∷ (codes "ns", Str []) ∷ (codes "o", Object ((codes "msg", Str (codes "initiating set")) ∷ [])) ∷ [])) }
{
    put_head(alloc, out, "n", Text::new(alloc))?;
    open(out, "o")?;
    let start = out.len();
    let text = Text::of(alloc, "initiating set")?;
    put_element(out, "msg", &Value::Str(text))?;
    close(out, start)
}

fn put_insert(out: &mut Vec<u8>, ns: &NsName, doc: &Doc) -> Result<(), AllocError>
    ensures { OnOk result (out.new.items ≡ out.old.items ++ elements_of (body_fields (document_body (codes "i") ns.now doc.now) [])) }
{
    put_heading(out, b'i', ns)?;
    put_document(out, "o", doc)
}

fn put_delete(out: &mut Vec<u8>, ns: &NsName, id: &Value) -> Result<(), AllocError>
    ensures { OnOk result (out.new.items ≡ out.old.items ++ elements_of (body_fields (document_body (codes "d") ns.now (id_alone id.now)) [])) }
{
    put_heading(out, b'd', ns)?;
    put_id(out, "o", id)
}

/// Appends the operation, the namespace and `o2` of an update.
pub(crate) fn put_update_head(out: &mut Vec<u8>, ns: &NsName, id: &Value) -> Result<(), AllocError>
    ensures { OnOk result (out.new.items ≡ out.old.items ++ elements_of ((codes "op", Str (codes "u")) ∷ (codes "ns", Str (namespace_text ns.now.db ns.now.coll)) ∷ (codes "o2", Object (id_alone id.now)) ∷ [])) }
{
    put_heading(out, b'u', ns)?;
    put_id(out, "o2", id)
}

fn put_whole(out: &mut Vec<u8>, ns: &NsName, id: &Value, doc: &Doc) -> Result<(), AllocError>
    ensures { OnOk result (out.new.items ≡ out.old.items ++ elements_of (body_fields (update_body ns.now id.now doc.now) [])) }
{
    put_update_head(out, ns, id)?;
    put_document(out, "o", doc)
}

/// Appends the fields of a delta.
pub(crate) fn put_form(
    alloc: Global,
    out: &mut Vec<u8>,
    form: Form,
    touches: &[Touch],
) -> Result<(), AllocError>
    ensures { OnOk result (out.new.items ≡ out.old.items ++ elements_of (written form level_limit touches.now)) }
{
    match form {
        Form::V1 => put_first_form(alloc, out, touches),
        Form::V2 => put_second_form(alloc, out, touches),
    }
}

fn put_delta(
    alloc: Global,
    out: &mut Vec<u8>,
    ns: &NsName,
    id: &Value,
    form: Form,
    touches: &[Touch],
) -> Result<(), AllocError>
    ensures { OnOk result (out.new.items ≡ out.old.items ++ elements_of (body_fields (update_body ns.now id.now (written form level_limit touches.now)) [])) }
{
    put_update_head(out, ns, id)?;
    open(out, "o")?;
    let start = out.len();
    put_form(alloc, out, form, touches)?;
    close(out, start)
}

/// Appends a command: its name, what it says of it, and further fields.
fn put_command(
    alloc: Global,
    out: &mut Vec<u8>,
    ns: &NsName,
    name: &str,
    value: &Value,
    fields: &[(CText, Value)],
) -> Result<(), AllocError>
    ensures { OnOk result (out.new.items ≡ out.old.items ++ elements_of (body_fields (command_body ns.now name.now value.now fields.now) [])) }
{
    let text = namespace_text(alloc, ns.db.as_str(), "$cmd")?;
    put_head(alloc, out, "c", text)?;
    open(out, "o")?;
    let start = out.len();
    put_element(out, name, value)?;
    put_fields(out, fields)?;
    close(out, start)
}

/// Appends a command on a collection.
fn put_on_collection(
    alloc: Global,
    out: &mut Vec<u8>,
    ns: &NsName,
    name: &str,
    fields: &[(CText, Value)],
) -> Result<(), AllocError>
    ensures { OnOk result (out.new.items ≡ out.old.items ++ elements_of (body_fields (command_body ns.now name.now (Str ns.now.coll) fields.now) [])) }
{
    let coll = Value::Str(ns.coll.copy(alloc)?);
    put_command(alloc, out, ns, name, &coll, fields)
}

/// One field with a text.
fn text_field(alloc: Global, name: &str, text: Text) -> Result<Doc, AllocError>
    requires { Contains name.now 0 → ⊥ }
    ensures { IfOk result (λ doc. doc ≡ (name.now, Str text) ∷ []) }
{
    let mut doc = Fields::new(alloc);
    doc.add(CText::of_text(alloc, name)?, Value::Str(text))?;
    Ok(doc)
}

fn put_rename(
    alloc: Global,
    out: &mut Vec<u8>,
    ns: &NsName,
    from: &NsName,
    to: &NsName,
) -> Result<(), AllocError>
    ensures { OnOk result (out.new.items ≡ out.old.items ++ elements_of (body_fields (command_body ns.now (codes "renameCollection") (Str (text_of from.now)) ((codes "to", Str (text_of to.now)) ∷ [])) [])) }
{
    let name = Value::Str(name_text(alloc, from)?);
    let fields = text_field(alloc, "to", name_text(alloc, to)?)?;
    put_command(alloc, out, ns, "renameCollection", &name, fields.entries())
}

fn put_drop_index(
    alloc: Global,
    out: &mut Vec<u8>,
    ns: &NsName,
    name: &Text,
) -> Result<(), AllocError>
    ensures { OnOk result (out.new.items ≡ out.old.items ++ elements_of (body_fields (command_body ns.now (codes "dropIndexes") (Str ns.now.coll) ((codes "index", Str name.now) ∷ [])) [])) }
{
    let fields = text_field(alloc, "index", name.copy(alloc)?)?;
    put_on_collection(alloc, out, ns, "dropIndexes", fields.entries())
}

fn put_indexes(
    alloc: Global,
    out: &mut Vec<u8>,
    ns: &NsName,
    defs: &[Doc],
) -> Result<(), AllocError>
    ensures { OnOk result (out.new.items ≡ out.old.items ++ elements_of (body_fields (command_body ns.now (codes "createIndexes") (Str ns.now.coll) (one_definition defs.now)) [])) }
{
    match defs.first() {
        Some(def) => put_on_collection(alloc, out, ns, "createIndexes", def.entries()),
        None => put_on_collection(alloc, out, ns, "createIndexes", &[]),
    }
}

/// Appends what is written of an action, with no items of a group.
pub(crate) fn put_plain(
    alloc: Global,
    out: &mut Vec<u8>,
    ns: &NsName,
    action: &Action,
) -> Result<(), AllocError>
    ensures { OnOk result (out.new.items ≡ out.old.items ++ elements_of (plain_fields ns.now action.now)) }
{
    match action {
        Action::Nothing => put_nothing(alloc, out),
        Action::Put { doc } => put_insert(out, ns, doc),
        Action::Remove { id } => put_delete(out, ns, id),
        Action::Whole { id, doc } => put_whole(out, ns, id, doc),
        Action::Delta { id, form, touches } => {
            put_delta(alloc, out, ns, id, *form, touches.as_slice())
        }
        Action::Create { options } => {
            put_on_collection(alloc, out, ns, "create", options.entries())
        }
        Action::DropColl => put_on_collection(alloc, out, ns, "drop", &[]),
        Action::DropDb => put_command(alloc, out, ns, "dropDatabase", &Value::Int(1), &[]),
        Action::AddIndexes { defs } => put_indexes(alloc, out, ns, defs.as_slice()),
        Action::DropIndex { name } => put_drop_index(alloc, out, ns, name),
        Action::Rename { from, to } => put_rename(alloc, out, ns, from, to),
        Action::Group { .. } => {
            let none = Value::Array(List::new(alloc));
            put_command(alloc, out, ns, "applyOps", &none, &[])
        }
        Action::Other { name } => put_on_collection(alloc, out, ns, name.as_str(), &[]),
    }
}
