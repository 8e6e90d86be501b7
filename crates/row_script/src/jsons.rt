//! Values and documents that stand as JSON, and what is shown of them.
ghost use Rattle.std.specs.Prelude.{◌≡◌, IfOk, string_bytes};
ghost use Rattle.json_text.specs.Print.{text_of};
ghost use Rattle.row_script.specs.Jsons.{Write, WriteValue, value_text};

use crate::texts::refused;
use anyhow::Result;
use bson_value::{Doc, Value};
use extjson::{tree_of, value_of};
use json_text::{parse, print};
use json_tree::Tree;
use std::alloc::Global;

/// The value that the text writes.
#[tactic(auto, unfolding(crate::specs::Jsons::WriteValue))]
pub fn value(alloc: Global, text: &str) -> Result<Value>
    ensures { IfOk result (λ value. WriteValue text.now value) }
{
    let tree = parse(alloc, text)?;
    Ok(value_of(alloc, &tree)?)
}

/// The document that the text writes.
pub fn document(alloc: Global, text: &str) -> Result<Doc>
    ensures { IfOk result (λ doc. Write text.now doc) }
{
    match value(alloc, text)? {
        Value::Object(doc) => Ok(doc),
        _ => refused("no document"),
    }
}

/// The text of a tree.
pub fn text_of(alloc: Global, tree: &Tree) -> Result<String>
    ensures { IfOk result (λ text. string_bytes text ≡ text_of tree.now) }
{
    let text = print(alloc, tree)?;
    Ok(text.into_string()?)
}

/// A value as JSON.
#[tactic(auto, unfolding(crate::specs::Jsons::value_text))]
pub fn shown(alloc: Global, value: &Value) -> Result<String>
    ensures { IfOk result (λ text. string_bytes text ≡ value_text value.now) }
{
    let tree = tree_of(alloc, value)?;
    text_of(alloc, &tree)
}
