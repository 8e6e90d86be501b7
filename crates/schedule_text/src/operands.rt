//! What operands mean: numbers, names and documents.
ghost use Rattle.std.specs.Prelude.{◌≡◌, ◌<◌, ◌≤◌, ◌^◌};
ghost use Rattle.schedule_text.specs.Operands.{Gives, number_in, name_of, tree_in, value_in, document_of, document_in, identified, alone};

use crate::fault::{LineKind, StatementFault};
use bson_value::{Doc, NsName, Value, index_of};
use extjson::ExtFault;
use json_text::{JsonFault, parse};
use json_tree::Tree;
use plain_json::plain_document;
use std::alloc::Global;

/// A number within these bounds.
#[tactic(auto, unfolding(crate::specs::Operands::number_in))]
pub(crate) fn number(low: u32, high: u32, text: &str) -> Result<u32, StatementFault>
    ensures { Gives (λ n. n) result (number_in low high text.now) }
{
    match index_of(text) {
        Some(number) if low as usize <= number && number <= high as usize => Ok(number as u32),
        _ => Err(StatementFault::Bad(LineKind::Number)),
    }
}

/// A namespace.
pub(crate) fn name(alloc: Global, text: &str) -> Result<NsName, StatementFault>
    ensures { Gives (λ ns. ns) result (name_of text.now) }
{
    let found = NsName::split(alloc, text)?;
    match found {
        Some(name) => Ok(name),
        None => Err(StatementFault::Bad(LineKind::Name)),
    }
}

#[tactic(auto, unfolding(crate::specs::Operands::tree_in))]
fn tree(alloc: Global, text: &str) -> Result<Tree, StatementFault>
    ensures { Gives (λ t. t) result (tree_in text.now) }
{
    match parse(alloc, text) {
        Ok(tree) => Ok(tree),
        Err(JsonFault::NoMemory) => Err(StatementFault::NoMemory),
        Err(JsonFault::Bad { .. }) => Err(StatementFault::Bad(LineKind::Json)),
    }
}

#[tactic(auto, unfolding(crate::specs::Operands::value_in))]
fn value(alloc: Global, tree: &Tree) -> Result<Value, StatementFault>
    ensures { Gives (λ v. v) result (value_in tree.now) }
{
    match extjson::value_of(alloc, tree) {
        Ok(value) => Ok(value),
        Err(ExtFault::NoMemory) => Err(StatementFault::NoMemory),
        Err(_) => Err(StatementFault::Bad(LineKind::Extended)),
    }
}

#[tactic(auto, unfolding(crate::specs::Operands::document_of))]
fn document_of(value: Value) -> Result<Doc, StatementFault>
    ensures { Gives (λ d. d) result (document_of value) }
{
    match value {
        Value::Object(doc) => Ok(doc),
        _ => Err(StatementFault::Bad(LineKind::Shape)),
    }
}

// The same by the text's tree.
#[tactic(auto, unfolding(crate::specs::Operands::document_in))]
fn document_by_tree(alloc: Global, text: &str) -> Result<Doc, StatementFault>
    ensures { Gives (λ d. d) result (document_in text.now) }
{
    let tree = tree(alloc, text)?;
    let value = value(alloc, &tree)?;
    document_of(value)
}

/// The document that a JSON text is. A plain one is read without its tree.
pub(crate) fn document(alloc: Global, text: &str) -> Result<Doc, StatementFault>
    ensures { Gives (λ d. d) result (document_in text.now) }
{
    let plain = plain_document(alloc, text)?;
    match plain {
        Some(doc) => Ok(doc),
        None => document_by_tree(alloc, text),
    }
}

/// The `_id` of a document, and its other fields.
#[tactic(auto, unfolding(crate::specs::Operands::identified))]
pub(crate) fn identified(mut doc: Doc) -> Result<(Value, Doc), StatementFault>
    ensures { Gives (λ x. x) result (identified doc) }
{
    match doc.remove("_id") {
        Some(id) => Ok((id, doc)),
        None => Err(StatementFault::Bad(LineKind::Shape)),
    }
}

/// The `_id`, where no other field stands beside it.
pub(crate) fn alone(id: Value, others: Doc) -> Result<Value, StatementFault>
    ensures { Gives (λ v. v) result (alone (id, others)) }
{
    if others.len() == 0 {
        Ok(id)
    } else {
        Err(StatementFault::Bad(LineKind::Shape))
    }
}
