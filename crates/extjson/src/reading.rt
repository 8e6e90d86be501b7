//! The value of a tree.
ghost use Rattle.std.specs.Prelude.{◌≡◌, IfOk, map, true};
ghost use Rattle.containers.specs.Entries.{AreDistinct, names_of};
ghost use Rattle.bson_value.specs.WellFormed.{IsWellFormed};
ghost use Rattle.extjson.specs.Values.{Gives, without_zero, scope_of, scoped_value, wrapper_value, items_value, fields_value, has_wrapper, object_value, plain_value, value_of, parts_of};

use crate::fault::ExtFault;
use crate::numbers::{is_whole, to_int, to_long};
use crate::parts::{both, string, without_zero};
use crate::wrapped::wrapped;
use crate::wrapper::Wrapper;
use bson_value::{BoxedText, CText, Doc, Fields, List, Value};
use containers::Text as JText;
use json_tree::Tree;
use std::alloc::Global;

// A number that stands by itself.
#[tactic(auto, unfolding(crate::specs::Values::plain_value, crate::specs::Values::whole_value))]
fn plain(text: &str) -> Result<Value, ExtFault>
    ensures { Gives (λ v. v) result (plain_value text.now) }
{
    if !is_whole(text.as_bytes()) {
        return Err(ExtFault::Double);
    }
    if let Some(int) = to_int(text) {
        return Ok(Value::Int(int));
    }
    match to_long(text) {
        Some(long) => Ok(Value::Long(long)),
        None => Err(ExtFault::Range),
    }
}

#[tactic(auto, unfolding(crate::specs::Values::has_wrapper))]
fn has_wrapper(entries: &[(JText, Tree)]) -> bool
    ensures { result ≡ has_wrapper entries.now }
{
    entries
        .iter()
        .any(|entry| Wrapper::named(entry.0.as_str()).is_some())
}

#[cycle(value_of)]
fn value(alloc: Global, tree: &Tree) -> Result<Value, ExtFault>
    ensures { Gives (λ v. v) result (value_of tree.now) }
{
    match tree {
        Tree::Null => Ok(Value::Null),
        Tree::Bool(b) => Ok(Value::Bool(*b)),
        Tree::Number(text) => plain(text.as_str()),
        Tree::Str(text) => Ok(Value::Str(text.copy(alloc)?)),
        Tree::Items(trees) => Ok(Value::Array(items(alloc, trees.as_slice())?)),
        Tree::Object(fields) => object(alloc, fields.entries()),
    }
}

#[cycle(value_of)]
fn items(alloc: Global, trees: &[Tree]) -> Result<List<Value>, ExtFault>
    ensures { Gives (λ vs. vs) result (items_value (map value_of trees.now)) }
{
    let mut values = List::with_capacity(alloc, trees.len())?;
    for tree in trees {
        values.push(value(alloc, tree)?)?;
    }
    Ok(values)
}

#[cycle(value_of)]
fn object(alloc: Global, entries: &[(JText, Tree)]) -> Result<Value, ExtFault>
    requires { AreDistinct (names_of entries.now) }
    ensures { Gives (λ v. v) result (object_value (parts_of entries.now)) }
{
    if !has_wrapper(entries) {
        return Ok(Value::Object(fields(alloc, entries)?));
    }
    match entries {
        [] => Err(ExtFault::BadWrapper),
        [entry] => wrapped(alloc, Wrapper::named(entry.0.as_str()), &entry.1),
        _ => scoped(alloc, entries),
    }
}

#[cycle(value_of)]
fn scoped(alloc: Global, entries: &[(JText, Tree)]) -> Result<Value, ExtFault>
    ensures { Gives (λ v. v) result (scoped_value (parts_of entries.now)) }
{
    let (code, scope) = both("$code", "$scope", entries)?;
    let code = BoxedText::of(alloc, string(code)?)?;
    let scope = document(alloc, scope)?;
    Ok(Value::ScopedCode { code, scope })
}

#[cycle(value_of)]
fn document(alloc: Global, tree: &Tree) -> Result<Doc, ExtFault>
    ensures { Gives (λ d. d) result (scope_of (value_of tree.now)) }
{
    match value(alloc, tree) {
        Ok(Value::Object(doc)) => Ok(doc),
        Err(ExtFault::NoMemory) => Err(ExtFault::NoMemory),
        _ => Err(ExtFault::BadWrapper),
    }
}

#[cycle(value_of)]
fn fields(alloc: Global, entries: &[(JText, Tree)]) -> Result<Doc, ExtFault>
    requires { AreDistinct (names_of entries.now) }
    ensures { Gives (λ d. d) result (fields_value (parts_of entries.now)) }
{
    let mut fields = Vec::with_capacity(alloc, entries.len())?;
    for entry in entries {
        let name = without_zero(alloc, entry.0.as_str())?;
        let value = value(alloc, &entry.1)?;
        fields.push((name, value))?;
    }
    Ok(Fields::of_distinct(fields))
}

/// The value that a JSON value stands for, by the table of docs/extended-json.md. The fault is the first
/// in the order of the text, where an object is looked at for an outermost `$` name before its members.
pub fn value_of(alloc: Global, tree: &Tree) -> Result<Value, ExtFault>
    ensures gives { Gives (λ v. v) result (value_of tree.now) }
    ensures well_formed { IfOk result (λ v. IsWellFormed v) }
{
    let value = value(alloc, tree)?;
    value.is_well_formed();
    Ok(value)
}
