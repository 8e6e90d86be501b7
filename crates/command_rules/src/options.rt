//! Options of collections that are to be made.
ghost use Rattle.std.specs.Prelude.{◌≡◌, ◌||◌, codes, nat_le, IfOk};
ghost use Rattle.bson_value.specs.declared.value.Value.{Object};
ghost use Rattle.bson_value.specs.Levels.{levels_of};
ghost use Rattle.extjson.specs.Trees.{tree_of};
ghost use Rattle.history_model.specs.Documents.{has_field, is_short, options_of, are_good_options};

use bson_value::{Doc, Value};
use extjson::tree_of;
use json_text::print;
use json_tree::Tree;
use std::alloc::{AllocError, Global};

/// Options and definitions have at most so many levels.
const LEVEL_LIMIT: usize = 100;

/// Options and definitions print to at most so many bytes.
const PRINT_LIMIT: usize = 8192;

/// Whether a document has one of two fields.
pub(crate) fn has_either(doc: &Doc, name: &str, other: &str) -> bool
    ensures { result ≡ (has_field name.now doc.now || has_field other.now doc.now) }
{
    doc.get(name).is_some() || doc.get(other).is_some()
}

/// Whether a document has at most 100 levels. One of more than 2^64 - 1 bytes finds no memory.
pub(crate) fn is_shallow(doc: &Doc) -> Result<bool, AllocError>
    ensures { IfOk result (λ shallow. shallow ≡ nat_le (levels_of doc.now) 100) }
{
    if doc.fits(usize::MAX, LEVEL_LIMIT) {
        return Ok(true);
    }
    if doc.fits(usize::MAX, usize::MAX) {
        Ok(false)
    } else {
        Err(AllocError)
    }
}

/// Whether a value of JSON prints to at most 8,192 bytes.
pub(crate) fn is_short(alloc: Global, tree: &Tree) -> Result<bool, AllocError>
    ensures { IfOk result (λ short. short ≡ is_short tree.now) }
{
    let text = print(alloc, tree)?;
    Ok(text.len() <= PRINT_LIMIT)
}

/// A document as a value of JSON.
pub(crate) fn tree_in(alloc: Global, doc: &Doc) -> Result<Tree, AllocError>
    ensures { IfOk result (λ tree. tree ≡ tree_of (Object doc.now)) }
{
    let value = Value::Object(doc.copy(alloc)?);
    tree_of(alloc, &value)
}

/// The options as a state keeps them, as canonical JSON. They are copied once meanwhile.
#[tactic(auto, unfolding(history_model::specs::Documents::options_of))]
pub fn options_of(alloc: Global, options: &Doc) -> Result<Tree, AllocError>
    ensures { IfOk result (λ tree. tree ≡ options_of options.now) }
{
    tree_in(alloc, options)
}

/// Whether a collection may be made with these options: they have no field `create` or `idIndex`, print
/// to at most 8,192 bytes, and have at most 100 levels. `tree` is what `options_of` makes of them.
#[tactic(auto, unfolding(history_model::specs::Documents::are_good_options))]
pub fn are_good_options(alloc: Global, options: &Doc, tree: &Tree) -> Result<bool, AllocError>
    requires { tree.now ≡ options_of options.now }
    ensures { IfOk result (λ good. good ≡ are_good_options options.now) }
{
    if has_either(options, "create", "idIndex") {
        return Ok(false);
    }
    let short = is_short(alloc, tree)?;
    let shallow = is_shallow(options)?;
    Ok(short && shallow)
}
