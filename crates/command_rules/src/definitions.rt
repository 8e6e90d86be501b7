//! Index definitions that are to be added.
ghost use Rattle.std.specs.Prelude.{◌≡◌, ◌&&◌, ◌||◌, not, codes, IfOk};
ghost use Rattle.std.specs.Option.{option_copied};
ghost use Rattle.containers.specs.Entries.{lookup};
ghost use Rattle.history_model.specs.Documents.{is_key, is_a_name, text_of_value, name_of, is_short_form, normal_of, is_good_definition};

use crate::options::{has_either, is_shallow, is_short, tree_in};
use bson_value::{Doc, Value};
use index_keys::normal;
use json_tree::Tree;
use std::alloc::{AllocError, Global};

/// The normal form of a definition; none where its `key` is no document, or its `name` no text. The
/// definition is copied once meanwhile.
#[tactic(auto, unfolding(history_model::specs::Documents::normal_of))]
pub fn normal_of(alloc: Global, def: &Doc) -> Result<Option<Tree>, AllocError>
    ensures { IfOk result (λ tree. tree ≡ normal_of def.now) }
{
    let tree = tree_in(alloc, def)?;
    normal(alloc, &tree)
}

// A document with a field.
fn is_key(value: Option<&Value>) -> bool
    ensures { result ≡ is_key (option_copied value.entry) }
{
    match value {
        Some(Value::Object(doc)) => doc.len() != 0,
        _ => false,
    }
}

fn text_of(value: Option<&Value>) -> Option<&str>
    ensures { option_copied result ≡ text_of_value (option_copied value.entry) }
{
    match value {
        Some(Value::Str(text)) => Some(text.as_str()),
        _ => None,
    }
}

/// The name of a definition, where it is a text.
pub fn name_of(def: &Doc) -> Option<&str>
    ensures { option_copied result ≡ name_of def.now }
{
    text_of(def.get("name"))
}

fn is_a_name(name: Option<&str>) -> bool
    ensures { result ≡ is_a_name (option_copied name.entry) }
{
    match name {
        Some(name) => !name.is_empty(),
        None => false,
    }
}

fn is_short_form(alloc: Global, form: Option<&Tree>) -> Result<bool, AllocError>
    ensures { IfOk result (λ short. short ≡ is_short_form (option_copied form.entry)) }
{
    match form {
        Some(form) => is_short(alloc, form),
        None => Ok(false),
    }
}

/// Whether a definition may be added: its `key` is a document with a field, its `name` a text that isn't
/// empty, it has no field `createIndexes` or `ns`, its normal form prints to at most 8,192 bytes, and it
/// has at most 100 levels. `form` is what `normal_of` makes of it.
#[tactic(auto, unfolding(history_model::specs::Documents::is_good_definition))]
pub fn is_good_definition(alloc: Global, def: &Doc, form: Option<&Tree>) -> Result<bool, AllocError>
    requires { option_copied form ≡ normal_of def.now }
    ensures { IfOk result (λ good. good ≡ is_good_definition def.now) }
{
    if !(is_key(def.get("key")) && is_a_name(name_of(def))) {
        return Ok(false);
    }
    if has_either(def, "createIndexes", "ns") {
        return Ok(false);
    }
    let short = is_short_form(alloc, form)?;
    let shallow = is_shallow(def)?;
    Ok(short && shallow)
}
