//! Values from texts and from bytes, as texts.
ghost use Rattle.std.specs.Prelude.{◌≡◌, ◌%◌, ℕ, List, IfOk, Ok, string_bytes};
ghost use Rattle.hex.specs.Hex.{decode_of};
ghost use Rattle.row_script.specs.Rows.{before_blank, behind_blank};
ghost use Rattle.bson_value.specs.declared.value.Value.{Value as Datum};
ghost use Rattle.json_tree.specs.declared.tree.Tree.{Tree as Trees};
ghost use Rattle.json_text.specs.Print.{text_of};
ghost use Rattle.json_text.specs.Reading.{tree_of_text};
ghost use Rattle.extjson.specs.Plain.{wrapped_numbers};
ghost use Rattle.extjson.specs.Values.{value_of};
ghost use Rattle.row_script.specs.Jsons.{value_text};
ghost use Rattle.row_script.specs.Texts.{number_of};
ghost use Rattle.json_rows.specs.Rows.{value_in};

use anyhow::Result;
use bson_core::decode_value;
use extjson::{ExtFault, value_of, wrap_numbers};
use json_text::parse;
use json_tree::Tree;
use row_script::jsons::{shown, text_of};
use row_script::{bytes, number, refused, words};
use std::alloc::{AllocError, Global};

// The text of the value that a tree is, or its fault.
fn read_of(alloc: Global, tree: &Tree) -> Result<String>
    ensures { (value : Datum) → value_of tree.now ≡ Ok value → IfOk result (λ t. string_bytes t ≡ value_text value) }
{
    match value_of(alloc, tree) {
        Ok(value) => shown(alloc, &value),
        Err(ExtFault::NoMemory) => Err(AllocError)?,
        Err(fault) => Ok(format!(in alloc; "{fault:?}")?),
    }
}

/// The text of the value that a text is, or its fault.
pub fn read(alloc: Global, text: &str) -> Result<String>
    ensures { (tree : Trees) (value : Datum) → tree_of_text text.now ≡ Ok tree → value_of tree ≡ Ok value → IfOk result (λ t. string_bytes t ≡ value_text value) }
{
    let tree = parse(alloc, text)?;
    read_of(alloc, &tree)
}

// The text of the value of a type that bytes spell.
#[tactic(auto, unfolding(crate::specs::Rows::value_in))]
fn decoded_of(alloc: Global, tag: u8, bytes: &[u8]) -> Result<String>
    ensures { IfOk result (λ t. (value : Datum) × (value_in tag bytes.now ≡ Ok value) × (string_bytes t ≡ value_text value)) }
{
    match decode_value(alloc, tag, bytes) {
        Ok(value) => shown(alloc, &value),
        Err(_) => refused("no value"),
    }
}

/// The text of the value of a type, modulo 256, that bytes spell.
pub fn decoded(alloc: Global, text: &str) -> Result<String>
    ensures { IfOk result (λ t. (bytes : List ℕ) × (value : Datum) × (decode_of (behind_blank text.now) ≡ Ok bytes)
        × (value_in (number_of (before_blank text.now) % 256) bytes ≡ Ok value) × (string_bytes t ≡ value_text value)) }
{
    let (tag, digits) = words(text)?;
    let tag = (number(tag)? % 256) as u8;
    let bytes = bytes(alloc, digits)?;
    decoded_of(alloc, tag, &bytes)
}

fn wrapped_of(alloc: Global, tree: &Tree) -> Result<String>
    ensures { IfOk result (λ t. string_bytes t ≡ text_of (wrapped_numbers tree.now)) }
{
    let wrapped = wrap_numbers(alloc, tree)?;
    text_of(alloc, &wrapped)
}

/// A text with its plain whole numbers as wrappers.
pub fn wrapped(alloc: Global, text: &str) -> Result<String>
    ensures { (tree : Trees) → tree_of_text text.now ≡ Ok tree → IfOk result (λ t. string_bytes t ≡ text_of (wrapped_numbers tree)) }
{
    let tree = parse(alloc, text)?;
    wrapped_of(alloc, &tree)
}
