//! Keys of `_id`s, of the values of first fields.
ghost use Rattle.std.specs.Prelude.{◌≡◌, ◌∷◌, Ok, ℕ, List, IfOk, string_bytes};
ghost use Rattle.std.specs.Ordering.{nat_cmp};
ghost use Rattle.std.specs.Cmp.Lexicographic.{slice_cmp};
ghost use Rattle.hex.specs.Hex.{decode_of, encode_lower};
ghost use Rattle.bson_value.specs.declared.value.Value.{Value as Datum};
ghost use Rattle.bson_encode.specs.Key.{key_of};
ghost use Rattle.row_script.specs.Rows.{before_blank, behind_blank};
ghost use Rattle.bson_rows.specs.Rows.{AreComparedSo, IsFirst, order_word};

use crate::edits::first_value;
use crate::texts::order_word;
use anyhow::Result;
use bson_encode::{cmp_key, cmp_keys, put_key};
use bson_value::Value;
use row_script::{answer, digits, refused, words};
use std::alloc::Global;

// The byte ff, and behind it the key of this value.
fn key_behind_ff(alloc: Global, value: &Value) -> Result<String>
    ensures { IfOk result (λ answer. string_bytes answer ≡ encode_lower (255 ∷ key_of value.now)) }
{
    let mut out = vec![in alloc; 255u8]?;
    put_key(&mut out, value)?;
    digits(alloc, out.as_slice())
}

/// The byte ff, and behind it the key of a value.
pub fn key(alloc: Global, text: &str) -> Result<String>
    ensures { IfOk result (λ answer. (field : List ℕ × Datum) × IsFirst text.now field × (string_bytes answer ≡ encode_lower (255 ∷ key_of field.1))) }
{
    let value = first_value(alloc, text)?;
    key_behind_ff(alloc, &value)
}

fn key_order(alloc: Global, value: &Value, key: &[u8]) -> Result<String>
    ensures { IfOk result (λ answer. string_bytes answer ≡ order_word (slice_cmp nat_cmp (key_of value.now) key.now)) }
{
    match key.split_first() {
        Some((tag, bytes)) => answer(alloc, order_word(cmp_key(value, *tag, bytes))),
        None => refused("no type"),
    }
}

// How the key of a value stands to the bytes that the digits write.
fn order_to_written(alloc: Global, value: &Value, digits: &str) -> Result<String>
    ensures { IfOk result (λ answer. (key : List ℕ) × (decode_of digits.now ≡ Ok key)
        × (string_bytes answer ≡ order_word (slice_cmp nat_cmp (key_of value.now) key))) }
{
    let key = row_script::bytes(alloc, digits)?;
    key_order(alloc, value, &key)
}

/// How the key of a value stands to bytes.
pub fn compared_key(alloc: Global, text: &str) -> Result<String>
    ensures { IfOk result (λ answer. (field : List ℕ × Datum) × (key : List ℕ) × IsFirst (before_blank text.now) field
        × (decode_of (behind_blank text.now) ≡ Ok key) × (string_bytes answer ≡ order_word (slice_cmp nat_cmp (key_of field.1) key))) }
{
    let (field, key) = words(text)?;
    let value = first_value(alloc, field)?;
    order_to_written(alloc, &value, key)
}

#[tactic(auto, unfolding(crate::specs::Rows::AreComparedSo))]
fn keys_order(alloc: Global, first: &Value, second: &Value) -> Result<String>
    ensures { IfOk result (λ answer. AreComparedSo first.now second.now (string_bytes answer)) }
{
    answer(alloc, order_word(cmp_keys(first, second)))
}

// How the key of a value stands to that of the first field of the document that the digits write.
fn order_to_field(alloc: Global, first: &Value, text: &str) -> Result<String>
    ensures { IfOk result (λ answer. (second : List ℕ × Datum) × IsFirst text.now second
        × AreComparedSo first.now second.1 (string_bytes answer)) }
{
    let second = first_value(alloc, text)?;
    keys_order(alloc, first, &second)
}

/// How the key of a value stands to that of another one.
pub fn compared_keys(alloc: Global, text: &str) -> Result<String>
    ensures { IfOk result (λ answer. (first : List ℕ × Datum) × (second : List ℕ × Datum) × IsFirst (before_blank text.now) first × IsFirst (behind_blank text.now) second
        × AreComparedSo first.1 second.1 (string_bytes answer)) }
{
    let (first, second) = words(text)?;
    let first = first_value(alloc, first)?;
    order_to_field(alloc, &first, second)
}
