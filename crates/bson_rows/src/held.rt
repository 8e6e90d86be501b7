//! Fields of documents that are held. Each answer is that of the spelled document, and then that of the built one.
ghost use Rattle.std.specs.Prelude.{◌≡◌, ◌↔◌, ◌++◌, ℕ, Bool, IfOk, IfSome, IsTrue, List, Some, codes, is_some, option_map, slice_get, string_bytes};
ghost use Rattle.std.specs.Fmt.{debug_option, debug_str, decimal};
ghost use Rattle.containers.specs.Entries.{lookup};
ghost use Rattle.bson_value.specs.Spelling.{tag_of};
ghost use Rattle.bson_value.specs.declared.value.Value.{out-Value};
ghost use Rattle.bson_view.specs.Held.{held_document, held_value};
ghost use Rattle.bson_view.specs.HeldWalk.{field_of, fields_in, items_in, items_left};
ghost use Rattle.bson_view.specs.Meaning.{document_in};
ghost use Rattle.bson_view.specs.References.{str_in, value_meant};
ghost use Rattle.row_script.specs.Rows.{before_blank, behind_blank};
ghost use Rattle.bson_rows.specs.Rows.{ShowsValue, code_text, field_text, fields_of, inner_text, int_of, int_within, item_text, items_of, nth_item, number_of, number_text, read_text, scoped_text, shown_of_both, signed_text, sizes_text, stamp_text, truth_text, truths_text, walked_text};

use crate::texts::joined;
use crate::views::view;
use anyhow::Result;
use bson_value::{Doc, Ts, Value};
use bson_view::{Held, HeldField, HeldItems, HeldValue, ValueRef};
use row_script::{answer, number, refused, words};
use std::alloc::{AllocError, Global};

pub fn tag_of(value: Option<HeldValue<'_>>) -> Option<u8>
    ensures { result ≡ option_map tag_of (option_map held_value value.entry) }
{
    let value = value?;
    Some(value.tag())
}

// The answer of the spelled document, and that of the built one.
fn both(alloc: Global, spelled: &str, built: &str) -> Result<String>
    ensures { IfOk result (λ answer. string_bytes answer ≡ spelled.now ++ codes ", " ++ built.now) }
{
    Ok(format!(in alloc; "{spelled}, {built}")?)
}

fn nth_field<'a>(held: Held<'a>, place: usize) -> Option<HeldField<'a>>
    ensures { option_map field_of result ≡ slice_get (held_document held.entry) place }
{
    held.fields().nth(place)
}

fn has_fields(value: &HeldValue<'_>) -> bool
    ensures { result ≡ is_some (fields_in (out-Value (held_value value.now))) }
{
    value.fields().is_some()
}

fn has_items(value: &HeldValue<'_>) -> bool
    ensures { result ≡ is_some (items_in (out-Value (held_value value.now))) }
{
    value.items().is_some()
}

fn field_line(alloc: Global, name: &str, tag: u8, fields: bool, items: bool) -> Result<String>
    ensures { IfOk result (λ answer. string_bytes answer ≡ name.now ++ codes " " ++ decimal tag ++ codes " " ++ truth_text fields ++ codes " " ++ truth_text items) }
{
    Ok(format!(in alloc; "{name} {tag} {fields} {items}")?)
}

// The name and the type of a field, and whether it has fields and items.
fn field_text(alloc: Global, field: Option<HeldField<'_>>) -> Result<String>
    ensures { IfOk result (λ answer. string_bytes answer ≡ field_text (option_map field_of field.entry)) }
{
    match field {
        Some(HeldField { name, value }) => {
            let fields = has_fields(&value);
            let items = has_items(&value);
            field_line(alloc, name, value.tag(), fields, items)
        }
        None => answer(alloc, "none"),
    }
}

fn nth_field_text(alloc: Global, held: Held<'_>, place: usize) -> Result<String>
    ensures { IfOk result (λ answer. string_bytes answer ≡ walked_text place (held_document held.entry)) }
{
    field_text(alloc, nth_field(held, place))
}

/// The field of this number.
pub fn walked(alloc: Global, bytes: &[u8], doc: &Doc, text: &str) -> Result<String>
    ensures { IfOk result (λ answer. string_bytes answer ≡ shown_of_both (walked_text (number_of text.now)) bytes.now doc.now) }
{
    let place = number(text)?;
    let view = view(bytes)?;
    let spelled = nth_field_text(alloc, Held::Spelled(view), place)?;
    let built = nth_field_text(alloc, Held::Built(doc), place)?;
    both(alloc, spelled.as_str(), built.as_str())
}

fn items_of<'a>(held: Held<'a>, name: &str) -> Option<HeldItems<'a>>
    ensures { option_map items_left result ≡ items_of (lookup name.now (held_document held.entry)) }
{
    held.field(name)?.items()
}

fn nth_tag(mut items: HeldItems<'_>, place: usize) -> Option<u8>
    ensures { result ≡ option_map tag_of (slice_get (items_left items.entry) place) }
{
    tag_of(items.nth(place))
}

fn item_tag(held: Held<'_>, name: &str, place: usize) -> Option<u8>
    ensures { result ≡ option_map tag_of (nth_item (items_of (lookup name.now (held_document held.entry))) place) }
{
    nth_tag(items_of(held, name)?, place)
}

fn both_tags(alloc: Global, spelled: Option<u8>, built: Option<u8>) -> Result<String>
    ensures { IfOk result (λ answer. string_bytes answer ≡ number_text spelled ++ codes ", " ++ number_text built) }
{
    Ok(format!(in alloc; "{spelled:?}, {built:?}")?)
}

/// The type of the item of this number of the array of this name.
pub fn item(alloc: Global, bytes: &[u8], doc: &Doc, text: &str) -> Result<String>
    ensures { IfOk result (λ answer. string_bytes answer
        ≡ shown_of_both (item_text (before_blank text.now) (number_of (behind_blank text.now))) bytes.now doc.now) }
{
    let (name, place) = words(text)?;
    let place = number(place)?;
    let view = view(bytes)?;
    let spelled = item_tag(Held::Spelled(view), name, place);
    let built = item_tag(Held::Built(doc), name, place);
    both_tags(alloc, spelled, built)
}

// Whether a value that is held is copied as this one.
fn is_copy(alloc: Global, held: HeldValue<'_>, built: &Value) -> Result<bool, AllocError>
    ensures { IfOk result (λ is_so. IsTrue is_so ↔ (held_value held.entry ≡ built.now)) }
{
    let copy = held.to_value(alloc)?;
    Ok(copy.same(built))
}

// Whether a value that is held is copied as the value of the document.
fn is_copied(alloc: Global, held: Held<'_>, doc: &Doc, name: &str) -> Result<bool>
    ensures { IfOk result (λ is_so. IsTrue is_so ↔ (lookup name.now (held_document held.entry) ≡ lookup name.now doc.now)) }
{
    match (held.field(name), doc.get(name)) {
        (Some(value), Some(built)) => Ok(is_copy(alloc, value, built)?),
        _ => refused("no field"),
    }
}

fn both_truths(alloc: Global, spelled: bool, built: bool) -> Result<String>
    ensures { IfOk result (λ answer. string_bytes answer ≡ truth_text spelled ++ codes ", " ++ truth_text built) }
{
    Ok(format!(in alloc; "{spelled}, {built}")?)
}

/// Whether the copies of a field's value are the value.
pub fn value(alloc: Global, bytes: &[u8], doc: &Doc, name: &str) -> Result<String>
    ensures { IfOk result (λ answer. (is_so : Bool) × (IsTrue is_so ↔ (lookup name.now (document_in bytes.now) ≡ lookup name.now doc.now))
        × (string_bytes answer ≡ truth_text is_so ++ codes ", true")) }
{
    let view = view(bytes)?;
    let spelled = is_copied(alloc, Held::Spelled(view), doc, name)?;
    let built = is_copied(alloc, Held::Built(doc), doc, name)?;
    both_truths(alloc, spelled, built)
}

fn word_text(alloc: Global, value: &ValueRef<'_>) -> Result<String>
    ensures { IfOk result (λ answer. IfSome (debug_option debug_str (str_in value.now)) (λ text. string_bytes answer ≡ text)) }
{
    let text = value.as_str();
    Ok(format!(in alloc; "{text:?}")?)
}

// A value as numbers of 32 and 64 bits.
fn sizes_text(alloc: Global, value: &ValueRef<'_>) -> Result<String>
    ensures { IfOk result (λ answer. string_bytes answer ≡ sizes_text value.now) }
{
    let (int, long) = (value.as_i32(), value.as_i64());
    Ok(format!(in alloc; "{int:?} {long:?}")?)
}

fn stamp_line(alloc: Global, secs: u32, inc: u32) -> Result<String>
    ensures { IfOk result (λ answer. string_bytes answer ≡ stamp_text (Some (record { secs = secs; inc = inc }))) }
{
    Ok(format!(in alloc; "Some(Ts {{ secs: {secs}, inc: {inc} }})")?)
}

fn stamp_text(alloc: Global, stamp: Option<Ts>) -> Result<String>
    ensures { IfOk result (λ answer. string_bytes answer ≡ stamp_text stamp) }
{
    match stamp {
        Some(Ts { secs, inc }) => stamp_line(alloc, secs, inc),
        None => answer(alloc, "None"),
    }
}

// A value as a truth and as a timestamp.
fn truths_text(alloc: Global, value: &ValueRef<'_>) -> Result<String>
    ensures { IfOk result (λ answer. string_bytes answer ≡ truths_text value.now) }
{
    let truth = value.as_bool();
    let stamp = stamp_text(alloc, value.as_ts())?;
    Ok(format!(in alloc; "{truth:?} {stamp}")?)
}

// A value as a text, as numbers of 32 and 64 bits, as a truth and as a timestamp.
fn read_text(alloc: Global, value: &ValueRef<'_>) -> Result<String>
    ensures { IfOk result (λ answer. IfSome (read_text value.now) (λ text. string_bytes answer ≡ text)) }
{
    let text = word_text(alloc, value)?;
    let sizes = sizes_text(alloc, value)?;
    let truths = truths_text(alloc, value)?;
    joined(alloc, text.as_str(), sizes.as_str(), truths.as_str())
}

fn value_text(alloc: Global, held: Held<'_>, name: &str) -> Result<String>
    ensures { IfOk result (λ answer. ShowsValue (lookup name.now (held_document held.entry)) (string_bytes answer)) }
{
    match held.field(name) {
        Some(value) => read_text(alloc, &value.read()),
        None => answer(alloc, "none"),
    }
}

/// The value of a field as one of each type.
pub fn read(alloc: Global, bytes: &[u8], doc: &Doc, name: &str) -> Result<String>
    ensures { IfOk result (λ answer. (spelled : List ℕ) × (built : List ℕ) × ShowsValue (lookup name.now (document_in bytes.now)) spelled
        × ShowsValue (lookup name.now doc.now) built × (string_bytes answer ≡ spelled ++ codes ", " ++ built)) }
{
    let view = view(bytes)?;
    let spelled = value_text(alloc, Held::Spelled(view), name)?;
    let built = value_text(alloc, Held::Built(doc), name)?;
    both(alloc, spelled.as_str(), built.as_str())
}

fn int_of(value: Option<HeldValue<'_>>) -> Option<i32>
    ensures { result ≡ int_of (option_map held_value value.entry) }
{
    value?.read().as_i32()
}

fn inner_document<'a>(held: Held<'a>, outer: &str) -> Option<Held<'a>>
    ensures { option_map held_document result ≡ fields_of (lookup outer.now (held_document held.entry)) }
{
    held.field(outer)?.read().as_document()
}

fn inner_number(held: Held<'_>, outer: &str, name: &str) -> Option<i32>
    ensures { result ≡ int_within (fields_of (lookup outer.now (held_document held.entry))) name.now }
{
    int_of(inner_document(held, outer)?.field(name))
}

fn both_numbers(alloc: Global, spelled: Option<i32>, built: Option<i32>) -> Result<String>
    ensures { IfOk result (λ answer. string_bytes answer ≡ signed_text spelled ++ codes ", " ++ signed_text built) }
{
    Ok(format!(in alloc; "{spelled:?}, {built:?}")?)
}

/// The number of 32 bits in the document of a field.
pub fn inner(alloc: Global, bytes: &[u8], doc: &Doc, text: &str) -> Result<String>
    ensures { IfOk result (λ answer. string_bytes answer
        ≡ shown_of_both (inner_text (before_blank text.now) (behind_blank text.now)) bytes.now doc.now) }
{
    let (outer, name) = words(text)?;
    let view = view(bytes)?;
    let spelled = inner_number(Held::Spelled(view), outer, name);
    let built = inner_number(Held::Built(doc), outer, name);
    both_numbers(alloc, spelled, built)
}

// A code, and the type of a field of its scope.
fn code_line(alloc: Global, code: &str, tag: Option<u8>) -> Result<String>
    ensures { IfOk result (λ answer. string_bytes answer ≡ code.now ++ codes " " ++ number_text tag) }
{
    Ok(format!(in alloc; "{code} {tag:?}")?)
}

fn code_text(alloc: Global, value: ValueRef<'_>, name: &str) -> Result<String>
    ensures { IfOk result (λ answer. string_bytes answer ≡ code_text name.now (out-Value (value_meant value.entry))) }
{
    match value {
        ValueRef::ScopedCode { code, scope } => code_line(alloc, code, tag_of(scope.field(name))),
        _ => answer(alloc, "no code"),
    }
}

/// The text of a field's code, and the type of a field of its scope.
pub fn scoped(alloc: Global, bytes: &[u8], text: &str) -> Result<String>
    ensures { IfOk result (λ answer. string_bytes answer ≡ scoped_text (behind_blank text.now) (lookup (before_blank text.now) (document_in bytes.now))) }
{
    let (outer, name) = words(text)?;
    let view = view(bytes)?;
    match Held::Spelled(view).field(outer) {
        Some(value) => code_text(alloc, value.read(), name),
        None => answer(alloc, "none"),
    }
}
