//! An element of an array that a field holds, set to the value of another element, whose bytes are copied.
ghost use Rattle.std.specs.Prelude.{◌≡◌, ◌↔◌, ◌+◌, ◌<◌, ◌≤◌, ◌^◌, length, Some, IfNone, IfOk, IfSome, IsSome};
ghost use Rattle.containers.specs.Entries.{lookup};
ghost use Rattle.bson_check.specs.Spells.{IsFrame};
ghost use Rattle.bson_value.specs.declared.value.Value.{out-Value};
ghost use Rattle.bson_value.specs.Levels.{levels_of};
ghost use Rattle.bson_value.specs.Spelling.{document_text};
ghost use Rattle.bson_view.specs.Kept.{kept_bytes, kept_document};
ghost use Rattle.bson_view.specs.Meaning.{IsLeaf};
ghost use Rattle.bson_view.specs.Parts.{bytes_of, elements_in};
ghost use Rattle.bson_view.specs.Paths.{part_named};
ghost use Rattle.bson_view.specs.Views.{document, elem_part, elem_value, parts_left, view_bytes};
ghost use Rattle.spliced_documents.specs.Splicing.{FitsItem, IsItemPut, IsParted, IsShortSpelling, SpellsNew};

use crate::below::kept;
use crate::element::is_leaf;
use crate::element_below::copied_below;
use crate::pieces::{are_bytes, around};
use bson_value::{Bytes, type_byte};
use bson_view::{DocumentBytes, Elem, Elements, View};
use std::alloc::{AllocError, Global};

// Of the bytes of an array, which has these elements: those before the one at the index, its name, and those
// behind it with the last zero.
fn parted_at<'a>(
    bytes: &'a [u8],
    elements: Elements<'a>,
    index: usize,
) -> Option<(&'a [u8], &'a [u8], &'a [u8])>
    requires frame { IsFrame bytes.now (bytes_of (parts_left elements)) }
    requires short { length bytes.now < 2 ^ 31 }
    ensures parted { IfSome result (λ t. IsParted index (parts_left elements.entry) t.0.now t.1.now t.2.now) }
    ensures short { IfSome result (λ t. length t.0.now + length t.2.now < 2 ^ 31) }
    ensures none { IfNone result (length (parts_left elements.entry) ≤ index) }
{
    let mut start = 4;
    let mut ahead = index;
    for elem in elements {
        let end = start + elem.name.len() + elem.value.len() + 2;
        if ahead == 0 {
            return Some((&bytes[4..start], elem.name, &bytes[end..]));
        }
        ahead -= 1;
        start = end;
    }
    None
}

// The same of the array that the element is.
fn parted_in<'a>(held: &Elem<'a>, index: usize) -> Option<(&'a [u8], &'a [u8], &'a [u8])>
    requires { held.now.tag ≡ 4 }
    ensures parted { IfSome result (λ t. IsParted index (elements_in held.now.value.now) t.0.now t.1.now t.2.now) }
    ensures short { IfSome result (λ t. length t.0.now + length t.2.now < 2 ^ 31) }
    ensures none { IfNone result (length (elements_in held.now.value.now) ≤ index) }
{
    held.spells();
    parted_at(held.value, held.elements(), index)
}

// The bytes with the value at this index of the array that the element of this field is.
fn item_in(
    alloc: Global,
    view: &View<'_>,
    field: &str,
    held: &Elem<'_>,
    index: usize,
    elem: &Elem<'_>,
) -> Result<Option<Bytes>, AllocError>
    requires levels { levels_of (document view.now) ≤ 100 }
    requires text { view_bytes view.now ≡ document_text (document view.now) }
    requires value { Some (elem_value held.now) ≡ lookup field.now (document view.now) }
    requires held { part_named field.now (elements_in (view_bytes view.now)) ≡ Some (elem_part held.now) }
    requires tag { held.now.tag ≡ 4 }
    requires leaf { IsLeaf (out-Value (elem_value elem.now)) }
    ensures new { IfOk result (λ o. IfSome o (SpellsNew (IsItemPut field.now index (elem_value elem.now) (document view.now)) (view_bytes view.now) (document view.now))) }
    ensures fits { IfOk result (λ o. IsSome o ↔ FitsItem field.now index (elem_value elem.now) (document view.now)) }
{
    held.spells();
    elem.spells();
    are_bytes(view.bytes());
    let outer = around(view, field);
    let Some((front, name, rest)) = parted_in(held, index) else {
        return Ok(None);
    };
    copied_below(
        alloc,
        outer,
        field,
        type_byte::ARRAY,
        (front, rest),
        name,
        elem,
    )
}

fn spliced_item(
    alloc: Global,
    view: &View<'_>,
    field: &str,
    index: usize,
    elem: &Elem<'_>,
) -> Result<Option<Bytes>, AllocError>
    requires levels { levels_of (document view.now) ≤ 100 }
    requires text { view_bytes view.now ≡ document_text (document view.now) }
    ensures new { IfOk result (λ o. IfSome o (SpellsNew (IsItemPut field.now index (elem_value elem.now) (document view.now)) (view_bytes view.now) (document view.now))) }
    ensures fits { IfOk result (λ o. IsSome o ↔ FitsItem field.now index (elem_value elem.now) (document view.now)) }
{
    if !is_leaf(elem) {
        return Ok(None);
    }
    let Some(held) = view.field(field) else {
        return Ok(None);
    };
    if held.tag != type_byte::ARRAY {
        return Ok(None);
    }
    item_in(alloc, view, field, &held, index, elem)
}

/// The document, which is kept as its spelling, with the value of the element in the place of that at this
/// index of the array that the field holds. `None` exactly where the value holds others (it is a document,
/// an array or a code with a scope), the field isn't there or holds no array, the array has no element at
/// the index, or the whole has more than 16,777,216 bytes. The value isn't read: its bytes are copied, as
/// all others are.
pub fn with_item(
    alloc: Global,
    view: &View<'_>,
    field: &str,
    index: usize,
    elem: &Elem<'_>,
) -> Result<Option<DocumentBytes>, AllocError>
    requires levels { levels_of (document view.now) ≤ 100 }
    requires text { view_bytes view.now ≡ document_text (document view.now) }
    ensures document { IfOk result (λ o. IfSome o (λ b. IsItemPut field.now index (elem_value elem.now) (document view.now) (kept_document b))) }
    ensures fits { IfOk result (λ o. IsSome o ↔ FitsItem field.now index (elem_value elem.now) (document view.now)) }
    ensures spelling { IfOk result (λ o. IfSome o (λ b. IsShortSpelling (kept_bytes b) (kept_document b))) }
{
    let Some(bytes) = spliced_item(alloc, view, field, index, elem)? else {
        return Ok(None);
    };
    Ok(Some(kept(bytes)))
}
