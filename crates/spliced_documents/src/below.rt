//! A field of a document that a field holds, set in the bytes of the outer document, or taken out of them.
ghost use Rattle.std.specs.Prelude.{◌≡◌, ◌↔◌, ◌+◌, ◌<◌, ◌≤◌, ◌^◌, ◌++◌, ◌∷◌, [], length, Some, IfOk, IfSome, IsSome};
ghost use Rattle.containers.specs.Entries.{lookup};
ghost use Rattle.bson_value.specs.Levels.{levels_in, levels_of};
ghost use Rattle.bson_value.specs.Spelling.{document_text};
ghost use Rattle.bson_check.specs.Spells.{IsSomeDocument};
ghost use Rattle.bson_view.specs.Kept.{kept_bytes, kept_document};
ghost use Rattle.bson_view.specs.Parts.{elements_in};
ghost use Rattle.bson_view.specs.Views.{document, elem_value, view_bytes};
ghost use Rattle.spliced_documents.specs.Splicing.{cut_below, front_of, rest_of, spliced_below, AreCutBelow, AreSplicedBelow, FitsBelow, FitsCutBelow, HoldsDocument, IsCutBelow, IsPutBelow, IsShortSpelling, Means, SpellsNew};

use crate::levels::is_shallow;
use crate::pieces::{
    MAX_LEVELS, are_bytes, are_well_formed, around, counted_below, joined_below, parted,
};
use bson_check::faultless_if_spelled;
use bson_value::{Bytes, CText, Value, type_byte};
use bson_view::{DocumentBytes, Elem, View, one_document};
use std::alloc::{AllocError, Global};

/// The elements before the field of this name in the document that the element is, and those behind it with
/// that document's last zero.
pub(crate) fn around_in<'a>(elem: &Elem<'a>, name: &str) -> (&'a [u8], &'a [u8])
    requires { elem.now.tag ≡ 3 }
    ensures front { result.0.now ≡ front_of name.now (elements_in elem.now.value.now) }
    ensures rest { result.1.now ≡ rest_of name.now (elements_in elem.now.value.now) ++ 0 ∷ [] }
    ensures short { length result.0.now + length result.1.now < 2 ^ 31 }
{
    elem.spells();
    parted(elem.value, elem.elements(), name)
}

// The bytes with the value in a field of the document that the element of this field is.
fn put_in(
    alloc: Global,
    view: &View<'_>,
    field: &str,
    elem: &Elem<'_>,
    name: &CText,
    value: &Value,
) -> Result<Option<Bytes>, AllocError>
    requires levels { levels_of (document view.now) ≤ 100 }
    requires value { Some (elem_value elem.now) ≡ lookup field.now (document view.now) }
    requires held { HoldsDocument field.now elem.now.value.now (view_bytes view.now) }
    requires tag { elem.now.tag ≡ 3 }
    requires shallow { levels_in value.now ≤ 98 }
    ensures bytes { IfOk result (λ o. IfSome o (λ b. b ≡ spliced_below field.now name.now value.now elem.now.value.now (view_bytes view.now))) }
    ensures new { IfOk result (λ o. IfSome o (SpellsNew (IsPutBelow field.now name.now value.now (document view.now)) (view_bytes view.now) (document view.now))) }
    ensures fits { IfOk result (λ o. IsSome o ↔ (length (spliced_below field.now name.now value.now elem.now.value.now (view_bytes view.now)) ≤ 16777216)) }
{
    elem.spells();
    are_bytes(view.bytes());
    are_well_formed(name, value);
    let outer = around(view, field);
    let inner = around_in(elem, name.as_str());
    counted_below(alloc, outer, field, type_byte::DOCUMENT, inner, name, value)
}

fn put_below(
    alloc: Global,
    view: &View<'_>,
    field: &str,
    name: &CText,
    value: &Value,
) -> Result<Option<Bytes>, AllocError>
    requires { levels_of (document view.now) ≤ 100 }
    ensures bytes { IfOk result (λ o. IfSome o (AreSplicedBelow field.now name.now value.now (view_bytes view.now))) }
    ensures new { IfOk result (λ o. IfSome o (SpellsNew (IsPutBelow field.now name.now value.now (document view.now)) (view_bytes view.now) (document view.now))) }
    ensures fits { IfOk result (λ o. IsSome o ↔ FitsBelow field.now name.now value.now (view_bytes view.now)) }
{
    let Some(elem) = view.field(field) else {
        return Ok(None);
    };
    if elem.tag != type_byte::DOCUMENT {
        return Ok(None);
    }
    if !is_shallow(value, MAX_LEVELS - 2) {
        return Ok(None);
    }
    put_in(alloc, view, field, &elem, name, value)
}

// The bytes without this field of the document that the element of the outer field is.
fn cut_in(
    alloc: Global,
    view: &View<'_>,
    field: &str,
    elem: &Elem<'_>,
    name: &str,
) -> Result<Option<Bytes>, AllocError>
    requires levels { levels_of (document view.now) ≤ 100 }
    requires value { Some (elem_value elem.now) ≡ lookup field.now (document view.now) }
    requires held { HoldsDocument field.now elem.now.value.now (view_bytes view.now) }
    requires tag { elem.now.tag ≡ 3 }
    ensures bytes { IfOk result (λ o. IfSome o (λ b. b ≡ cut_below field.now name.now elem.now.value.now (view_bytes view.now))) }
    ensures new { IfOk result (λ o. IfSome o (SpellsNew (IsCutBelow field.now name.now (document view.now)) (view_bytes view.now) (document view.now))) }
    ensures fits { IfOk result (λ o. IsSome o ↔ (length (cut_below field.now name.now elem.now.value.now (view_bytes view.now)) ≤ 16777216)) }
{
    elem.spells();
    are_bytes(view.bytes());
    let outer = around(view, field);
    let inner = around_in(elem, name);
    joined_below(alloc, outer, field, type_byte::DOCUMENT, inner)
}

fn cut_below(
    alloc: Global,
    view: &View<'_>,
    field: &str,
    name: &str,
) -> Result<Option<Bytes>, AllocError>
    requires { levels_of (document view.now) ≤ 100 }
    ensures bytes { IfOk result (λ o. IfSome o (AreCutBelow field.now name.now (view_bytes view.now))) }
    ensures new { IfOk result (λ o. IfSome o (SpellsNew (IsCutBelow field.now name.now (document view.now)) (view_bytes view.now) (document view.now))) }
    ensures fits { IfOk result (λ o. IsSome o ↔ FitsCutBelow field.now name.now (view_bytes view.now)) }
{
    let Some(elem) = view.field(field) else {
        return Ok(None);
    };
    if elem.tag != type_byte::DOCUMENT {
        return Ok(None);
    }
    cut_in(alloc, view, field, &elem, name)
}

/// The bytes are kept, which spell a document.
pub(crate) fn kept(bytes: Bytes) -> DocumentBytes
    requires { IsSomeDocument 16777216 100 bytes }
    ensures bytes { kept_bytes result ≡ bytes }
    ensures document { Means bytes (kept_document result) }
{
    faultless_if_spelled();
    one_document();
    DocumentBytes::of_checked(bytes)
}

/// The document with the value in the field `name` of the document that the field `field` holds: in its
/// place there, or else last there. `None` exactly where the field isn't there or holds no document, or the
/// whole has more than 16,777,216 bytes or 100 levels. All other bytes are copied as they lie.
pub fn with_field_below(
    alloc: Global,
    view: &View<'_>,
    field: &CText,
    name: &CText,
    value: &Value,
) -> Result<Option<DocumentBytes>, AllocError>
    requires { levels_of (document view.now) ≤ 100 }
    ensures bytes { IfOk result (λ o. IfSome o (λ b. AreSplicedBelow field.now name.now value.now (view_bytes view.now) (kept_bytes b))) }
    ensures document { IfOk result (λ o. IfSome o (λ b. IsPutBelow field.now name.now value.now (document view.now) (kept_document b))) }
    ensures fits { IfOk result (λ o. IsSome o ↔ FitsBelow field.now name.now value.now (view_bytes view.now)) }
    // Of a spelling it makes one.
    ensures spelling { view_bytes view.now ≡ document_text (document view.now) → IfOk result (λ o. IfSome o (λ b. IsShortSpelling (kept_bytes b) (kept_document b))) }
{
    let Some(bytes) = put_below(alloc, view, field.as_str(), name, value)? else {
        return Ok(None);
    };
    Ok(Some(kept(bytes)))
}

/// The document without the field `name` of the document that the field `field` holds, or as it is where
/// that one has none. `None` exactly where the field isn't there or holds no document, or the whole has more
/// than 16,777,216 bytes. All other bytes are copied as they lie.
pub fn without_field_below(
    alloc: Global,
    view: &View<'_>,
    field: &str,
    name: &str,
) -> Result<Option<DocumentBytes>, AllocError>
    requires { levels_of (document view.now) ≤ 100 }
    ensures bytes { IfOk result (λ o. IfSome o (λ b. AreCutBelow field.now name.now (view_bytes view.now) (kept_bytes b))) }
    ensures document { IfOk result (λ o. IfSome o (λ b. IsCutBelow field.now name.now (document view.now) (kept_document b))) }
    ensures fits { IfOk result (λ o. IsSome o ↔ FitsCutBelow field.now name.now (view_bytes view.now)) }
    // Of a spelling it makes one.
    ensures spelling { view_bytes view.now ≡ document_text (document view.now) → IfOk result (λ o. IfSome o (λ b. IsShortSpelling (kept_bytes b) (kept_document b))) }
{
    let Some(bytes) = cut_below(alloc, view, field, name)? else {
        return Ok(None);
    };
    Ok(Some(kept(bytes)))
}
