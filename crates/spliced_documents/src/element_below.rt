//! A field of a document that a field holds, set to the value of an element, whose bytes are copied.
ghost use Rattle.std.specs.Prelude.{◌≡◌, ◌↔◌, ◌+◌, ◌<◌, ◌≤◌, ◌^◌, length, Some, IfOk, IfSome, IsSome};
ghost use Rattle.containers.specs.Entries.{lookup};
ghost use Rattle.bson_check.specs.Spells.{IsName};
ghost use Rattle.bson_value.specs.declared.value.Value.{out-Value};
ghost use Rattle.bson_value.specs.Levels.{levels_of};
ghost use Rattle.bson_value.specs.Spelling.{document_text, element};
ghost use Rattle.bson_view.specs.Kept.{kept_bytes, kept_document};
ghost use Rattle.bson_view.specs.Meaning.{IsLeaf};
ghost use Rattle.bson_view.specs.Views.{document, elem_value, view_bytes};
ghost use Rattle.spliced_documents.specs.Splicing.{enclosed, spliced_below, AreSplicedBelow, FitsLeafBelow, HoldsDocument, FitsCopyBelow, IsPutBelow, IsShortSpelling, SpellsNew};

use crate::below::{around_in, kept};
use crate::element::{is_field_name, is_leaf, put_named};
use crate::pieces::{MAX_BYTES, are_bytes, around, put_counted, put_name};
use bson_value::{Bytes, type_byte};
use bson_view::{DocumentBytes, Elem, View};
use std::alloc::{AllocError, Global};

/// The outer pieces with an element of this type between them, whose value is the inner pieces with the
/// value under this name between them. `None` where they are more than a document may have.
pub(crate) fn copied_below(
    alloc: Global,
    outer: (&[u8], &[u8]),
    field: &str,
    tag: u8,
    inner: (&[u8], &[u8]),
    name: &[u8],
    elem: &Elem<'_>,
) -> Result<Option<Bytes>, AllocError>
    requires outer { length outer.0.now + length outer.1.now < 2 ^ 31 }
    requires inner { length inner.0.now + length inner.1.now < 2 ^ 31 }
    ensures bytes { IfOk result (λ o. IfSome o (λ b. b ≡ enclosed outer.entry.0.now (element (field.now, (tag, enclosed inner.entry.0.now (element (name.now, (elem.now.tag, elem.now.value.now))) inner.entry.1.now))) outer.entry.1.now)) }
    ensures fits { IfOk result (λ o. IsSome o ↔ (length outer.entry.0.now + length (element (field.now, (tag, enclosed inner.entry.0.now (element (name.now, (elem.now.tag, elem.now.value.now))) inner.entry.1.now))) + length outer.entry.1.now + 4 ≤ 16777216)) }
{
    let below = inner.0.len() + name.len() + elem.value.len() + inner.1.len() + 6;
    if below > MAX_BYTES {
        return Ok(None);
    }
    let whole = outer.0.len() + field.len() + outer.1.len() + below + 6;
    if whole > MAX_BYTES {
        return Ok(None);
    }
    let mut out = Vec::with_capacity(alloc, whole)?;
    put_counted(&mut out, whole, outer.0)?;
    put_name(&mut out, tag, field)?;
    put_counted(&mut out, below, inner.0)?;
    put_named(&mut out, name, elem)?;
    out.extend_from_slice(inner.1)?;
    out.extend_from_slice(outer.1)?;
    Ok(Some(Bytes::from_vec(out)))
}

// The bytes with the value in a field of the document that the element of this field is.
fn copy_in(
    alloc: Global,
    view: &View<'_>,
    field: &str,
    held: &Elem<'_>,
    name: &str,
    elem: &Elem<'_>,
) -> Result<Option<Bytes>, AllocError>
    requires levels { levels_of (document view.now) ≤ 100 }
    requires value { Some (elem_value held.now) ≡ lookup field.now (document view.now) }
    requires held { HoldsDocument field.now held.now.value.now (view_bytes view.now) }
    requires tag { held.now.tag ≡ 3 }
    requires name { IsName name.now }
    requires leaf { IsLeaf (out-Value (elem_value elem.now)) }
    ensures bytes { IfOk result (λ o. IfSome o (λ b. b ≡ spliced_below field.now name.now (elem_value elem.now) held.now.value.now (view_bytes view.now))) }
    ensures new { IfOk result (λ o. IfSome o (SpellsNew (IsPutBelow field.now name.now (elem_value elem.now) (document view.now)) (view_bytes view.now) (document view.now))) }
    ensures fits { IfOk result (λ o. IsSome o ↔ (length (spliced_below field.now name.now (elem_value elem.now) held.now.value.now (view_bytes view.now)) ≤ 16777216)) }
{
    held.spells();
    elem.spells();
    are_bytes(view.bytes());
    let outer = around(view, field);
    let inner = around_in(held, name);
    copied_below(
        alloc,
        outer,
        field,
        type_byte::DOCUMENT,
        inner,
        name.as_bytes(),
        elem,
    )
}

// The same where the field holds a document.
fn copy_below(
    alloc: Global,
    view: &View<'_>,
    field: &str,
    name: &str,
    elem: &Elem<'_>,
) -> Result<Option<Bytes>, AllocError>
    requires levels { levels_of (document view.now) ≤ 100 }
    requires name { IsName name.now }
    requires leaf { IsLeaf (out-Value (elem_value elem.now)) }
    ensures bytes { IfOk result (λ o. IfSome o (AreSplicedBelow field.now name.now (elem_value elem.now) (view_bytes view.now))) }
    ensures new { IfOk result (λ o. IfSome o (SpellsNew (IsPutBelow field.now name.now (elem_value elem.now) (document view.now)) (view_bytes view.now) (document view.now))) }
    ensures fits { IfOk result (λ o. IsSome o ↔ FitsCopyBelow field.now name.now (elem_value elem.now) (view_bytes view.now)) }
{
    let Some(held) = view.field(field) else {
        return Ok(None);
    };
    if held.tag != type_byte::DOCUMENT {
        return Ok(None);
    }
    copy_in(alloc, view, field, &held, name, elem)
}

fn spliced_leaf(
    alloc: Global,
    view: &View<'_>,
    field: &str,
    name: &str,
    elem: &Elem<'_>,
) -> Result<Option<Bytes>, AllocError>
    requires { levels_of (document view.now) ≤ 100 }
    ensures bytes { IfOk result (λ o. IfSome o (AreSplicedBelow field.now name.now (elem_value elem.now) (view_bytes view.now))) }
    ensures new { IfOk result (λ o. IfSome o (SpellsNew (IsPutBelow field.now name.now (elem_value elem.now) (document view.now)) (view_bytes view.now) (document view.now))) }
    ensures fits { IfOk result (λ o. IsSome o ↔ FitsLeafBelow field.now name.now (elem_value elem.now) (view_bytes view.now)) }
{
    if !is_leaf(elem) {
        return Ok(None);
    }
    if !is_field_name(name) {
        return Ok(None);
    }
    copy_below(alloc, view, field, name, elem)
}

/// The document with the value of the element in the field `name` of the document that the field `field`
/// holds: in its place there, or else last there. `None` exactly where the value holds others (it is a
/// document, an array or a code with a scope), the name has a zero in it, the field isn't there or holds no
/// document, or the whole has more than 16,777,216 bytes. The value isn't read: its bytes are copied, as all
/// others are.
pub fn with_element_below(
    alloc: Global,
    view: &View<'_>,
    field: &str,
    name: &str,
    elem: &Elem<'_>,
) -> Result<Option<DocumentBytes>, AllocError>
    requires { levels_of (document view.now) ≤ 100 }
    ensures bytes { IfOk result (λ o. IfSome o (λ b. AreSplicedBelow field.now name.now (elem_value elem.now) (view_bytes view.now) (kept_bytes b))) }
    ensures document { IfOk result (λ o. IfSome o (λ b. IsPutBelow field.now name.now (elem_value elem.now) (document view.now) (kept_document b))) }
    ensures fits { IfOk result (λ o. IsSome o ↔ FitsLeafBelow field.now name.now (elem_value elem.now) (view_bytes view.now)) }
    // Of a spelling it makes one.
    ensures spelling { view_bytes view.now ≡ document_text (document view.now) → IfOk result (λ o. IfSome o (λ b. IsShortSpelling (kept_bytes b) (kept_document b))) }
{
    let Some(bytes) = spliced_leaf(alloc, view, field, name, elem)? else {
        return Ok(None);
    };
    Ok(Some(kept(bytes)))
}
