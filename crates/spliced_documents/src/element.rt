//! A field of a document that is set to the value of an element, whose bytes are copied.
ghost use Rattle.std.specs.Prelude.{◌≡◌, ◌↔◌, ◌+◌, ◌<◌, ◌≤◌, ◌^◌, ◌++◌, length, Contains, OnOk, IfOk, IfSome, IsSome, IsTrue};
ghost use Rattle.containers.specs.Entries.{put};
ghost use Rattle.bson_check.specs.Spells.{IsName};
ghost use Rattle.bson_value.specs.declared.value.Value.{out-Value};
ghost use Rattle.bson_value.specs.Levels.{levels_of};
ghost use Rattle.bson_value.specs.Spelling.{document_text, element};
ghost use Rattle.bson_view.specs.Kept.{kept_bytes, kept_document};
ghost use Rattle.bson_view.specs.Meaning.{IsLeaf};
ghost use Rattle.bson_view.specs.Views.{document, elem_value, view_bytes};
ghost use Rattle.spliced_documents.specs.Splicing.{enclosed, spliced, FitsLeaf, IsShortSpelling, IsSpliced};

use crate::pieces::{MAX_BYTES, are_bytes, around};
use bson_check::faultless_if_spelled;
use bson_value::{Bytes, type_byte};
use bson_view::{DocumentBytes, Elem, View, one_document};
use std::alloc::{AllocError, Global};

/// Whether the value holds no document and no array.
pub(crate) fn is_leaf(elem: &Elem<'_>) -> bool
    ensures { IsTrue result ↔ IsLeaf (out-Value (elem_value elem.now)) }
{
    elem.spells();
    elem.tag != type_byte::DOCUMENT
        && elem.tag != type_byte::ARRAY
        && elem.tag != type_byte::SCOPED_CODE
}

fn has_zero(text: &str) -> bool
    ensures { IsTrue result ↔ Contains text.now 0 }
{
    text.as_bytes().contains(&0)
}

/// Whether a field may have this name.
pub(crate) fn is_field_name(name: &str) -> bool
    ensures { IsTrue result ↔ IsName name.now }
{
    !has_zero(name)
}

/// Appends the value under this name. After an error a part of it may stand behind what was there.
pub(crate) fn put_named(out: &mut Vec<u8>, name: &[u8], elem: &Elem<'_>) -> Result<(), AllocError>
    ensures { OnOk result (out.new.items ≡ out.old.items ++ element (name.now, (elem.now.tag, elem.now.value.now))) }
{
    out.push(elem.tag)?;
    out.extend_from_slice(name)?;
    out.push(0)?;
    out.extend_from_slice(elem.value)?;
    Ok(())
}

// A length that counts all of them, and the pieces with the value under this name between them. `None`
// where they are more than a document may have.
fn joined_around(
    alloc: Global,
    front: &[u8],
    name: &str,
    elem: &Elem<'_>,
    rest: &[u8],
) -> Result<Option<Bytes>, AllocError>
    requires { length front.now + length rest.now < 2 ^ 31 }
    ensures bytes { IfOk result (λ o. IfSome o (λ b. b ≡ enclosed front.now (element (name.now, (elem.now.tag, elem.now.value.now))) rest.now)) }
    ensures fits { IfOk result (λ o. IsSome o ↔ (length front.now + length (element (name.now, (elem.now.tag, elem.now.value.now))) + length rest.now + 4 ≤ 16777216)) }
{
    let len = front.len() + name.len() + elem.value.len() + rest.len() + 6;
    if len > MAX_BYTES {
        return Ok(None);
    }
    let mut out = Vec::with_capacity(alloc, len)?;
    out.extend_from_slice(&(len as u32).to_le_bytes())?;
    out.extend_from_slice(front)?;
    put_named(&mut out, name.as_bytes(), elem)?;
    out.extend_from_slice(rest)?;
    Ok(Some(Bytes::from_vec(out)))
}

fn element_around(
    alloc: Global,
    view: &View<'_>,
    name: &str,
    elem: &Elem<'_>,
) -> Result<Option<Bytes>, AllocError>
    requires levels { levels_of (document view.now) ≤ 100 }
    requires name { IsName name.now }
    requires leaf { IsLeaf (out-Value (elem_value elem.now)) }
    ensures some { IfOk result (λ o. IfSome o (IsSpliced name.now (elem_value elem.now) (view_bytes view.now) (document view.now))) }
    ensures fits { IfOk result (λ o. IsSome o ↔ (length (spliced name.now (elem_value elem.now) (view_bytes view.now)) ≤ 16777216)) }
{
    elem.spells();
    let (front, rest) = around(view, name);
    joined_around(alloc, front, name, elem, rest)
}

fn spliced_element(
    alloc: Global,
    view: &View<'_>,
    name: &str,
    elem: &Elem<'_>,
) -> Result<Option<Bytes>, AllocError>
    requires { levels_of (document view.now) ≤ 100 }
    ensures some { IfOk result (λ o. IfSome o (IsSpliced name.now (elem_value elem.now) (view_bytes view.now) (document view.now))) }
    ensures fits { IfOk result (λ o. IsSome o ↔ FitsLeaf name.now (elem_value elem.now) (view_bytes view.now)) }
{
    if !is_leaf(elem) {
        return Ok(None);
    }
    if !is_field_name(name) {
        return Ok(None);
    }
    element_around(alloc, view, name, elem)
}

/// The document with the value of the element in the field of this name: in its place, or else last. `None`
/// exactly where the value holds others (it is a document, an array or a code with a scope), the name has a
/// zero in it, or the whole has more than 16,777,216 bytes. The value isn't read: its bytes are copied, as
/// all others are.
pub fn with_element(
    alloc: Global,
    view: &View<'_>,
    name: &str,
    elem: &Elem<'_>,
) -> Result<Option<DocumentBytes>, AllocError>
    requires { levels_of (document view.now) ≤ 100 }
    ensures bytes { IfOk result (λ o. IfSome o (λ b. kept_bytes b ≡ spliced name.now (elem_value elem.now) (view_bytes view.now))) }
    ensures document { IfOk result (λ o. IfSome o (λ b. kept_document b ≡ put name.now (elem_value elem.now) (document view.now))) }
    ensures fits { IfOk result (λ o. IsSome o ↔ FitsLeaf name.now (elem_value elem.now) (view_bytes view.now)) }
    // Of a spelling it makes one.
    ensures spelling { view_bytes view.now ≡ document_text (document view.now) → IfOk result (λ o. IfSome o (λ b. IsShortSpelling (kept_bytes b) (kept_document b))) }
{
    let Some(bytes) = spliced_element(alloc, view, name, elem)? else {
        return Ok(None);
    };
    are_bytes(view.bytes());
    faultless_if_spelled();
    one_document();
    Ok(Some(DocumentBytes::of_checked(bytes)))
}
