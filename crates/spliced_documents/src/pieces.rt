//! The pieces of which a changed document is made.
ghost use Rattle.std.specs.Prelude.{◌≡◌, ◌↔◌, ◌+◌, ◌<◌, ◌≤◌, ◌^◌, ◌++◌, ◌∷◌, [], length, OnOk, IfOk, IfSome, IsSome};
ghost use Rattle.bson_check.specs.Spells.{IsFrame, IsName, Spells};
ghost use Rattle.bson_value.specs.Spelling.{count_bytes, element, spelling};
ghost use Rattle.bson_value.specs.WellFormed.{AreBytes, IsWellFormed};
ghost use Rattle.bson_view.specs.Parts.{bytes_of, elements_in};
ghost use Rattle.bson_view.specs.Views.{document, parts_left, view_bytes};
ghost use Rattle.spliced_documents.specs.Splicing.{enclosed, front_of, rest_of};

use bson_encode::{put_key, type_of};
use bson_value::{Bytes, CText, Value};
use bson_view::{Elements, View};
use std::alloc::{AllocError, Global};

/// So many bytes has a document at most that is kept as its spelling.
pub(crate) const MAX_BYTES: usize = 16_777_216;

/// So many levels has one at most.
pub(crate) const MAX_LEVELS: usize = 100;

/// Does nothing. Its caller learns that a byte has eight bits.
pub(crate) fn are_bytes(bytes: &[u8])
    ensures { AreBytes bytes.now }
{}

/// Does nothing. Its caller learns that the name has no zero in it, and that the value is well-formed.
pub(crate) fn are_well_formed(name: &CText, value: &Value)
    ensures name { IsName name.now }
    ensures value { IsWellFormed value.now }
{
    let _ = name.as_str();
    value.is_well_formed();
}

/// Of the bytes of a document or an array, which has these elements: those before the first one of this
/// name, and those behind it with the last zero.
pub(crate) fn parted<'a>(
    bytes: &'a [u8],
    elements: Elements<'a>,
    name: &str,
) -> (&'a [u8], &'a [u8])
    requires frame { IsFrame bytes.now (bytes_of (parts_left elements)) }
    requires short { length bytes.now < 2 ^ 31 }
    ensures front { result.0.now ≡ front_of name.now (parts_left elements.entry) }
    ensures rest { result.1.now ≡ rest_of name.now (parts_left elements.entry) ++ 0 ∷ [] }
    ensures short { length result.0.now + length result.1.now < 2 ^ 31 }
{
    let mut start = 4;
    for elem in elements {
        let end = start + elem.name.len() + elem.value.len() + 2;
        if elem.name == name.as_bytes() {
            return (&bytes[4..start], &bytes[end..]);
        }
        start = end;
    }
    (&bytes[4..start], &bytes[start..])
}

/// The elements before the field of this name, and those behind it with the document's last zero.
pub(crate) fn around<'a>(view: &View<'a>, name: &str) -> (&'a [u8], &'a [u8])
    ensures front { result.0.now ≡ front_of name.now (elements_in (view_bytes view.now)) }
    ensures rest { result.1.now ≡ rest_of name.now (elements_in (view_bytes view.now)) ++ 0 ∷ [] }
    ensures spelled { Spells (view_bytes view.now) (document view.now) }
    ensures short { length result.0.now + length result.1.now < 2 ^ 31 }
{
    let bytes = view.bytes();
    parted(bytes, view.elements(), name)
}

// Appends the element. After an error a part of it may stand behind what was there.
fn put_element(out: &mut Vec<u8>, name: &CText, value: &Value) -> Result<(), AllocError>
    ensures { OnOk result (out.new.items ≡ out.old.items ++ element (name.now, spelling value.now)) }
{
    out.push(type_of(value))?;
    out.extend_from_slice(name.as_str().as_bytes())?;
    // The key begins with the type, and the zero behind the name takes its place.
    let zero = out.len();
    put_key(out, value)?;
    out[zero] = 0;
    Ok(())
}

/// A length that counts all of them, and the pieces with the element of this name and value between them.
/// `None` where they are more than a document may have.
pub(crate) fn counted(
    alloc: Global,
    front: &[u8],
    name: &CText,
    value: &Value,
    rest: &[u8],
) -> Result<Option<Bytes>, AllocError>
    requires { length front.now + length rest.now < 2 ^ 31 }
    ensures bytes { IfOk result (λ o. IfSome o (λ b. b ≡ count_bytes (length front.now + length (element (name.now, spelling value.now)) + length rest.now + 4) ++ front.now ++ element (name.now, spelling value.now) ++ rest.now)) }
    ensures fits { IfOk result (λ o. IsSome o ↔ (length front.now + length (element (name.now, spelling value.now)) + length rest.now + 4 ≤ 16777216)) }
{
    let around = front.len() + name.as_str().len() + rest.len() + 6;
    let len = around.wrapping_add(value.spelling_len());
    if len > MAX_BYTES {
        return Ok(None);
    }
    let mut out = Vec::with_capacity(alloc, len)?;
    out.extend_from_slice(&(len as u32).to_le_bytes())?;
    out.extend_from_slice(front)?;
    put_element(&mut out, name, value)?;
    out.extend_from_slice(rest)?;
    Ok(Some(Bytes::from_vec(out)))
}

/// Appends this length and the bytes. After an error a part of them may stand behind what was there.
pub(crate) fn put_counted(out: &mut Vec<u8>, len: usize, bytes: &[u8]) -> Result<(), AllocError>
    requires { len < 2 ^ 32 }
    ensures { OnOk result (out.new.items ≡ out.old.items ++ count_bytes len ++ bytes.now) }
{
    out.extend_from_slice(&(len as u32).to_le_bytes())?;
    out.extend_from_slice(bytes)?;
    Ok(())
}

/// Appends the type and the name of an element, which its value follows. After an error a part of it may
/// stand behind what was there.
pub(crate) fn put_name(out: &mut Vec<u8>, tag: u8, name: &str) -> Result<(), AllocError>
    ensures { OnOk result (out.new.items ≡ out.old.items ++ tag ∷ [] ++ name.now ++ 0 ∷ []) }
{
    out.push(tag)?;
    out.extend_from_slice(name.as_bytes())?;
    out.push(0)?;
    Ok(())
}

/// The same on two levels: the outer pieces with an element of this type between them, whose value is the
/// inner pieces with the element of this name and value between them.
pub(crate) fn counted_below(
    alloc: Global,
    outer: (&[u8], &[u8]),
    field: &str,
    tag: u8,
    inner: (&[u8], &[u8]),
    name: &CText,
    value: &Value,
) -> Result<Option<Bytes>, AllocError>
    requires outer { length outer.0.now + length outer.1.now < 2 ^ 31 }
    requires inner { length inner.0.now + length inner.1.now < 2 ^ 31 }
    ensures bytes { IfOk result (λ o. IfSome o (λ b. b ≡ enclosed outer.entry.0.now (element (field.now, (tag, enclosed inner.entry.0.now (element (name.now, spelling value.now)) inner.entry.1.now))) outer.entry.1.now)) }
    ensures fits { IfOk result (λ o. IsSome o ↔ (length outer.entry.0.now + length (element (field.now, (tag, enclosed inner.entry.0.now (element (name.now, spelling value.now)) inner.entry.1.now))) + length outer.entry.1.now + 4 ≤ 16777216)) }
{
    let around = inner.0.len() + name.as_str().len() + inner.1.len() + 6;
    let below = around.wrapping_add(value.spelling_len());
    if below > MAX_BYTES {
        return Ok(None);
    }
    let whole = outer.0.len() + field.len() + outer.1.len() + below + 6;
    if whole > MAX_BYTES {
        return Ok(None);
    }
    let mut out = Vec::with_capacity(alloc, whole)?;
    put_counted(&mut out, whole, outer.0)?;
    put_name(&mut out, tag, field)?;
    put_counted(&mut out, below, inner.0)?;
    put_element(&mut out, name, value)?;
    out.extend_from_slice(inner.1)?;
    out.extend_from_slice(outer.1)?;
    Ok(Some(Bytes::from_vec(out)))
}

/// The same of the outer pieces with an element of this type between them, whose value is the inner pieces
/// alone.
pub(crate) fn joined_below(
    alloc: Global,
    outer: (&[u8], &[u8]),
    field: &str,
    tag: u8,
    inner: (&[u8], &[u8]),
) -> Result<Option<Bytes>, AllocError>
    requires outer { length outer.0.now + length outer.1.now < 2 ^ 31 }
    requires inner { length inner.0.now + length inner.1.now < 2 ^ 31 }
    ensures bytes { IfOk result (λ o. IfSome o (λ b. b ≡ enclosed outer.entry.0.now (element (field.now, (tag, enclosed inner.entry.0.now [] inner.entry.1.now))) outer.entry.1.now)) }
    ensures fits { IfOk result (λ o. IsSome o ↔ (length outer.entry.0.now + length (element (field.now, (tag, enclosed inner.entry.0.now [] inner.entry.1.now))) + length outer.entry.1.now + 4 ≤ 16777216)) }
{
    let below = inner.0.len() + inner.1.len() + 4;
    let total = outer.0.len() + field.len() + outer.1.len() + below + 6;
    if total > MAX_BYTES {
        return Ok(None);
    }
    let mut out = Vec::with_capacity(alloc, total)?;
    put_counted(&mut out, total, outer.0)?;
    put_name(&mut out, tag, field)?;
    put_counted(&mut out, below, inner.0)?;
    out.extend_from_slice(inner.1)?;
    out.extend_from_slice(outer.1)?;
    Ok(Some(Bytes::from_vec(out)))
}

/// A length that counts all of them, and the two pieces.
pub(crate) fn joined(alloc: Global, front: &[u8], rest: &[u8]) -> Result<Bytes, AllocError>
    requires { length front.now + length rest.now + 4 < 2 ^ 32 }
    ensures { IfOk result (λ b. b ≡ count_bytes (length front.now + length rest.now + 4) ++ front.now ++ rest.now) }
{
    let len = front.len() + rest.len() + 4;
    let mut out = Vec::with_capacity(alloc, len)?;
    out.extend_from_slice(&(len as u32).to_le_bytes())?;
    out.extend_from_slice(front)?;
    out.extend_from_slice(rest)?;
    Ok(Bytes::from_vec(out))
}
