//! The fields of an array's diff that say one touch, read where they lie.
ghost use Rattle.std.specs.Prelude.{◌≡◌, ◌∷◌, ◌++◌, [], Some, pos, false, IfOk, IfSome};
ghost use Rattle.std.specs.Option.{option_copied};
ghost use Rattle.bson_value.specs.declared.value.Value.{out-Value};
ghost use Rattle.bson_value.specs.Digits.{index_of as index_of_name};
ghost use Rattle.bson_view.specs.Views.{document, elem_value};
ghost use Rattle.doc_path.specs.declared.parts.Part.TheVariants.{Index};
ghost use Rattle.oplog_entry.specs.DiffFields.{behind_letter, low_index};
ghost use Rattle.entry_reader.specs.Singles.{IsOfArray, IsResize, SaysOfArray, index_behind, int_in};

use crate::diff_fields::{behind_s, both, number, place_behind};
use bson_check::parts::as_text;
use bson_value::index_of;
use bson_view::{Elem, View};
use doc_path::{Part, Place, Touch};
use std::alloc::{AllocError, Global};

// The name behind the letter of a field that sets an element.
fn behind_u(name: &[u8]) -> Option<&[u8]>
    ensures { option_copied result ≡ behind_letter 117 name.now }
{
    match name {
        [b'u', rest @ ..] => Some(rest),
        _ => None,
    }
}

// The index that the name writes, below 2^32.
fn low_index(name: &[u8]) -> Option<u32>
    ensures { result ≡ low_index (index_of_name name.now) }
{
    match index_of(as_text(name)?) {
        Some(at) => {
            if at < 4294967296 {
                Some(at as u32)
            } else {
                None
            }
        }
        None => None,
    }
}

/// The index of the element that a field sets.
pub(crate) fn index_set(name: &[u8]) -> Option<u32>
    ensures { result ≡ index_behind 117 name.now }
{
    match behind_u(name) {
        Some(index) => low_index(index),
        None => None,
    }
}

/// The index of the element below which a field goes.
pub(crate) fn index_below(name: &[u8]) -> Option<u32>
    ensures { result ≡ index_behind 115 name.now }
{
    match behind_s(name) {
        Some(index) => low_index(index),
        None => None,
    }
}

/// The only field of an array's diff, behind its mark.
pub(crate) fn array_field<'a>(diff: &View<'a>) -> Option<Elem<'a>>
    ensures { IfSome result (λ e. IsOfArray (e.name.now, elem_value e) (document diff.now)) }
{
    let (mark, field) = both(diff)?;
    match mark.name {
        [b'a'] => Some(field),
        _ => None,
    }
}

fn set_at(
    alloc: Global,
    front: Place,
    at: u32,
    elem: &Elem<'_>,
) -> Result<Option<Touch>, AllocError>
    ensures { IfOk result (λ o. IfSome o (λ t. t ≡ Touch.Set (front ++ Index at ∷ []) (elem_value elem.now) false)) }
{
    let place = place_behind(alloc, Some(front), Part::Index(at))?;
    let value = elem.to_value(alloc)?;
    let fresh = false;
    Ok(Some(Touch::Set {
        place,
        value,
        fresh,
    }))
}

// The length, where the value is one.
fn length_of(elem: &Elem<'_>) -> Option<u32>
    ensures { IfSome result (λ len. int_in (out-Value (elem_value elem.now)) ≡ Some (pos len)) }
{
    let len = number(elem)?;
    if len < 0 {
        return None;
    }
    Some(len as u32)
}

fn resize(place: Place, elem: &Elem<'_>) -> Option<Touch>
    ensures { IfSome result (λ t. IsResize place (out-Value (elem_value elem.now)) t) }
{
    match length_of(elem) {
        Some(len) => Some(Touch::Resize { place, len }),
        None => None,
    }
}

/// The touch of the only field of an array's diff, where it sets the length or one element.
pub(crate) fn element_touch(
    alloc: Global,
    place: Place,
    field: &Elem<'_>,
) -> Result<Option<Touch>, AllocError>
    ensures { IfOk result (λ o. IfSome o (λ t. SaysOfArray place (field.now.name.now, elem_value field.now) t)) }
{
    if let [b'l'] = field.name {
        return Ok(resize(place, field));
    }
    match index_set(field.name) {
        Some(at) => set_at(alloc, place, at, field),
        None => Ok(None),
    }
}
