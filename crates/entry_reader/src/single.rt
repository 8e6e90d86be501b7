//! Deltas of one touch, read where they lie.
ghost use Rattle.std.specs.Prelude.{◌≡◌, ◌∷◌, [], suc, Some, Ok, true, IfOk, IfSome};
ghost use Rattle.bson_value.specs.declared.value.Value.{out-Value};
ghost use Rattle.bson_view.specs.Views.{document, elem_value};
ghost use Rattle.doc_path.specs.declared.parts.Form.TheVariants.{V2};
ghost use Rattle.entry_model.specs.Touches.{touches_read};
ghost use Rattle.entry_reader.specs.Singles.{IsTwo, IsSecondForm, IsTouchAt};

use crate::array_fields::{array_field, element_touch, index_below};
use crate::diff_fields::{behind_s, both, field_behind, field_touch, number, only, place_behind};
use bson_view::{Elem, View};
use doc_path::{Part, Place, Touch};
use std::alloc::{AllocError, Global};

// The touch of an array's diff, where it is one, and has at most `levels` levels below it.
#[cycle(touch)]
fn array_touch(
    alloc: Global,
    levels: usize,
    front: Place,
    diff: &View<'_>,
) -> Result<Option<Touch>, AllocError>
    ensures { IfOk result (λ o. IfSome o (λ t. IsTouchAt (Some front) (suc levels) (document diff.now) t)) }
{
    let Some(field) = array_field(diff) else {
        return Ok(None);
    };
    let Some(at) = index_below(field.name) else {
        return element_touch(alloc, front, &field);
    };
    let Some(below) = field.document() else {
        return Ok(None);
    };
    let place = place_behind(alloc, Some(front), Part::Index(at))?;
    touch_behind(alloc, levels, Some(place), &below)
}

// The touch of a diff of at most `levels` levels behind a front, where it is one.
#[cycle(touch)]
fn touch_behind(
    alloc: Global,
    levels: usize,
    front: Option<Place>,
    diff: &View<'_>,
) -> Result<Option<Touch>, AllocError>
    ensures { IfOk result (λ o. IfSome o (λ t. IsTouchAt front levels (document diff.now) t)) }
{
    if levels == 0 {
        return Ok(None);
    }
    let Some(field) = only(diff) else {
        return match front {
            Some(place) => array_touch(alloc, levels - 1, place, diff),
            None => Ok(None),
        };
    };
    let Some(name) = behind_s(field.name) else {
        return field_touch(alloc, front, &field);
    };
    let Some(below) = field.document() else {
        return Ok(None);
    };
    let Some(place) = field_behind(alloc, front, name)? else {
        return Ok(None);
    };
    touch_behind(alloc, levels - 1, Some(place), &below)
}

// Whether the value is the int32 2.
fn is_two(elem: &Elem<'_>) -> bool
    ensures { result ≡ true → IsTwo (out-Value (elem_value elem.now)) }
{
    number(elem) == Some(2)
}

/// The diff of a delta of the second form.
pub(crate) fn diff_of<'a>(o: &View<'a>) -> Option<View<'a>>
    ensures { IfSome result (λ d. IsSecondForm (document o.now) (document d)) }
{
    let (version, diff) = both(o)?;
    match (version.name, diff.name) {
        ([b'$', b'v'], [b'd', b'i', b'f', b'f']) if is_two(&version) => diff.document(),
        _ => None,
    }
}

/// The touch of a delta of the second form, where its diff is one, at whatever depth. Of others nothing is said.
pub(crate) fn only_touch(alloc: Global, o: &View<'_>) -> Result<Option<Touch>, AllocError>
    ensures { IfOk result (λ found. IfSome found (λ t. touches_read 201 (document o.now) ≡ Ok (V2, t ∷ []))) }
{
    match diff_of(o) {
        Some(diff) => touch_behind(alloc, 201, None, &diff),
        None => Ok(None),
    }
}
