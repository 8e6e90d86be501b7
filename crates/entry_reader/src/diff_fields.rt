//! The fields of a diff that say one touch, read where they lie.
ghost use Rattle.std.specs.Prelude.{◌≡◌, ◌∷◌, ◌++◌, [], IfOk, IfSome, MatchOption};
ghost use Rattle.std.specs.Option.{option_copied};
ghost use Rattle.bson_value.specs.declared.value.Value.{out-Value};
ghost use Rattle.bson_value.specs.declared.value.Value.TheVariants.{Int, Null};
ghost use Rattle.bson_view.specs.Meaning.{value_in};
ghost use Rattle.bson_view.specs.Views.{document, elem_value};
ghost use Rattle.doc_path.specs.declared.parts.Part.TheVariants.{Name};
ghost use Rattle.oplog_entry.specs.DiffFields.{behind_letter};
ghost use Rattle.entry_reader.specs.Singles.{HasFields, HasOneOrBoth, SaysTouch, front_of, int_in};

use bson_check::parts::{as_text, number_of};
use bson_value::{CText, type_byte};
use bson_view::{Elem, View};
use doc_path::{Part, Place, Touch};
use std::alloc::{AllocError, Global};

/// The only field of a document.
pub(crate) fn only<'a>(view: &View<'a>) -> Option<Elem<'a>>
    ensures { IfSome result (λ e. document view.now ≡ (e.name.now, elem_value e) ∷ []) }
{
    let mut fields = view.elements();
    let field = fields.next()?;
    match fields.next() {
        Some(_) => None,
        None => Some(field),
    }
}

/// The two fields of a document of two.
pub(crate) fn both<'a>(view: &View<'a>) -> Option<(Elem<'a>, Elem<'a>)>
    ensures { IfSome result (λ p. HasFields p.0 p.1 (document view.now)) }
{
    let mut fields = view.elements();
    let first = fields.next()?;
    let second = fields.next()?;
    match fields.next() {
        Some(_) => None,
        None => Some((first, second)),
    }
}

/// The first field of a document of one or of two, and the second of two.
pub(crate) fn one_or_both<'a>(view: &View<'a>) -> Option<(Elem<'a>, Option<Elem<'a>>)>
    ensures { IfSome result (λ p. HasOneOrBoth p.0 p.1 (document view.now)) }
{
    let mut fields = view.elements();
    let first = fields.next()?;
    let Some(second) = fields.next() else {
        return Some((first, None));
    };
    match fields.next() {
        Some(_) => None,
        None => Some((first, Some(second))),
    }
}

// The int32 that the bytes are.
#[tactic(auto, unfolding(bson_view::specs::Meaning::value_in, bson_view::specs::Meaning::read_value, bson_check::specs::Reading::value_with, bson_check::specs::Reading::int_at))]
fn int_of(bytes: &[u8]) -> Option<i32>
    ensures { MatchOption result (value_in 16 bytes.now ≡ Null) (λ n. value_in 16 bytes.now ≡ Int n) }
{
    if bytes.len() < 4 {
        return None;
    }
    Some(number_of(bytes).cast_signed())
}

/// The number, where the value is an int32.
pub(crate) fn number(elem: &Elem<'_>) -> Option<i32>
    ensures { result ≡ int_in (out-Value (elem_value elem.now)) }
{
    elem.spells();
    if elem.tag == type_byte::INT32 {
        int_of(elem.value)
    } else {
        None
    }
}

/// The place of a part behind a front.
pub(crate) fn place_behind(
    alloc: Global,
    front: Option<Place>,
    part: Part,
) -> Result<Place, AllocError>
    ensures { IfOk result (λ place. place ≡ front_of front ++ part ∷ []) }
{
    match front {
        None => Place::new(alloc, part),
        Some(mut place) => {
            place.push(part)?;
            Ok(place)
        }
    }
}

/// The place of the field of this name behind a front. A name that is no text, or has a zero byte, is none.
pub(crate) fn field_behind(
    alloc: Global,
    front: Option<Place>,
    name: &[u8],
) -> Result<Option<Place>, AllocError>
    ensures { IfOk result (λ o. IfSome o (λ place. place ≡ front_of front ++ Name name.now ∷ [])) }
{
    let Some(name) = as_text(name) else {
        return Ok(None);
    };
    match CText::of(alloc, name)? {
        Some(name) => Ok(Some(place_behind(alloc, front, Part::Name(name))?)),
        None => Ok(None),
    }
}

fn set(
    alloc: Global,
    front: Option<Place>,
    field: &Elem<'_>,
    fresh: bool,
) -> Result<Option<Touch>, AllocError>
    ensures { IfOk result (λ o. IfSome o (λ t. t ≡ Touch.Set (front_of front ++ Name field.now.name.now ∷ []) (elem_value field.now) fresh)) }
{
    let Some(place) = field_behind(alloc, front, field.name)? else {
        return Ok(None);
    };
    let value = field.to_value(alloc)?;
    Ok(Some(Touch::Set {
        place,
        value,
        fresh,
    }))
}

fn unset(alloc: Global, front: Option<Place>, field: &Elem<'_>) -> Result<Option<Touch>, AllocError>
    ensures { IfOk result (λ o. IfSome o (λ t. t ≡ Touch.Unset (front_of front ++ Name field.now.name.now ∷ []))) }
{
    match field_behind(alloc, front, field.name)? {
        Some(place) => Ok(Some(Touch::Unset { place })),
        None => Ok(None),
    }
}

/// The touch of a diff's only field, where it sets one field or takes one out.
pub(crate) fn field_touch(
    alloc: Global,
    front: Option<Place>,
    kind: &Elem<'_>,
) -> Result<Option<Touch>, AllocError>
    ensures { IfOk result (λ o. IfSome o (λ t. SaysTouch front ((kind.now.name.now, elem_value kind.now) ∷ []) t)) }
{
    let Some(fields) = kind.document() else {
        return Ok(None);
    };
    let Some(field) = only(&fields) else {
        return Ok(None);
    };
    match kind.name {
        [b'u'] => set(alloc, front, &field, false),
        [b'i'] => set(alloc, front, &field, true),
        [b'd'] => unset(alloc, front, &field),
        _ => Ok(None),
    }
}

/// The name behind the letter of a field with the diff of what stands there.
pub(crate) fn behind_s(name: &[u8]) -> Option<&[u8]>
    ensures { option_copied result ≡ behind_letter 115 name.now }
{
    match name {
        [b's', rest @ ..] => Some(rest),
        _ => None,
    }
}
