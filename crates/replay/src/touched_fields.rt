//! To which field of a document touches go.
ghost use Rattle.std.specs.Prelude.{◌≡◌, [], ◌∷◌, map, IfSome, IsTrue, false};
ghost use Rattle.std.specs.List.{list_all};
ghost use Rattle.std.specs.Str.{bytes_eq};
ghost use Rattle.doc_path.specs.declared.parts.Part.TheVariants.{Name};
ghost use Rattle.doc_path.specs.Played.{id_name, touch_of};
ghost use Rattle.doc_path.specs.Touch.{Touch as Played};
ghost use Rattle.spliced_documents.specs.Splicing.{IsCutBelow, IsPutBelow};
ghost use Rattle.replay.specs.Splicing.{Changes, SetsField, TakesField, is_named as names_field, is_within as lies_within, stays_within as touches_within};

use bson_value::{CText, Value};
use doc_path::{Part, Place, Touch};

// The name that a part is, but for `_id`.
fn other_name(part: &Part) -> Option<&CText>
    ensures { IfSome result (λ n. (part.now ≡ Name n.now) × (bytes_eq n.now id_name ≡ false)) }
{
    match part {
        Part::Name(name) => {
            if name.as_str() == "_id" {
                None
            } else {
                Some(name)
            }
        }
        Part::Index(_) => None,
    }
}

// The name that a place is, but for `_id`.
fn field_name(place: &Place) -> Option<&CText>
    ensures { IfSome result (λ n. (place.now ≡ Name n.now ∷ []) × (bytes_eq n.now id_name ≡ false)) }
{
    match place.parts().as_slice() {
        [part] => other_name(part),
        _ => None,
    }
}

// The name and the value of a touch that sets a field of the document itself, but for the `_id`.
fn field_of(touch: &Touch) -> Option<(&CText, &Value)>
    ensures { IfSome result (λ f. SetsField f.0.now f.1.now (touch_of touch.now)) }
{
    match touch {
        Touch::Set { place, value, .. } => match field_name(place) {
            Some(name) => Some((name, value)),
            None => None,
        },
        Touch::Unset { .. } | Touch::Resize { .. } => None,
    }
}

/// The name and the value of the field that the only touch sets.
pub(crate) fn only_field(touches: &[Touch]) -> Option<(&CText, &Value)>
    ensures { IfSome result (λ f. (t : Played) × (map touch_of touches.now ≡ t ∷ []) × SetsField f.0.now f.1.now t) }
{
    match touches {
        [touch] => field_of(touch),
        _ => None,
    }
}

// The name of the field of the document itself that a touch takes out, but for the `_id`.
fn taken_by(touch: &Touch) -> Option<&CText>
    ensures { IfSome result (λ n. TakesField n.now (touch_of touch.now)) }
{
    match touch {
        Touch::Unset { place } => field_name(place),
        Touch::Set { .. } | Touch::Resize { .. } => None,
    }
}

/// The name of the field that the only touch takes out.
pub(crate) fn taken_field(touches: &[Touch]) -> Option<&CText>
    ensures { IfSome result (λ n. (t : Played) × (map touch_of touches.now ≡ t ∷ []) × TakesField n.now t) }
{
    match touches {
        [touch] => taken_by(touch),
        _ => None,
    }
}

// The name that a part is.
fn name_of(part: &Part) -> Option<&CText>
    ensures { IfSome result (λ n. part.now ≡ Name n.now) }
{
    match part {
        Part::Name(name) => Some(name),
        Part::Index(_) => None,
    }
}

// The two names that a place is. The first one isn't `_id`.
fn two_names(place: &Place) -> Option<(&CText, &CText)>
    ensures { IfSome result (λ n. (place.now ≡ Name n.0.now ∷ Name n.1.now ∷ []) × (bytes_eq n.0.now id_name ≡ false)) }
{
    match place.parts().as_slice() {
        [first, last] => Some((other_name(first)?, name_of(last)?)),
        _ => None,
    }
}

// The names and the value of a touch that sets a field of a document that a field holds, but for the `_id`.
fn set_below(touch: &Touch) -> Option<(&CText, &CText, &Value)>
    ensures { IfSome result (λ f. Changes (IsPutBelow f.0.now f.1.now f.2.now) (touch_of touch.now)) }
{
    match touch {
        Touch::Set { place, value, .. } => match two_names(place) {
            Some((field, name)) => Some((field, name, value)),
            None => None,
        },
        Touch::Unset { .. } | Touch::Resize { .. } => None,
    }
}

/// The field, and the name and the value of the field of its document that the only touch sets.
pub(crate) fn only_below(touches: &[Touch]) -> Option<(&CText, &CText, &Value)>
    ensures { IfSome result (λ f. (t : Played) × (map touch_of touches.now ≡ t ∷ []) × Changes (IsPutBelow f.0.now f.1.now f.2.now) t) }
{
    match touches {
        [touch] => set_below(touch),
        _ => None,
    }
}

// The names of a touch that takes a field out of a document that a field holds, but for the `_id`.
fn unset_below(touch: &Touch) -> Option<(&CText, &CText)>
    ensures { IfSome result (λ f. Changes (IsCutBelow f.0.now f.1.now) (touch_of touch.now)) }
{
    match touch {
        Touch::Unset { place } => two_names(place),
        Touch::Set { .. } | Touch::Resize { .. } => None,
    }
}

/// The field, and the name of the field of its document that the only touch takes out.
pub(crate) fn taken_below(touches: &[Touch]) -> Option<(&CText, &CText)>
    ensures { IfSome result (λ f. (t : Played) × (map touch_of touches.now ≡ t ∷ []) × Changes (IsCutBelow f.0.now f.1.now) t) }
{
    match touches {
        [touch] => unset_below(touch),
        _ => None,
    }
}

fn is_named(part: &Part, name: &CText) -> bool
    ensures { result ≡ names_field name.now part.now }
{
    match part {
        Part::Name(own) => own.as_str() == name.as_str(),
        Part::Index(_) => false,
    }
}

fn is_within(place: &Place, name: &CText) -> bool
    ensures { result ≡ lies_within name.now place.now }
{
    match place.parts().as_slice().first() {
        None => false,
        Some(first) => is_named(first, name),
    }
}

// Whether the touch goes to the field or below it, and doesn't take it out.
fn stays_within(touch: &Touch, name: &CText) -> bool
    ensures { result ≡ touches_within name.now touch.now }
{
    match touch {
        Touch::Set { place, .. } => is_within(place, name),
        Touch::Unset { place } => is_within(place, name) && place.parts().len() > 1,
        Touch::Resize { place, .. } => is_within(place, name),
    }
}

fn all_within(touches: &[Touch], name: &CText) -> bool
    ensures { result ≡ list_all (touches_within name.now) touches.now }
{
    touches.iter().all(|touch| stays_within(touch, name))
}

// The name that the place of a touch begins with, but for `_id`.
fn first_name(touch: &Touch) -> Option<&CText>
    ensures { IfSome result (λ n. bytes_eq n.now id_name ≡ false) }
{
    let place = match touch {
        Touch::Set { place, .. } => place,
        Touch::Unset { place } => place,
        Touch::Resize { place, .. } => place,
    };
    other_name(place.parts().as_slice().first()?)
}

/// The name of the field, but for the `_id`, within which all of the touches stay.
pub(crate) fn common_field(touches: &[Touch]) -> Option<&CText>
    ensures other { IfSome result (λ n. bytes_eq n.now id_name ≡ false) }
    ensures within { IfSome result (λ n. IsTrue (list_all (touches_within n.now) touches.now)) }
{
    let name = first_name(touches.first()?)?;
    if all_within(touches, name) {
        Some(name)
    } else {
        None
    }
}
