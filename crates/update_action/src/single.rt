//! Touches whose delta needs no reading, since they are surely read of it again.
ghost use Rattle.std.specs.Prelude.{◌≡◌, ◌∷◌, [], false, IsTrue};
ghost use Rattle.bson_value.specs.WellFormed.{IsName};
ghost use Rattle.doc_path.specs.declared.parts.Form.TheVariants.{V2};
ghost use Rattle.doc_path.specs.declared.touches.Touch.TheVariants.{Set, Unset};
ghost use Rattle.entry_model.specs.Written.{is_index};
ghost use Rattle.update_action.specs.Single.{IsWellFormedPart, AreWellFormedParts, starts_at_name, ends_at_index, IsPlain, IsShallow, AreReadAgain};

use bson_value::{CText, Value};
use doc_path::{Form, Part, Place, Touch};

// So many parts of a place and levels of a value are few.
const FEW_PARTS: usize = 64;

const FEW_LEVELS: usize = 100;

/// Does nothing. Its caller learns what the type holds of a name.
fn name_is_well_formed(name: &CText)
    ensures { IsName name.now }
{
    let _ = name.as_str();
}

/// The same of a part.
fn part_is_well_formed(part: &Part)
    ensures { IsWellFormedPart part.now }
{
    match part {
        Part::Name(name) => name_is_well_formed(name),
        Part::Index(at) => {
            let _at = *at;
        }
    }
}

/// The same of parts.
fn parts_are_well_formed(parts: &[Part])
    ensures { AreWellFormedParts parts.now }
{
    for part in parts {
        part_is_well_formed(part);
    }
}

fn starts_at_name(parts: &[Part]) -> bool
    ensures { result ≡ starts_at_name parts.now }
{
    matches!(parts.first(), Some(Part::Name(_)))
}

fn is_index(part: &Part) -> bool
    ensures { result ≡ is_index part.now }
{
    matches!(part, Part::Index(_))
}

fn ends_at_index(parts: &[Part]) -> bool
    ensures { result ≡ ends_at_index parts.now }
{
    match parts {
        [] => false,
        [last] => is_index(last),
        [_, others @ ..] => ends_at_index(others),
    }
}

/// Whether the parts are few, and the first is a name.
fn is_plain(parts: &[Part]) -> bool
    ensures { IsTrue result → IsPlain parts.now }
{
    parts_are_well_formed(parts);
    parts.len() <= FEW_PARTS && starts_at_name(parts)
}

/// Whether a value is a document of few levels, or has none.
#[tactic(auto, unfolding(bson_value::specs::Levels::levels_in))]
fn is_shallow(value: &Value) -> bool
    ensures { IsTrue result → IsShallow value.now }
{
    value.is_well_formed();
    match value {
        Value::Object(doc) => doc.fits(usize::MAX, FEW_LEVELS),
        Value::Array(_) | Value::ScopedCode { .. } => false,
        _ => true,
    }
}

/// Whether a Set is surely read again: the place is plain, the value shallow, and no new field is an index.
fn is_set_again(place: &Place, value: &Value, fresh: bool) -> bool
    ensures { IsTrue result → AreReadAgain (Set place.now value.now fresh ∷ []) }
{
    let parts = place.parts().as_slice();
    if fresh && ends_at_index(parts) {
        return false;
    }
    is_plain(parts) && is_shallow(value)
}

/// Whether an Unset is surely read again: the place is plain, and ends at a name.
fn is_unset_again(place: &Place) -> bool
    ensures { IsTrue result → AreReadAgain (Unset place.now ∷ []) }
{
    let parts = place.parts().as_slice();
    if ends_at_index(parts) {
        return false;
    }
    is_plain(parts)
}

/// Whether a touch alone is surely read again of its delta in the second form.
fn is_touch_again(touch: &Touch) -> bool
    ensures { IsTrue result → AreReadAgain (touch.now ∷ []) }
{
    match touch {
        Touch::Set {
            place,
            value,
            fresh,
        } => is_set_again(place, value, *fresh),
        Touch::Unset { place } => is_unset_again(place),
        Touch::Resize { .. } => false,
    }
}

/// Whether the touches are surely read of their delta as they are: in the second form, one Set or Unset of few levels.
pub(crate) fn is_read_again(form: Form, touches: &[Touch]) -> bool
    ensures { IsTrue result → (form ≡ V2) × AreReadAgain touches.now }
{
    match form {
        Form::V1 => false,
        Form::V2 => match touches {
            [touch] => is_touch_again(touch),
            _ => false,
        },
    }
}
