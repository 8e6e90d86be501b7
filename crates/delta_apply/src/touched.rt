//! To which fields of a document touches go.
ghost use Rattle.std.specs.Prelude.{◌≡◌};
ghost use Rattle.std.specs.Str.{bytes_eq};
ghost use Rattle.bson_value.specs.Digits.{digits};
ghost use Rattle.doc_path.specs.Touch.{key_of};
ghost use Rattle.delta_apply.specs.Touched.{place_of as touch_place, leads_to as leads_to_name, goes_to as goes_to_name, is_touched as touched};

use bson_value::index_of;
use doc_path::{Part, Place, Touch};

fn place_of(touch: &Touch) -> &Place
    ensures { result.now ≡ touch_place touch.now }
{
    match touch {
        Touch::Set { place, .. } => place,
        Touch::Unset { place } => place,
        Touch::Resize { place, .. } => place,
    }
}

/// Whether the name is the digits of the index.
fn is_index(at: u32, name: &str) -> bool
    ensures { result ≡ bytes_eq (digits at) name.now }
{
    match index_of(name) {
        Some(n) => n == at as usize,
        None => false,
    }
}

/// Whether the part goes by the name: an index by its digits.
fn is_named(part: &Part, name: &str) -> bool
    ensures { result ≡ bytes_eq (key_of part.now) name.now }
{
    match part {
        Part::Name(own) => own.as_str() == name,
        Part::Index(at) => is_index(*at, name),
    }
}

fn leads_to(parts: &[Part], name: &str) -> bool
    ensures { result ≡ leads_to_name parts.now name.now }
{
    match parts.first() {
        None => false,
        Some(first) => is_named(first, name),
    }
}

fn goes_to(touch: &Touch, name: &str) -> bool
    ensures { result ≡ goes_to_name name.now touch.now }
{
    leads_to(place_of(touch).parts().as_slice(), name)
}

/// Whether one of the touches goes to the field of this name. It takes no memory.
pub(crate) fn is_touched(touches: &[Touch], name: &str) -> bool
    ensures { result ≡ touched touches.now name.now }
{
    for touch in touches {
        if goes_to(touch, name) {
            return true;
        }
    }
    false
}
