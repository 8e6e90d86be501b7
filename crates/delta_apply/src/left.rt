//! Which touches replay leaves at once.
ghost use Rattle.std.specs.Prelude.{◌≡◌, ◌||◌};
ghost use Rattle.doc_path.specs.Played.{is_id as names_id, is_far as lies_far, any_far as any_lies_far, left_at as left_place, too_long as goes_too_far};

use doc_path::{Change, INDEX_LIMIT, Part};

fn is_id(part: &Part) -> bool
    ensures { result ≡ names_id part.now }
{
    match part {
        Part::Name(name) => name.as_str() == "_id",
        Part::Index(_) => false,
    }
}

fn is_far(part: &Part) -> bool
    ensures { result ≡ lies_far part.now }
{
    match part {
        Part::Name(_) => false,
        Part::Index(at) => *at as usize >= INDEX_LIMIT,
    }
}

fn any_far(parts: &[Part]) -> bool
    ensures { result ≡ any_lies_far parts.now }
{
    for part in parts {
        if is_far(part) {
            return true;
        }
    }
    false
}

/// Whether nothing is played at the place.
fn left_at(parts: &[Part]) -> bool
    ensures { result ≡ left_place parts.now }
{
    match parts.first() {
        None => false,
        Some(first) => is_id(first) || any_far(parts),
    }
}

fn too_long(action: &Change) -> bool
    ensures { result ≡ goes_too_far action.now }
{
    match action {
        Change::Resize(len) => *len as usize >= INDEX_LIMIT,
        _ => false,
    }
}

/// Whether replay leaves a change at a place at once.
pub(crate) fn is_left(parts: &[Part], action: &Change) -> bool
    ensures { result ≡ left_place parts.now || goes_too_far action.now }
{
    left_at(parts) || too_long(action)
}
