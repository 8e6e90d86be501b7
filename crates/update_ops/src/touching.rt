//! The touches of an update.
ghost use Rattle.std.specs.Prelude.{◌≡◌, ◌||◌, ◌++◌, ◌∷◌, [], List, ℕ, not, if◌then◌else◌, IfOk, OnOk};
ghost use Rattle.bson_value.specs.declared.value.Value.{Object as object_of};
ghost use Rattle.update_model.specs.Touched.{parts_of, is_fresh as is_new, cut_to_length, touch_of as touch_at, touches as all_touches, stands_in, place_of as whole_place};
ghost use Rattle.update_model.specs.declared.mark.Mark.{Mark as Marked};
ghost use Rattle.doc_path.specs.Places.{keys};
ghost use Rattle.update_ops.specs.Keys.{HaveNoZero};
ghost use Rattle.update_ops.specs.Prefixes.{has_front};
ghost use Rattle.update_ops.specs.PlaceKeys.{is_covered, AreCleanMarks, key_of_parts, HasSeen};

use crate::place_keys::{key_of_mark, key_of_way};
use crate::prefixes::PrefixSet;
use bson_value::{Bytes, Doc, List, Value};
use doc_path::{INDEX_LIMIT, Place, Touch, at};
use std::alloc::{AllocError, Global};
use std::collections::BTreeSet;
use update_model::{Made, Mark};

fn place_of(alloc: Global, mark: &Mark) -> Result<Place, AllocError>
    ensures { IfOk result (λ place. place ≡ parts_of mark.now) }
{
    match mark.way.as_slice().split_first() {
        None => Place::new(alloc, mark.last.copy(alloc)?),
        Some((first, rest)) => {
            let mut place = Place::new(alloc, first.copy(alloc)?)?;
            for part in rest {
                place.push(part.copy(alloc)?)?;
            }
            place.push(mark.last.copy(alloc)?)?;
            Ok(place)
        }
    }
}

fn is_fresh(made: Made) -> bool
    ensures { result ≡ is_new made }
{
    match made {
        Made::Fresh => true,
        Made::Changed => false,
        Made::Cut => false,
    }
}

fn touch_of(alloc: Global, doc: &Doc, mark: &Mark) -> Result<Touch, AllocError>
    ensures { IfOk result (λ touch. touch ≡ touch_at (object_of doc.now) mark.now) }
{
    let place = place_of(alloc, mark)?;
    let Some(value) = at(doc, &place) else {
        return Ok(Touch::Unset { place });
    };
    if let Some(len) = cut_length(mark.made, value) {
        return Ok(Touch::Resize { place, len });
    }
    let value = value.copy(alloc)?;
    let fresh = is_fresh(mark.made);
    Ok(Touch::Set {
        place,
        value,
        fresh,
    })
}

// The length of an array that was cut.
fn cut_length(made: Made, value: &Value) -> Option<u32>
    ensures { result ≡ cut_to_length made value.now }
{
    match made {
        Made::Cut => match value {
            Value::Array(items) if items.len() < INDEX_LIMIT => Some(items.len() as u32),
            _ => None,
        },
        _ => None,
    }
}

// The places of the marks, but for those below others.
fn highest(alloc: Global, marks: &[Mark]) -> Result<PrefixSet, AllocError>
    ensures covers { IfOk result (λ tops. (t : List ℕ) → has_front tops t ≡ is_covered marks.now t) }
    ensures clean { OnOk result (AreCleanMarks marks.now) }
{
    let mut tops = PrefixSet::new(alloc);
    for mark in marks {
        let key = key_of_mark(alloc, mark)?;
        tops.cover(alloc, key)?;
    }
    Ok(tops)
}

// Whether no mark stands above this one, and none that was seen has its place. It is seen then.
fn is_new(
    alloc: Global,
    tops: &PrefixSet,
    seen: &mut BTreeSet<Bytes>,
    mark: &Mark,
) -> Result<bool, AllocError>
    ensures answer { (fs : List Marked) → HasSeen seen.old.keys fs → IfOk result (λ new. new ≡ not (has_front tops.now (key_of_parts mark.now.way) || stands_in (whole_place mark.now) fs)) }
    ensures seen { (fs : List Marked) → HasSeen seen.old.keys fs → IfOk result (λ new. HasSeen seen.new.keys (if new then fs ++ mark.now ∷ [] else fs)) }
    ensures clean { OnOk result (HaveNoZero (keys mark.now.way)) }
{
    let way = key_of_way(alloc, mark.way.as_slice())?;
    if tops.has_front(&way) {
        return Ok(false);
    }
    let place = key_of_mark(alloc, mark)?;
    Ok(seen.insert(place)?)
}

// The touch of the only mark.
#[tactic(auto, using(crate::proofs::Touches::touched_alone))]
fn alone(alloc: Global, doc: &Doc, mark: &Mark) -> Result<List<Touch>, AllocError>
    ensures { IfOk result (λ ts. ts ≡ all_touches (object_of doc.now) (mark.now ∷ [])) }
{
    let mut touches = List::with_capacity(alloc, 1)?;
    touches.push(touch_of(alloc, doc, mark)?)?;
    Ok(touches)
}

/// The touches that record an update: one of each of the highest places that were marked, as they were
/// first made, with what stands there in the document after the update.
///
/// The time is that of sorting the places, and of looking each of them up in the document.
pub fn touches(alloc: Global, doc: &Doc, marks: &[Mark]) -> Result<List<Touch>, AllocError>
    ensures { IfOk result (λ ts. ts ≡ all_touches (object_of doc.now) marks.now) }
{
    if let [only] = marks {
        return alone(alloc, doc, only);
    }
    let tops = highest(alloc, marks)?;
    let mut seen: BTreeSet<Bytes> = BTreeSet::new(alloc);
    let mut touches = List::new(alloc);
    for mark in marks {
        if is_new(alloc, &tops, &mut seen, mark)? {
            touches.push(touch_of(alloc, doc, mark)?)?;
        }
    }
    Ok(touches)
}
