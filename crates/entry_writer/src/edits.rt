//! Edits: touches as they stand at one level of a diff.
ghost use Rattle.std.specs.Prelude.{◌≡◌, ◌∷◌, ◌++◌, [], IfOk};
ghost use Rattle.std.specs.Option.{option_copied};
ghost use Rattle.entry_model.specs.Edits.{mapped};
ghost use Rattle.entry_model.specs.Written.{is_index, in_array, part_in, is_array};
ghost use Rattle.entry_model.specs.Touches.{edit_of};
ghost use Rattle.entry_writer.specs.Edits.{step_in, edit_in, edits_in, part_by};

use bson_value::Value;
use doc_path::{Part, Place, Touch};
use std::alloc::{AllocError, Global};

/// What a touch does at the end of its way.
#[derive(Clone, Copy)]
pub(crate) enum Step<'t> {
    Set {
        part: &'t Part,
        value: &'t Value,
        fresh: bool,
    },
    Unset {
        part: &'t Part,
    },
    Resize {
        len: u32,
    },
}

/// A touch at a level: the parts of its way that are still to come, and the touch itself.
#[derive(Clone, Copy)]
pub(crate) struct Edit<'t> {
    pub(crate) way: &'t [Part],
    pub(crate) touch: &'t Touch,
}

/// The parts of a place before its last one, and that.
fn way_and_last(place: &Place) -> (&[Part], &Part)
    ensures { place.now ≡ result.0.now ++ result.1.now ∷ [] }
{
    match place.parts().as_slice().split_last() {
        Some((last, way)) => (way, last),
        None => unreachable!(),
    }
}

/// The way of a touch in the whole document.
fn way_of(touch: &Touch) -> &[Part]
    ensures { result.now ≡ (edit_of touch.now).0 }
{
    match touch {
        Touch::Set { place, .. } => way_and_last(place).0,
        Touch::Unset { place } => way_and_last(place).0,
        Touch::Resize { place, .. } => place.parts().as_slice(),
    }
}

pub(crate) fn step_of(touch: &Touch) -> Step<'_>
    ensures { step_in result ≡ (edit_of touch.now).1 }
{
    match touch {
        Touch::Set {
            place,
            value,
            fresh,
        } => Step::Set {
            part: way_and_last(place).1,
            value,
            fresh: *fresh,
        },
        Touch::Unset { place } => Step::Unset {
            part: way_and_last(place).1,
        },
        Touch::Resize { place, len } => {
            let some = !place.parts().is_empty();
            prove!(some);
            Step::Resize { len: *len }
        }
    }
}

impl<'t> Edit<'t> {
    /// A touch as an edit of the whole document.
    pub(crate) fn of(touch: &'t Touch) -> Edit<'t>
        ensures { edit_in result ≡ edit_of touch.now }
    {
        Edit {
            way: way_of(touch),
            touch,
        }
    }
}

/// Touches as edits of the whole document.
pub(crate) fn edits_of<'t>(alloc: Global, touches: &'t [Touch]) -> Result<Vec<Edit<'t>>, AllocError>
    ensures { IfOk result (λ es. edits_in es.items ≡ mapped edit_of touches.now) }
{
    let mut edits = Vec::new(alloc);
    for touch in touches {
        edits.push(Edit::of(touch))?;
    }
    Ok(edits)
}

fn set_part(touch: &Touch) -> Option<&Part>
    ensures { option_copied result ≡ part_in [] (edit_of touch.now).1 }
{
    match step_of(touch) {
        Step::Set { part, .. } => Some(part),
        Step::Unset { .. } => None,
        Step::Resize { .. } => None,
    }
}

/// The part below which an edit is, and with `at` also that at which it sets.
pub(crate) fn part_of<'t>(at: bool, edit: &Edit<'t>) -> Option<&'t Part>
    ensures { option_copied result ≡ part_by at (edit_in edit.now) }
{
    match edit.way.split_first() {
        Some((part, _)) => Some(part),
        None => { if at { set_part(edit.touch) } else { None } }
    }
}

fn is_index(part: &Part) -> bool
    ensures { result ≡ is_index part.now }
{
    matches!(part, Part::Index(_))
}

/// Whether a step is one in an array.
fn steps_in_array(touch: &Touch) -> bool
    ensures { result ≡ in_array [] (edit_of touch.now).1 }
{
    match step_of(touch) {
        Step::Set { part, .. } => is_index(part),
        Step::Unset { part } => is_index(part),
        Step::Resize { .. } => true,
    }
}

/// Whether the edits are those of an array.
pub(crate) fn is_array(edits: &[Edit<'_>]) -> bool
    ensures { result ≡ is_array (edits_in edits.now) }
{
    let Some((edit, _)) = edits.split_first() else {
        return false;
    };
    match edit.way.split_first() {
        Some((part, _)) => is_index(part),
        None => steps_in_array(edit.touch),
    }
}
