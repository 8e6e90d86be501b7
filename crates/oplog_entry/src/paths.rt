//! Places that the paths of the first form name.
ghost use Rattle.std.specs.Prelude.{◌≡◌, ◌++◌, IfOk, OnOk, Contains};
ghost use Rattle.doc_path.specs.declared.parts.Part.TheVariants.{Name};
ghost use Rattle.doc_path.specs.Paths.{parts_of};
ghost use Rattle.entry_model.specs.Edits.{mapped};
ghost use Rattle.oplog_entry.specs.PathTouches.{path_set, path_unset};

use bson_value::{CText, Doc, List};
use doc_path::{Part, Place, Touch};
use std::alloc::{AllocError, Global};

fn name_part(alloc: Global, text: &str) -> Result<Part, AllocError>
    requires { Contains text.now 0 → ⊥ }
    ensures { IfOk result (λ part. part ≡ Name text.now) }
{
    Ok(Part::Name(CText::of_text(alloc, text)?))
}

/// The place of the names between the dots of a path, empty ones too.
pub(crate) fn path_place(alloc: Global, path: &str) -> Result<Place, AllocError>
    requires { Contains path.now 0 → ⊥ }
    ensures { IfOk result (λ place. place ≡ mapped Name (parts_of path.now)) }
{
    let Some((first, behind)) = path.split_once('.') else {
        return Place::new(alloc, name_part(alloc, path)?);
    };
    let mut place = Place::new(alloc, name_part(alloc, first)?)?;
    let mut rest = behind;
    'parts: while let Some((part, more)) = rest.split_once('.') {
        place.push(name_part(alloc, part)?)?;
        rest = more;
    }
    place.push(name_part(alloc, rest)?)?;
    Ok(place)
}

/// A Set at each path.
pub(crate) fn push_path_sets(
    alloc: Global,
    fields: &Doc,
    touches: &mut List<Touch>,
) -> Result<(), AllocError>
    ensures { OnOk result (touches.new ≡ touches.old ++ mapped path_set fields.now) }
{
    for (path, value) in fields.entries() {
        let place = path_place(alloc, path.as_str())?;
        let value = value.copy(alloc)?;
        let fresh = false;
        touches.push(Touch::Set {
            place,
            value,
            fresh,
        })?;
    }
    Ok(())
}

/// An Unset at each path.
pub(crate) fn push_path_unsets(
    alloc: Global,
    fields: &Doc,
    touches: &mut List<Touch>,
) -> Result<(), AllocError>
    ensures { OnOk result (touches.new ≡ touches.old ++ mapped path_unset fields.now) }
{
    for (path, _) in fields.entries() {
        let place = path_place(alloc, path.as_str())?;
        touches.push(Touch::Unset { place })?;
    }
    Ok(())
}
