//! The first form of a delta: paths.
ghost use Rattle.std.specs.Prelude.{◌≡◌, ◌++◌, [], OnOk};
ghost use Rattle.bson_value.specs.Spelling.{spelling, element, elements_of};
ghost use Rattle.entry_model.specs.Edits.{onto, picked, mapped};
ghost use Rattle.entry_model.specs.Written.{path_of, section, spelled_v1};
ghost use Rattle.entry_model.specs.Touches.{edit_of};
ghost use Rattle.entry_writer.specs.Levels.{path_field, path_name};

use crate::elements::{close, open, put_element};
use crate::names::path_text;
use bson_value::Value;
use doc_path::{Place, Touch};
use std::alloc::{AllocError, Global};

/// Appends a value in the field that a path names.
fn put_at_path(
    alloc: Global,
    out: &mut Vec<u8>,
    place: &Place,
    value: &Value,
) -> Result<(), AllocError>
    ensures field { OnOk result (out.new.items ≡ out.old.items ++ element (path_of place.now, spelling value.now)) }
    ensures some { place.now ≡ [] → ⊥ }
{
    let path = path_text(alloc, place.parts().as_slice())?;
    put_element(out, path.as_str(), value)
}

/// Appends the field that a touch gives: of a Set with `sets`, else of an Unset.
#[tactic(auto, using(crate::proofs::FirstForm::set_path, crate::proofs::FirstForm::unset_path, crate::proofs::FirstForm::set_no_path, crate::proofs::FirstForm::unset_no_path, crate::proofs::FirstForm::resize_no_path))]
fn put_path(alloc: Global, out: &mut Vec<u8>, sets: bool, touch: &Touch) -> Result<(), AllocError>
    ensures { OnOk result (out.new.items ≡ out.old.items ++ elements_of (onto (path_field sets touch.now) [])) }
{
    match touch {
        Touch::Set { place, value, .. } => {
            if sets {
                put_at_path(alloc, out, place, value)
            } else {
                Ok(())
            }
        }
        Touch::Unset { place } => {
            if sets {
                Ok(())
            } else {
                put_at_path(alloc, out, place, &Value::Bool(true))
            }
        }
        Touch::Resize { .. } => Ok(()),
    }
}

/// Appends the fields of all Sets, or of all Unsets.
fn put_paths(
    alloc: Global,
    out: &mut Vec<u8>,
    sets: bool,
    touches: &[Touch],
) -> Result<(), AllocError>
    ensures { OnOk result (out.new.items ≡ out.old.items ++ elements_of (picked (path_field sets) touches.now)) }
{
    for touch in touches {
        put_path(alloc, out, sets, touch)?;
    }
    Ok(())
}

fn name_of(sets: bool) -> &'static str
    ensures { result.now ≡ path_name sets }
{
    if sets { "$set" } else { "$unset" }
}

/// Appends them in a document of their own, where there are any.
fn put_section(
    alloc: Global,
    out: &mut Vec<u8>,
    sets: bool,
    touches: &[Touch],
) -> Result<(), AllocError>
    ensures { OnOk result (out.new.items ≡ out.old.items ++ elements_of (section (path_name sets) (picked (path_field sets) touches.now))) }
{
    let end = out.len();
    open(out, name_of(sets))?;
    let start = out.len();
    put_paths(alloc, out, sets, touches)?;
    if out.len() == start {
        out.truncate(end);
        return Ok(());
    }
    close(out, start)
}

/// Appends the fields of a delta in the first form.
pub(crate) fn put_first_form(
    alloc: Global,
    out: &mut Vec<u8>,
    touches: &[Touch],
) -> Result<(), AllocError>
    ensures { OnOk result (out.new.items ≡ out.old.items ++ elements_of (spelled_v1 (mapped edit_of touches.now))) }
{
    put_element(out, "$v", &Value::Int(1))?;
    put_section(alloc, out, true, touches)?;
    put_section(alloc, out, false, touches)
}
