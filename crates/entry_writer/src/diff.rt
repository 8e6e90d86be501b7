//! The second form of a delta: a diff.
ghost use Rattle.std.specs.Prelude.{◌≡◌, ◌∷◌, ◌++◌, [], OnOk};
ghost use Rattle.bson_value.specs.declared.value.Value.{Object};
ghost use Rattle.bson_value.specs.Spelling.{elements_of};
ghost use Rattle.entry_model.specs.Edits.{mapped, group};
ghost use Rattle.entry_model.specs.Written.{diff, document_diff, array_diff, s_of, spelled_v2};
ghost use Rattle.entry_model.specs.Touches.{edit_of};
ghost use Rattle.entry_model.specs.Spelling.{level_limit};
ghost use Rattle.entry_writer.specs.Edits.{edit_in, edits_in};
ghost use Rattle.entry_writer.specs.Groups.{group_in, field_below, fields_below, fields_at};

use crate::edits::{Edit, edits_of, is_array};
use crate::elements::{close, open, put_element};
use crate::level::{Kind, put_elements_at, put_level, put_section};
use crate::names::letter_name;
use crate::parts::{PartEdits, below, by_part};
use crate::rising::rising;
use bson_value::Value;
use doc_path::{Part, Touch};
use std::alloc::{AllocError, Global};
use std::slice;

/// Appends the diff of what is below a part, in a field of its own.
#[cycle(diff)]
fn put_below(
    alloc: Global,
    out: &mut Vec<u8>,
    levels: usize,
    part: &Part,
    edits: &[Edit<'_>],
) -> Result<(), AllocError>
    ensures { OnOk result (out.new.items ≡ out.old.items ++ elements_of ((s_of part.now, Object (diff levels (edits_in edits.now))) ∷ [])) }
{
    let name = letter_name(alloc, "s", part)?;
    open(out, name.as_str())?;
    let start = out.len();
    put_diff(alloc, out, levels, edits)?;
    close(out, start)
}

/// Appends what a diff of a document has of one part.
#[cycle(diff)]
fn put_field_below(
    alloc: Global,
    out: &mut Vec<u8>,
    levels: usize,
    group: &PartEdits<'_>,
) -> Result<(), AllocError>
    ensures { OnOk result (out.new.items ≡ out.old.items ++ elements_of (field_below levels (group_in group.now) ∷ [])) }
{
    let inner = below(alloc, group.part, group.edits.as_slice())?;
    put_below(alloc, out, levels, group.part, inner.as_slice())
}

/// Appends what a diff of a document has of one edit below its part, where it has one. No group is made for it.
#[cycle(diff)]
fn put_alone(
    alloc: Global,
    out: &mut Vec<u8>,
    levels: usize,
    edit: &Edit<'_>,
) -> Result<(), AllocError>
    ensures { OnOk result (out.new.items ≡ out.old.items ++ elements_of (fields_below levels (edit_in edit.now ∷ []))) }
{
    let Some((part, way)) = edit.way.split_first() else {
        return Ok(());
    };
    let inner = Edit {
        way,
        touch: edit.touch,
    };
    put_below(alloc, out, levels, part, slice::from_ref(&inner))
}

/// Appends what a diff of a document has of the parts below which edits are.
#[cycle(diff)]
fn put_parts_below(
    alloc: Global,
    out: &mut Vec<u8>,
    levels: usize,
    edits: &[Edit<'_>],
) -> Result<(), AllocError>
    ensures { OnOk result (out.new.items ≡ out.old.items ++ elements_of (fields_below levels (edits_in edits.now))) }
{
    if let [edit] = edits {
        return put_alone(alloc, out, levels, edit);
    }
    let groups = by_part(alloc, false, edits)?;
    for group in groups.as_slice() {
        put_field_below(alloc, out, levels, group)?;
    }
    Ok(())
}

/// Appends the diff of a document.
#[cycle(diff)]
fn put_document_diff(
    alloc: Global,
    out: &mut Vec<u8>,
    levels: usize,
    edits: &[Edit<'_>],
) -> Result<(), AllocError>
    ensures { OnOk result (out.new.items ≡ out.old.items ++ elements_of (document_diff (λ r. diff levels (group r (edits_in edits.now))) (edits_in edits.now))) }
{
    put_section(out, Kind::Removed, edits)?;
    put_section(out, Kind::Changed, edits)?;
    put_section(out, Kind::Fresh, edits)?;
    put_parts_below(alloc, out, levels, edits)
}

/// Appends what a diff of an array has of one part.
#[cycle(diff)]
fn put_at_part(
    alloc: Global,
    out: &mut Vec<u8>,
    levels: usize,
    group: &PartEdits<'_>,
) -> Result<(), AllocError>
    ensures { OnOk result (out.new.items ≡ out.old.items ++ elements_of (fields_at levels (group_in group.now))) }
{
    put_elements_at(alloc, out, group.part, group.edits.as_slice())?;
    let inner = below(alloc, group.part, group.edits.as_slice())?;
    if inner.is_empty() {
        return Ok(());
    }
    put_below(alloc, out, levels, group.part, inner.as_slice())
}

/// Appends the diff of an array.
#[cycle(diff)]
fn put_array_diff(
    alloc: Global,
    out: &mut Vec<u8>,
    levels: usize,
    edits: &[Edit<'_>],
) -> Result<(), AllocError>
    ensures { OnOk result (out.new.items ≡ out.old.items ++ elements_of (array_diff (λ r. diff levels (group r (edits_in edits.now))) (edits_in edits.now))) }
{
    put_element(out, "a", &Value::Bool(true))?;
    put_level(out, Kind::Length, edits)?;
    let groups = rising(alloc, by_part(alloc, true, edits)?)?;
    for group in groups.as_slice() {
        put_at_part(alloc, out, levels, group)?;
    }
    Ok(())
}

/// Appends the diff of the edits of a level, of at most `levels` levels.
#[cycle(diff)]
fn put_diff(
    alloc: Global,
    out: &mut Vec<u8>,
    levels: usize,
    edits: &[Edit<'_>],
) -> Result<(), AllocError>
    ensures { OnOk result (out.new.items ≡ out.old.items ++ elements_of (diff levels (edits_in edits.now))) }
{
    if levels == 0 {
        return Ok(());
    }
    if is_array(edits) {
        put_array_diff(alloc, out, levels - 1, edits)
    } else {
        put_document_diff(alloc, out, levels - 1, edits)
    }
}

/// Appends the diff of touches, of at most `levels` levels. A single touch needs no memory for its edit.
fn put_touches(
    alloc: Global,
    out: &mut Vec<u8>,
    levels: usize,
    touches: &[Touch],
) -> Result<(), AllocError>
    ensures { OnOk result (out.new.items ≡ out.old.items ++ elements_of (diff levels (mapped edit_of touches.now))) }
{
    if let [touch] = touches {
        let edit = Edit::of(touch);
        return put_diff(alloc, out, levels, slice::from_ref(&edit));
    }
    let edits = edits_of(alloc, touches)?;
    put_diff(alloc, out, levels, edits.as_slice())
}

/// Appends the fields of a delta in the second form.
pub(crate) fn put_second_form(
    alloc: Global,
    out: &mut Vec<u8>,
    touches: &[Touch],
) -> Result<(), AllocError>
    ensures { OnOk result (out.new.items ≡ out.old.items ++ elements_of (spelled_v2 level_limit (mapped edit_of touches.now))) }
{
    put_element(out, "$v", &Value::Int(2))?;
    open(out, "diff")?;
    let start = out.len();
    put_touches(alloc, out, 200, touches)?;
    close(out, start)
}
