//! The fields of one level of a diff.
ghost use Rattle.std.specs.Prelude.{◌≡◌, ◌++◌, [], false, Some, OnOk, pos};
ghost use Rattle.bson_value.specs.declared.value.Value.{Int};
ghost use Rattle.bson_value.specs.Spelling.{spelling, element, elements_of};
ghost use Rattle.entry_model.specs.Edits.{onto, picked, Sets, Unsets, Resizes};
ghost use Rattle.entry_model.specs.Written.{section, l_name, set_at};
ghost use Rattle.entry_model.specs.Touches.{edit_of};
ghost use Rattle.entry_writer.specs.Edits.{edit_in, edits_in};
ghost use Rattle.entry_writer.specs.Levels.{set_field, by_step, field_of, fields_of, section_name};

use crate::edits::{Edit, Step, step_of};
use crate::elements::{close, open, put_element};
use crate::names::letter_name;
use crate::parts::same_part;
use bson_value::Value;
use doc_path::{Part, Touch};
use std::alloc::{AllocError, Global};

/// What fields of a diff are for.
#[derive(Clone, Copy)]
pub(crate) enum Kind {
    Removed,
    Changed,
    Fresh,
    Length,
}

/// Appends a field of this name, where the part is one.
fn put_named(out: &mut Vec<u8>, part: &Part, value: &Value) -> Result<(), AllocError>
    ensures { OnOk result (out.new.items ≡ out.old.items ++ elements_of (onto (set_field part.now value.now) [])) }
{
    match part {
        Part::Name(name) => put_element(out, name.as_str(), value),
        Part::Index(_) => Ok(()),
    }
}

/// Appends the length of an array.
fn put_length(out: &mut Vec<u8>, len: u32) -> Result<(), AllocError>
    ensures { OnOk result (out.new.items ≡ out.old.items ++ element (l_name, spelling (Int (pos len)))) }
{
    out.extend_from_slice(&[16, 108, 0])?;
    out.extend_from_slice(&len.to_le_bytes())?;
    Ok(())
}

fn put_set(
    out: &mut Vec<u8>,
    kind: Kind,
    part: &Part,
    value: &Value,
    fresh: bool,
) -> Result<(), AllocError>
    ensures { OnOk result (out.new.items ≡ out.old.items ++ elements_of (onto (by_step kind (Sets part.now value.now fresh)) [])) }
{
    match kind {
        Kind::Changed => {
            if fresh {
                Ok(())
            } else {
                put_named(out, part, value)
            }
        }
        Kind::Fresh => {
            if fresh {
                put_named(out, part, value)
            } else {
                Ok(())
            }
        }
        Kind::Removed => Ok(()),
        Kind::Length => Ok(()),
    }
}

fn put_unset(out: &mut Vec<u8>, kind: Kind, part: &Part) -> Result<(), AllocError>
    ensures { OnOk result (out.new.items ≡ out.old.items ++ elements_of (onto (by_step kind (Unsets part.now)) [])) }
{
    match kind {
        Kind::Removed => put_named(out, part, &Value::Bool(false)),
        Kind::Changed => Ok(()),
        Kind::Fresh => Ok(()),
        Kind::Length => Ok(()),
    }
}

fn put_resize(out: &mut Vec<u8>, kind: Kind, len: u32) -> Result<(), AllocError>
    ensures { OnOk result (out.new.items ≡ out.old.items ++ elements_of (onto (by_step kind (Resizes len)) [])) }
{
    match kind {
        Kind::Length => put_length(out, len),
        Kind::Removed => Ok(()),
        Kind::Changed => Ok(()),
        Kind::Fresh => Ok(()),
    }
}

/// Appends the field that the step of a touch gives.
fn put_step(out: &mut Vec<u8>, kind: Kind, touch: &Touch) -> Result<(), AllocError>
    ensures { OnOk result (out.new.items ≡ out.old.items ++ elements_of (onto (by_step kind (edit_of touch.now).1) [])) }
{
    match step_of(touch) {
        Step::Set { part, value, fresh } => put_set(out, kind, part, value, fresh),
        Step::Unset { part } => put_unset(out, kind, part),
        Step::Resize { len } => put_resize(out, kind, len),
    }
}

/// Appends the field that an edit gives at its level.
fn put_field(out: &mut Vec<u8>, kind: Kind, edit: &Edit<'_>) -> Result<(), AllocError>
    ensures { OnOk result (out.new.items ≡ out.old.items ++ elements_of (onto (field_of kind (edit_in edit.now)) [])) }
{
    match edit.way.split_first() {
        None => put_step(out, kind, edit.touch),
        Some(_) => Ok(()),
    }
}

/// Appends the fields of a kind that edits give at their level.
pub(crate) fn put_level(out: &mut Vec<u8>, kind: Kind, edits: &[Edit<'_>]) -> Result<(), AllocError>
    ensures { OnOk result (out.new.items ≡ out.old.items ++ elements_of (fields_of kind (edits_in edits.now))) }
{
    for edit in edits {
        put_field(out, kind, edit)?;
    }
    Ok(())
}

fn name_of(kind: Kind) -> &'static str
    ensures { result.now ≡ section_name kind }
{
    match kind {
        Kind::Removed => "d",
        Kind::Changed => "u",
        Kind::Fresh => "i",
        Kind::Length => "l",
    }
}

/// Appends those of a kind in a document of their own, where there are any.
pub(crate) fn put_section(
    out: &mut Vec<u8>,
    kind: Kind,
    edits: &[Edit<'_>],
) -> Result<(), AllocError>
    ensures { OnOk result (out.new.items ≡ out.old.items ++ elements_of (section (section_name kind) (fields_of kind (edits_in edits.now)))) }
{
    let end = out.len();
    open(out, name_of(kind))?;
    let start = out.len();
    put_level(out, kind, edits)?;
    if out.len() == start {
        out.truncate(end);
        return Ok(());
    }
    close(out, start)
}

/// Appends an element that is set, where its part is this one.
fn put_same(
    alloc: Global,
    out: &mut Vec<u8>,
    part: &Part,
    other: &Part,
    value: &Value,
) -> Result<(), AllocError>
    ensures { OnOk result (out.new.items ≡ out.old.items ++ elements_of (onto (set_at part.now [] (Sets other.now value.now false)) [])) }
{
    if !same_part(other, part) {
        return Ok(());
    }
    let name = letter_name(alloc, "u", other)?;
    put_element(out, name.as_str(), value)
}

/// Appends the element that the step of a touch sets at this part.
fn put_step_at(
    alloc: Global,
    out: &mut Vec<u8>,
    part: &Part,
    touch: &Touch,
) -> Result<(), AllocError>
    ensures { OnOk result (out.new.items ≡ out.old.items ++ elements_of (onto (set_at part.now [] (edit_of touch.now).1) [])) }
{
    match step_of(touch) {
        Step::Set {
            part: other,
            value,
            ..
        } => put_same(alloc, out, part, other, value),
        Step::Unset { .. } => Ok(()),
        Step::Resize { .. } => Ok(()),
    }
}

/// Appends the element that an edit sets at this part.
fn put_element_at(
    alloc: Global,
    out: &mut Vec<u8>,
    part: &Part,
    edit: &Edit<'_>,
) -> Result<(), AllocError>
    ensures { OnOk result (out.new.items ≡ out.old.items ++ elements_of (onto (set_at part.now (edit_in edit.now).0 (edit_in edit.now).1) [])) }
{
    match edit.way.split_first() {
        None => put_step_at(alloc, out, part, edit.touch),
        Some(_) => Ok(()),
    }
}

/// Appends the elements that edits set at this part.
pub(crate) fn put_elements_at(
    alloc: Global,
    out: &mut Vec<u8>,
    part: &Part,
    edits: &[Edit<'_>],
) -> Result<(), AllocError>
    ensures { OnOk result (out.new.items ≡ out.old.items ++ elements_of (picked (λ e. set_at part.now e.0 e.1) (edits_in edits.now))) }
{
    for edit in edits {
        put_element_at(alloc, out, part, edit)?;
    }
    Ok(())
}
