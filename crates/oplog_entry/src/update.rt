//! The fields of an update's `o`.
ghost use Rattle.std.specs.Prelude.{◌≡◌, [], Ok, OnOk, IfOk, IfErr};
ghost use Rattle.std.specs.Prelude.{suc};
ghost use Rattle.containers.specs.Entries.{lookup};
ghost use Rattle.entry_model.specs.Written.{diff_name};
ghost use Rattle.entry_model.specs.Spelling.{level_limit};
ghost use Rattle.entry_model.specs.Touches.{touches_read};
ghost use Rattle.oplog_entry.specs.Answers.{Fails, Gives};
ghost use Rattle.oplog_entry.specs.DiffFields.{Adds, IsBad};
ghost use Rattle.oplog_entry.specs.PathTouches.{form_field, fields_touches, form_said, form_read, lacks_diff};

use crate::delta::{DeltaFault, diff};
use crate::fields::{bad, missing};
use crate::paths::{push_path_sets, push_path_unsets};
use bson_value::{Doc, List, Value};
use doc_path::{Form, Touch};
use entry_model::EntryFault;
use std::alloc::Global;

/// The touches of a field of an update in this form.
#[tactic(auto, using(crate::proofs::PathFields::sets_added, crate::proofs::PathFields::unsets_added))]
pub(crate) fn update_field(
    alloc: Global,
    form: Form,
    name: &str,
    value: &Value,
    touches: &mut List<Touch>,
) -> Result<(), DeltaFault>
    ensures ok { OnOk result (Adds [] (form_field form name.now value.now) touches.old touches.new) }
    ensures err { IfErr result (λ e. IsBad e (form_field form name.now value.now)) }
{
    if name == "$v" {
        return Ok(());
    }
    let Value::Object(fields) = value else {
        return Err(DeltaFault::Bad);
    };
    match form {
        Form::V1 => {
            if name == "$set" {
                Ok(push_path_sets(alloc, fields, touches)?)
            } else if name == "$unset" {
                Ok(push_path_unsets(alloc, fields, touches)?)
            } else {
                Err(DeltaFault::Bad)
            }
        }
        Form::V2 => {
            if name == "diff" {
                diff(alloc, 201, &[], fields, touches)
            } else {
                Err(DeltaFault::Bad)
            }
        }
    }
}

/// The touches of all fields of an update in this form.
pub(crate) fn update_touches(alloc: Global, form: Form, o: &Doc) -> Result<List<Touch>, EntryFault>
    ensures ok { IfOk result (λ ts. fields_touches form o.now ≡ Ok ts) }
    ensures err { IfErr result (λ e. Fails e (fields_touches form o.now)) }
{
    let mut touches = List::with_capacity(alloc, 1)?;
    for (name, value) in o.entries() {
        match update_field(alloc, form, name.as_str(), value, &mut touches) {
            Ok(()) => {}
            Err(DeltaFault::NoMemory) => return Err(EntryFault::NoMemory),
            Err(DeltaFault::Bad) => return Err(bad(alloc, name.as_str())),
        }
    }
    Ok(touches)
}

/// The form that a number of `$v` says.
fn form_said(version: i64) -> Result<Form, EntryFault>
    ensures { result ≡ form_said version }
{
    match version {
        1 => Ok(Form::V1),
        2 => Ok(Form::V2),
        _ => Err(EntryFault::UnknownUpdate(version)),
    }
}

/// The form that the fields of an update say.
fn form_of(alloc: Global, o: &Doc) -> Result<Form, EntryFault>
    ensures { Gives result (form_read o.now) }
{
    let Some(version) = o.get("$v") else {
        return Ok(Form::V1);
    };
    match version {
        Value::Int(n) => form_said(i64::from(*n)),
        Value::Long(n) => form_said(*n),
        _ => Err(bad(alloc, "$v")),
    }
}

/// Whether the second form has no `diff`.
fn lacks_diff(form: Form, o: &Doc) -> bool
    ensures { result ≡ lacks_diff form (lookup diff_name o.now) }
{
    match form {
        Form::V1 => false,
        Form::V2 => o.get("diff").is_none(),
    }
}

/// The form and the touches of a delta: the document that an update's entry has in its field `o`, where its first name
/// begins with `$`. Else the first fault in it.
#[tactic(auto, using(crate::proofs::Forms::delta_touches, crate::proofs::Forms::delta_lacks, crate::proofs::Forms::delta_fails))]
pub fn read_delta(alloc: Global, o: &Doc) -> Result<(Form, List<Touch>), EntryFault>
    ensures { Gives result (touches_read (suc level_limit) o.now) }
{
    let form = form_of(alloc, o)?;
    let touches = update_touches(alloc, form, o)?;
    if lacks_diff(form, o) {
        return Err(missing(alloc, "diff"));
    }
    Ok((form, touches))
}
