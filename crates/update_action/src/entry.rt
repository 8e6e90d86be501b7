//! The entry of an update.
ghost use Rattle.std.specs.Prelude.{◌≡◌, ◌≤◌, length, IfOk};
ghost use Rattle.bson_value.specs.Spelling.{document_text};
ghost use Rattle.entry_model.specs.Spelling.{entry_fields};
ghost use Rattle.update_action.specs.Recorded.{action_of};

use crate::action::update_action;
use crate::delta::delta_text;
use crate::single::is_read_again;
use bson_value::{Bytes, Doc, NsName, Ts, Value};
use doc_path::{Form, Touch};
use entry_model::{Action, Entry};
use entry_writer::{write, write_update};
use std::alloc::{AllocError, Global};

/// The bytes of an entry of an action.
fn entry_of(alloc: Global, ts: Ts, ns: &NsName, action: Action) -> Result<Bytes, AllocError>
    ensures { IfOk result (λ bytes. bytes ≡ document_text (entry_fields (record { ts = ts; ns = ns.now; action = action }))) }
{
    match ns.copy(alloc) {
        Ok(ns) => {
            let entry = Entry { ts, ns, action };
            let bytes = write(alloc, &entry);
            drop(entry);
            bytes
        }
        Err(e) => {
            drop(action);
            Err(e)
        }
    }
}

/// The same of an action that is to be found out.
fn found_out(
    alloc: Global,
    ts: Ts,
    ns: &NsName,
    id: &Value,
    new: &Doc,
    touches: &[Touch],
    form: Form,
) -> Result<Bytes, AllocError>
    requires { length (document_text new.now) ≤ 16777216 }
    ensures { IfOk result (λ bytes. bytes ≡ document_text (entry_fields (record { ts = ts; ns = ns.now; action = action_of form id.now new.now touches.now }))) }
{
    let action = update_action(alloc, id, new, touches, form)?;
    entry_of(alloc, ts, ns, action)
}

/// The bytes of the entry of the action that `update_action` answers: the one that records an update of the document of an `_id`,
/// in this form. The document after the update is given with its spelling. The delta of one touch of few levels in the second form is written
/// once, and no action is made of it; else it takes the time and the memory of making the action, and of writing it.
pub fn update_entry(
    alloc: Global,
    ts: Ts,
    ns: &NsName,
    id: &Value,
    new: &Doc,
    spelling: &[u8],
    touches: &[Touch],
    form: Form,
) -> Result<Bytes, AllocError>
    requires short { length (document_text new.now) ≤ 16777216 }
    requires spelling { spelling.now ≡ document_text new.now }
    ensures { IfOk result (λ bytes. bytes ≡ document_text (entry_fields (record { ts = ts; ns = ns.now; action = action_of form id.now new.now touches.now }))) }
{
    if is_read_again(form, touches) {
        let text = delta_text(alloc, form, new, touches)?;
        if spelling.len() < text.as_slice().len() {
            return write_update(alloc, ts, ns, id, spelling);
        }
        return write_update(alloc, ts, ns, id, text.as_slice());
    }
    found_out(alloc, ts, ns, id, new, touches, form)
}
