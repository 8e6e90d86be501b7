//! A delta, or the whole document.
ghost use Rattle.std.specs.Prelude.{◌≡◌, ◌≤◌, length, IfOk};
ghost use Rattle.bson_value.specs.Spelling.{document_text};
ghost use Rattle.update_action.specs.Recorded.{action_of};

use crate::delta::{all_copied, delta_text, read_again};
use crate::single::is_read_again;
use bson_value::{Doc, List, Value};
use doc_path::{Form, Touch};
use entry_model::Action;
use std::alloc::{AllocError, Global};

fn whole(alloc: Global, id: &Value, new: &Doc) -> Result<Action, AllocError>
    ensures { IfOk result (λ a. a ≡ Action.Whole id.now new.now) }
{
    Ok(Action::Whole {
        id: id.copy(alloc)?,
        doc: new.copy(alloc)?,
    })
}

fn delta(alloc: Global, id: &Value, form: Form, touches: List<Touch>) -> Result<Action, AllocError>
    ensures { IfOk result (λ a. a ≡ Action.Delta id.now form touches) }
{
    Ok(Action::Delta {
        id: id.copy(alloc)?,
        form,
        touches,
    })
}

/// The action that records an update of the document of an `_id`, in this form: `Whole` where the delta is longer
/// than the document after the update, else `Delta` with the touches in the order of the fields that spell them.
/// In the first form their names are those of digits for indexes, none is of a new field, and a Set of the whole array
/// stands for a length. The touches are those of one accepted update. It takes the time and the memory of writing
/// the delta; and of reading it again, but where it is one touch of few levels in the second form.
pub fn update_action(
    alloc: Global,
    id: &Value,
    new: &Doc,
    touches: &[Touch],
    form: Form,
) -> Result<Action, AllocError>
    requires { length (document_text new.now) ≤ 16777216 }
    ensures { IfOk result (λ a. a ≡ action_of form id.now new.now touches.now) }
{
    let text = delta_text(alloc, form, new, touches)?;
    if new.spelling_len() < text.as_slice().len() {
        return whole(alloc, id, new);
    }
    if is_read_again(form, touches) {
        return delta(alloc, id, form, all_copied(alloc, touches)?);
    }
    match read_again(alloc, text.as_slice())? {
        Some((form, touches)) => delta(alloc, id, form, touches),
        None => whole(alloc, id, new),
    }
}
