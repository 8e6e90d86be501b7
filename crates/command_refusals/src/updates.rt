//! Updates of documents that stand.
ghost use Rattle.std.specs.Prelude.{◌≡◌, IfOk};
ghost use Rattle.update_model.specs.Reading.{operators, ops_fault};
ghost use Rattle.update_model.specs.Updating.{updated};
ghost use Rattle.history_model.specs.Refusals.{accepted};
ghost use Rattle.command_refusals.specs.Operators.{AreRead};

use bson_value::Doc;
use std::alloc::{AllocError, Global};
use update_ops::{Ops, OpsFault, UpdateFault, Updated, update_own};

// The operators, where they can be read.
fn operators(alloc: Global, doc: &Doc) -> Result<Option<Ops>, AllocError>
    ensures { IfOk result (λ ops. AreRead ops doc.now) }
{
    match Ops::read(alloc, doc) {
        Ok(ops) => Ok(Some(ops)),
        Err(OpsFault::NoMemory) => Err(AllocError),
        Err(_) => Ok(None),
    }
}

/// The document after an update, which is made in it, and its touches; none where the operators or the update are
/// refused.
pub fn updated_own(alloc: Global, doc: Doc, ops: &Doc) -> Result<Option<Updated>, AllocError>
    ensures { IfOk result (λ u. u ≡ accepted (ops_fault ops.now) (updated (operators ops.now) doc)) }
{
    let Some(operators) = operators(alloc, ops)? else {
        return Ok(None);
    };
    match update_own(alloc, doc, &operators) {
        Ok(updated) => Ok(Some(updated)),
        Err(UpdateFault::NoMemory) => Err(AllocError),
        Err(_) => Ok(None),
    }
}

/// What `updated_own` makes of a copy of the document.
pub fn updated(alloc: Global, doc: &Doc, ops: &Doc) -> Result<Option<Updated>, AllocError>
    ensures { IfOk result (λ u. u ≡ accepted (ops_fault ops.now) (updated (operators ops.now) doc.now)) }
{
    updated_own(alloc, doc.copy(alloc)?, ops)
}
