//! Updates of documents.
ghost use Rattle.std.specs.Prelude.{◌≡◌, None, Ok, IfOk, IfErr, OnOk};
ghost use Rattle.bson_value.specs.declared.value.Value.{Object as object_of};
ghost use Rattle.update_model.specs.Touched.{touches as all_touches};
ghost use Rattle.update_model.specs.Updating.{updated, refusal_at_end as last_refusal, IsRefusal};
ghost use Rattle.update_ops.specs.Ends.{IsLast};

use crate::draft::Draft;
use crate::ops::Ops;
use crate::touching::touches;
use bson_value::{Doc, List};
use std::alloc::Global;
use update_model::{UpdateFault, Updated};

/// A document has at most so many bytes.
const BYTE_LIMIT: usize = 16_777_216;

/// A document has at most so many levels.
const LEVEL_LIMIT: usize = 100;

// A document has no more levels than bytes.
#[tactic(auto, using(crate::proofs::ShortLevels::levels_short))]
fn refusal_at_end(draft: &Draft) -> Option<UpdateFault>
    ensures { result ≡ last_refusal draft.now.is_large draft.now.doc }
{
    if draft.is_large {
        Some(UpdateFault::TooLong)
    } else if draft.doc.fits(BYTE_LIMIT, LEVEL_LIMIT) {
        None
    } else if draft.doc.fits(BYTE_LIMIT, BYTE_LIMIT) {
        Some(UpdateFault::Deep)
    } else {
        Some(UpdateFault::TooLong)
    }
}

fn finish(alloc: Global, draft: Draft) -> Result<Updated, UpdateFault>
    ensures doc { IfOk result (λ u. u.doc ≡ draft.doc) }
    ensures touches { IfOk result (λ u. u.touches ≡ all_touches (object_of draft.doc) draft.marks) }
    ensures ok { OnOk result (last_refusal draft.is_large draft.doc ≡ None) }
    ensures fault { IfErr result (λ e. IsLast e (last_refusal draft.is_large draft.doc)) }
{
    if let Some(refusal) = refusal_at_end(&draft) {
        return Err(refusal);
    }
    let touches = touches(alloc, &draft.doc, draft.marks.as_slice())?;
    Ok(Updated {
        doc: draft.doc,
        touches,
    })
}

/// The document after the operators, one after the other, and the touches that record the update; or the
/// first refusal. The touches are those of places that no other touch stands above, each once, in order of
/// their first making, with what stands there after the update.
///
/// The document is changed in place. An operator looks its path up in the document, from its front, and takes
/// the time of that and of what it changes; `$addToSet` compares each of up to eight values with each element,
/// and looks more of them up by their keys.
pub fn update_own(alloc: Global, doc: Doc, ops: &Ops) -> Result<Updated, UpdateFault>
    ensures ok { IfOk result (λ u. updated ops.now doc ≡ Ok u) }
    ensures fault { IfErr result (λ e. IsRefusal e (updated ops.now doc)) }
{
    let mut draft = Draft {
        doc,
        marks: List::new(alloc),
        is_large: false,
    };
    for operator in ops.operators().as_slice() {
        draft.apply(alloc, operator)?;
    }
    finish(alloc, draft)
}

/// What `update_own` makes of a copy of the document.
pub fn update(alloc: Global, doc: &Doc, ops: &Ops) -> Result<Updated, UpdateFault>
    ensures ok { IfOk result (λ u. updated ops.now doc.now ≡ Ok u) }
    ensures fault { IfErr result (λ e. IsRefusal e (updated ops.now doc.now)) }
{
    update_own(alloc, doc.copy(alloc)?, ops)
}
