//! The keys of a document.
ghost use Rattle.std.specs.Prelude.{◌≡◌, None, IfOk, IfErr, OnOk};
ghost use Rattle.bson_view.specs.Held.{held_document};
ghost use Rattle.index_keys.specs.Keys.{parallel};
ghost use Rattle.index_keys.specs.Faults.{IsKeyFault};
ghost use Rattle.index_keys.specs.Texts.{key_texts};

use crate::fault::KeyFault;
use crate::key::Keys;
use crate::parallel::{dotted, first_two};
use crate::plan::Plan;
use crate::products::all_keys;
use bson_view::Held;
use std::alloc::Global;

/// The keys of the document in an index of the plan, each once. A document in which two fields of the
/// plan meet arrays is refused. A key of 2^31 bytes or more finds no memory.
///
/// It walks the document along each path, where it lies. As many keys are written as the numbers of the
/// branches of the fields, multiplied: where one field meets an array, about one for each element.
pub fn keys(alloc: Global, plan: &Plan, doc: Held<'_>) -> Result<Keys, KeyFault>
    ensures keys { IfOk result (λ ks. ks ≡ key_texts plan.now (held_document doc.entry)) }
    ensures apart { OnOk result (parallel plan.now (held_document doc.entry) ≡ None) }
    ensures fault { IfErr result (λ e. IsKeyFault e (parallel plan.now (held_document doc.entry))) }
{
    if let Some((first, second)) = first_two(plan.paths.as_slice(), doc) {
        return Err(KeyFault::ParallelArrays {
            first: dotted(alloc, first)?,
            second: dotted(alloc, second)?,
        });
    }
    Ok(all_keys(alloc, plan, doc)?)
}
