//! What the indexes of a collection refuse.
ghost use Rattle.std.specs.Prelude.{◌≡◌, ◌||◌, Some, IfOk};
ghost use Rattle.std.specs.FinMap as map;
ghost use Rattle.bson_encode.specs.Key.{key_of};
ghost use Rattle.coll_state.specs.Changes.{put_row};
ghost use Rattle.index_build.specs.Counting.{held};
ghost use Rattle.history_model.specs.Refusals.{rows_in, definitions_in};
ghost use Rattle.command_refusals.specs.Keyed.{AreKeyed};
ghost use Rattle.command_refusals.specs.Tests.{some_clash, some_parallel, refusal_by, rows_refusal};

use crate::after::documents_after;
use crate::clashes::{IndexTest, test};
use bson_value::{Doc, NsName, Value};
use bson_view::Held;
use coll_state::State;
use json_tree::Tree;
use schedule_model::Refused;
use std::alloc::{AllocError, Global};

// Tests the indexes of all these definitions over documents.
fn test_all(
    alloc: Global,
    ns: &NsName,
    defs: &[Tree],
    docs: &[Held<'_>],
) -> Result<IndexTest, AllocError>
    ensures clash { IfOk result (λ t. t.clash ≡ some_clash defs.now (held docs.now)) }
    ensures parallel { IfOk result (λ t. t.parallel ≡ some_parallel defs.now (held docs.now)) }
{
    let mut clash = false;
    let mut parallel = false;
    for def in defs {
        let tested = test(alloc, ns, def, docs)?;
        clash = clash || tested.clash;
        parallel = parallel || tested.parallel;
    }
    Ok(IndexTest { clash, parallel })
}

pub fn refusal_by(clash: bool, parallel: bool) -> Option<Refused>
    ensures { result ≡ refusal_by clash parallel }
{
    if clash {
        Some(Refused::DuplicateKey)
    } else if parallel {
        Some(Refused::ParallelArrays)
    } else {
        None
    }
}

/// Why the indexes of a collection refuse a document that is to be put under an `_id`. Where the collection
/// has indexes, the time is that of testing them over all its documents; else it takes none.
pub fn put_refusal(
    alloc: Global,
    state: &State,
    ns: &NsName,
    id: &Value,
    doc: &Doc,
) -> Result<Option<Refused>, AllocError>
    requires { AreKeyed state.now }
    ensures { IfOk result (λ o. o ≡ rows_refusal (Some (put_row 0 (key_of id.now) doc.now (rows_in (map.get state.now.tables ns.now)))) (definitions_in (map.get state.now.tables ns.now))) }
{
    let Some(defs) = state.indexes(ns) else {
        return Ok(None);
    };
    if defs.is_empty() {
        return Ok(None);
    }
    let docs = documents_after(alloc, state, ns, id, doc)?;
    let tested = test_all(alloc, ns, defs.as_slice(), docs.as_slice())?;
    Ok(refusal_by(tested.clash, tested.parallel))
}
