//! What indexes say of a document that is to be put.
ghost use Rattle.std.specs.Prelude.{◌≡◌, IfOk};
ghost use Rattle.bson_encode.specs.Key.{key_of};
ghost use Rattle.index_build.specs.Owned.{refusal};
ghost use Rattle.kept_indexes.specs.Verdicts.{is_shared, is_parallel, some_shared, some_parallel};

use bson_value::{Doc, Value};
use bson_view::Held;
use index_build::{Index, IndexFault};
use std::alloc::{AllocError, Global};

/// Whether another document has one of its keys in a unique index, and whether two of its fields meet an array in one.
#[derive(Clone, Copy)]
pub struct Verdict {
    pub shared: bool,
    pub parallel: bool,
}

// What an index says.
fn judge(alloc: Global, index: &Index, id: &Value, doc: &Doc) -> Result<Verdict, AllocError>
    ensures shared { IfOk result (λ v. v.shared ≡ is_shared (refusal index.now.plan (key_of id.now) doc.now index.now.owned)) }
    ensures parallel { IfOk result (λ v. v.parallel ≡ is_parallel (refusal index.now.plan (key_of id.now) doc.now index.now.owned)) }
{
    match index.test(alloc, id, Held::Built(doc)) {
        Ok(()) => Ok(Verdict {
            shared: false,
            parallel: false,
        }),
        Err(IndexFault::DuplicateKey { .. }) => Ok(Verdict {
            shared: true,
            parallel: false,
        }),
        Err(IndexFault::ParallelArrays { .. }) => Ok(Verdict {
            shared: false,
            parallel: true,
        }),
        Err(IndexFault::NoMemory) => Err(AllocError),
    }
}

/// What all of these indexes say.
pub(crate) fn judge_all(
    alloc: Global,
    indexes: &[Index],
    id: &Value,
    doc: &Doc,
) -> Result<Verdict, AllocError>
    ensures shared { IfOk result (λ v. v.shared ≡ some_shared indexes.now (key_of id.now) doc.now) }
    ensures parallel { IfOk result (λ v. v.parallel ≡ some_parallel indexes.now (key_of id.now) doc.now) }
{
    let mut shared = false;
    let mut parallel = false;
    for index in indexes {
        let verdict = judge(alloc, index, id, doc)?;
        shared = shared || verdict.shared;
        parallel = parallel || verdict.parallel;
    }
    Ok(Verdict { shared, parallel })
}
