//! Tests of an index over documents.
ghost use Rattle.std.specs.Prelude.{◌≡◌, ◌++◌, not, filter, IfOk};
ghost use Rattle.bson_view.specs.Held.{held_document};
ghost use Rattle.index_keys.specs.Definition.{plan_of};
ghost use Rattle.index_build.specs.Counting.{held};
ghost use Rattle.command_refusals.specs.Clashes.{any_parallel, unique_clash, parallel_alone, is_shared, told_by, Says};

use bson_value::NsName;
use bson_view::Held;
use index_build::{CountFault, count_definitions};
use json_tree::Tree;
use std::alloc::{AllocError, Global};
use std::slice;

/// What the keys of documents say of an index.
#[derive(Clone, Copy)]
pub(crate) enum Verdict {
    Apart,
    /// In one of the documents two fields meet an array.
    Parallel,
    /// Two documents have a key of a unique index.
    Shared,
}

/// Whether two documents have a key of a unique index, and whether in one of them two fields meet an array.
#[derive(Clone, Copy)]
pub struct IndexTest {
    pub clash: bool,
    pub parallel: bool,
}

// What a fault says, if it isn't want of memory.
fn verdict_of(fault: &CountFault) -> Option<Verdict>
    ensures { result ≡ told_by fault.now }
{
    match fault {
        CountFault::Parallel { .. } => Some(Verdict::Parallel),
        CountFault::Duplicate { .. } => Some(Verdict::Shared),
        CountFault::NoMemory => None,
    }
}

fn judge(alloc: Global, ns: &NsName, def: &Tree, docs: &[Held<'_>]) -> Result<Verdict, AllocError>
    ensures { IfOk result (λ v. Says v (plan_of def.now) (held docs.now)) }
{
    match count_definitions(alloc, ns, slice::from_ref(def), docs) {
        Ok(_) => Ok(Verdict::Apart),
        Err(fault) => match verdict_of(&fault) {
            Some(verdict) => Ok(verdict),
            None => Err(AllocError),
        },
    }
}

fn is_parallel(alloc: Global, ns: &NsName, def: &Tree, doc: Held<'_>) -> Result<bool, AllocError>
    ensures { IfOk result (λ p. p ≡ parallel_alone (plan_of def.now) (held_document doc.entry)) }
{
    let docs = [doc];
    match judge(alloc, ns, def, &docs)? {
        Verdict::Apart => Ok(false),
        Verdict::Parallel => Ok(true),
        Verdict::Shared => Ok(false),
    }
}

// The documents in which no two fields meet an array.
fn others<'a>(
    alloc: Global,
    ns: &NsName,
    def: &Tree,
    docs: &[Held<'a>],
) -> Result<Vec<Held<'a>>, AllocError>
    ensures { IfOk result (λ left. held left.items ≡ filter (λ d. not (parallel_alone (plan_of def.now) d)) (held docs.now)) }
{
    let mut left = Vec::new(alloc);
    for doc in docs {
        let parallel = is_parallel(alloc, ns, def, *doc)?;
        if !parallel {
            left.push(*doc)?;
        }
    }
    Ok(left)
}

fn is_shared(verdict: Verdict) -> bool
    ensures { result ≡ is_shared verdict }
{
    matches!(verdict, Verdict::Shared)
}

fn shared_of_others(
    alloc: Global,
    ns: &NsName,
    def: &Tree,
    docs: &[Held<'_>],
) -> Result<bool, AllocError>
    ensures { IfOk result (λ clash. clash ≡ unique_clash (plan_of def.now) (held docs.now)) }
{
    let left = others(alloc, ns, def, docs)?;
    Ok(is_shared(judge(alloc, ns, def, left.as_slice())?))
}

/// Tests the index of a definition over documents. The time is that of the keys of each document, and of a
/// search in a tree for each key of a unique index; where in one document two fields meet an array, twice
/// that.
pub fn test(
    alloc: Global,
    ns: &NsName,
    def: &Tree,
    docs: &[Held<'_>],
) -> Result<IndexTest, AllocError>
    ensures clash { IfOk result (λ t. t.clash ≡ unique_clash (plan_of def.now) (held docs.now)) }
    ensures parallel { IfOk result (λ t. t.parallel ≡ any_parallel (plan_of def.now) (held docs.now)) }
{
    match judge(alloc, ns, def, docs)? {
        Verdict::Apart => Ok(IndexTest {
            clash: false,
            parallel: false,
        }),
        Verdict::Shared => Ok(IndexTest {
            clash: true,
            parallel: false,
        }),
        Verdict::Parallel => Ok(IndexTest {
            clash: shared_of_others(alloc, ns, def, docs)?,
            parallel: true,
        }),
    }
}
