//! An index by its names, as faults tell it.
ghost use Rattle.std.specs.Prelude.{◌≡◌, ◌∷◌, [], IfOk, IfErr, OnOk, is_some, option_map, false};
ghost use Rattle.bson_view.specs.Held.{held_document};
ghost use Rattle.index_keys.specs.Keys.{parallel};
ghost use Rattle.index_keys.specs.Texts.{key_texts};
ghost use Rattle.index_build.specs.Documents.{id};
ghost use Rattle.index_build.specs.Faults.{first_parallel, parallel_fault, duplicate_fault, IsCountFault};

use crate::fault::CountFault;
use bson_value::{NsName, Value};
use bson_view::Held;
use containers::Text;
use index_keys::{KeyFault, Keys, Plan, keys};
use std::alloc::{AllocError, Global};

/// The names of a collection and of its index.
#[derive(Clone, Copy)]
pub(crate) struct Place<'a> {
    pub(crate) ns: &'a NsName,
    pub(crate) index: &'a str,
}

fn id_of(alloc: Global, doc: Held<'_>) -> Result<Value, AllocError>
    ensures { IfOk result (λ v. v ≡ id (held_document doc.entry)) }
{
    match doc.field("_id") {
        Some(value) => value.to_value(alloc),
        None => Ok(Value::Null),
    }
}

fn parallel_in(alloc: Global, place: Place<'_>, doc: Held<'_>) -> Result<CountFault, AllocError>
    ensures { IfOk result (λ e. e ≡ parallel_fault place.entry.ns.now place.entry.index.now (held_document doc.entry)) }
{
    Ok(CountFault::Parallel {
        ns: place.ns.copy(alloc)?,
        index: Text::of(alloc, place.index)?,
        id: id_of(alloc, doc)?,
    })
}

/// The fault that these documents have one key.
pub(crate) fn duplicate(
    alloc: Global,
    place: Place<'_>,
    first: Held<'_>,
    second: Held<'_>,
) -> Result<CountFault, AllocError>
    ensures { IfOk result (λ e. e ≡ duplicate_fault place.entry.ns.now place.entry.index.now (held_document first.entry, held_document second.entry)) }
{
    Ok(CountFault::Duplicate {
        ns: place.ns.copy(alloc)?,
        index: Text::of(alloc, place.index)?,
        first: id_of(alloc, first)?,
        second: id_of(alloc, second)?,
    })
}

/// The keys of a document in the index.
pub(crate) fn keys_in(
    alloc: Global,
    place: Place<'_>,
    plan: &Plan,
    doc: Held<'_>,
) -> Result<Keys, CountFault>
    ensures keys { IfOk result (λ ks. ks ≡ key_texts plan.now (held_document doc.entry)) }
    ensures apart { OnOk result (is_some (parallel plan.now (held_document doc.entry)) ≡ false) }
    ensures fault { IfErr result (λ e. IsCountFault e (option_map (parallel_fault place.entry.ns.now place.entry.index.now) (first_parallel plan.now (held_document doc.entry ∷ [])))) }
{
    match keys(alloc, plan, doc) {
        Ok(keys) => Ok(keys),
        Err(KeyFault::NoMemory) => Err(CountFault::NoMemory),
        Err(KeyFault::ParallelArrays { .. }) => Err(parallel_in(alloc, place, doc)?),
    }
}
