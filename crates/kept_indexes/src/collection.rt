//! The indexes of one collection.
ghost use Rattle.std.specs.Prelude.{◌≡◌, [], ◌∷◌, ◌++◌, List, IsTrue, IsOk, IfSome};
ghost use Rattle.bson_encode.specs.Key.{key_of};
ghost use Rattle.bson_view.specs.Held.{held_document};
ghost use Rattle.coll_state.specs.Rows.{id_of, key_in};
ghost use Rattle.index_build.specs.Counting.{held};
ghost use Rattle.index_build.specs.Owned.{build, put_document};
ghost use Rattle.index_keys.specs.Definition.{plan_of};
ghost use Rattle.index_keys.specs.declared.plan.Plan.{Plan as Plans};
ghost use Rattle.kept_indexes.specs.Kept.{keyed, plans_of, with_plan, AreOver};
ghost use Rattle.kept_indexes.specs.Moves.{ArePut, AreTakenOut};
ghost use Rattle.std.specs.FinMap as map;

use bson_value::{Doc, List, Value};
use bson_view::Held;
use index_build::{Index, IndexFault};
use index_keys::{Plan, Planned};
use json_tree::Tree;
use std::alloc::Global;

// Whether an index has taken a document in.
fn is_done(taken: Result<(), IndexFault>) -> bool
    ensures { IsTrue result → IsOk taken }
{
    match taken {
        Ok(()) => true,
        Err(_) => false,
    }
}

// Takes a document in. Says whether it has an `_id`, isn't refused, and there was memory.
fn take_in(alloc: Global, index: &mut Index, doc: Held<'_>) -> bool
    ensures plan { index.new.plan ≡ index.old.plan }
    ensures owned { IsTrue result → index.new.owned ≡ put_document index.old.plan index.old.owned (key_in (id_of (held_document doc.entry)), held_document doc.entry) }
{
    let Some(field) = doc.field("_id") else {
        return false;
    };
    match field.to_value(alloc) {
        Ok(id) => is_done(index.add(alloc, &id, doc)),
        Err(_) => false,
    }
}

// An index over documents.
fn index_over(alloc: Global, plan: Plan, docs: &[Held<'_>]) -> Option<Index>
    ensures plan { IfSome result (λ index. index.plan ≡ plan) }
    ensures owned { IfSome result (λ index. index.owned ≡ build plan (keyed (held docs.now))) }
{
    let mut index = Index::new(alloc, plan);
    for doc in docs {
        if !take_in(alloc, &mut index, *doc) {
            return None;
        }
    }
    Some(index)
}

// The plan of a definition that is built.
fn plan_of(alloc: Global, def: &Tree) -> Option<Option<Plan>>
    ensures { IfSome result (λ o. o ≡ plan_of def.now) }
{
    match Plan::of(alloc, def) {
        Ok(Planned::Plain(plan)) => Some(Some(plan)),
        Ok(Planned::Unbuilt) => Some(None),
        Err(_) => None,
    }
}

// Indexes with one more behind them; none where there is no memory.
fn pushed(mut indexes: List<Index>, index: Index) -> Option<List<Index>>
    ensures { IfSome result (λ after. after ≡ indexes ++ index ∷ []) }
{
    match indexes.push(index) {
        Ok(()) => Some(indexes),
        Err(_) => None,
    }
}

// Indexes with that of a definition behind them, where it is built.
fn with_index(
    alloc: Global,
    indexes: List<Index>,
    def: &Tree,
    docs: &[Held<'_>],
) -> Option<List<Index>>
    ensures { IfSome result (λ after. (ps : List Plans) → AreOver (keyed (held docs.now)) indexes ps → AreOver (keyed (held docs.now)) after (ps ++ with_plan (plan_of def.now) [])) }
{
    match plan_of(alloc, def)? {
        Some(plan) => pushed(indexes, index_over(alloc, plan, docs)?),
        None => Some(indexes),
    }
}

/// The index of each definition that is built, over documents; none where the documents are refused or there is no memory.
pub(crate) fn indexes_over(alloc: Global, defs: &[Tree], docs: &[Held<'_>]) -> Option<List<Index>>
    ensures { IfSome result (λ indexes. AreOver (keyed (held docs.now)) indexes (plans_of defs.now)) }
{
    let mut indexes = List::new(alloc);
    for def in defs {
        indexes = with_index(alloc, indexes, def, docs)?;
    }
    Some(indexes)
}

// An index with a document in the place of the one of its `_id`; none where it is refused or there is no memory.
fn added(alloc: Global, mut index: Index, id: &Value, doc: &Doc) -> Option<Index>
    ensures plan { IfSome result (λ after. after.plan ≡ index.plan) }
    ensures owned { IfSome result (λ after. after.owned ≡ put_document index.plan index.owned (key_of id.now, doc.now)) }
{
    if is_done(index.add(alloc, id, Held::Built(doc))) {
        Some(index)
    } else {
        None
    }
}

/// The indexes with a document in the place of the one of its `_id`; none where it is refused or there is no memory.
pub(crate) fn with_document(alloc: Global, indexes: List<Index>, doc: &Doc) -> Option<List<Index>>
    ensures { IfSome result (λ after. ArePut (key_in (id_of doc.now)) doc.now indexes after) }
{
    let id = doc.get("_id")?;
    let mut after = List::new(alloc);
    for index in indexes.into_vec() {
        after = pushed(after, added(alloc, index, id, doc)?)?;
    }
    Some(after)
}

// An index without the document of an `_id`; none where there is no memory.
fn taken_out(alloc: Global, mut index: Index, id: &Value) -> Option<Index>
    ensures plan { IfSome result (λ after. after.plan ≡ index.plan) }
    ensures owned { IfSome result (λ after. after.owned ≡ map.remove index.owned (key_of id.now)) }
{
    match index.take_out(alloc, id) {
        Ok(_) => Some(index),
        Err(_) => None,
    }
}

/// The indexes without the document of an `_id`; none where there is no memory.
pub(crate) fn without_document(
    alloc: Global,
    indexes: List<Index>,
    id: &Value,
) -> Option<List<Index>>
    ensures { IfSome result (λ after. AreTakenOut (key_of id.now) indexes after) }
{
    let mut after = List::new(alloc);
    for index in indexes.into_vec() {
        after = pushed(after, taken_out(alloc, index, id)?)?;
    }
    Some(after)
}
