//! How many pairs of a key and an `_id` the indexes of a state have.
ghost use Rattle.std.specs.Prelude.{◌≡◌, ◌+◌, ◌<◌, ◌++◌, ◌∷◌, [], List, length, option_map, is_some, IfOk, IfErr, OnOk, None, true, false};
ghost use Rattle.std.specs.FinMap as map;
ghost use Rattle.bson_view.specs.Held.{held_document};
ghost use Rattle.coll_state.specs.Documents.{documents_by_key};
ghost use Rattle.coll_state.specs.Rows.{state_of};
ghost use Rattle.coll_state.specs.Stock.{named};
ghost use Rattle.index_keys.specs.Definition.{plan_of};
ghost use Rattle.index_keys.specs.Keys.{Fields, parallel};
ghost use Rattle.index_keys.specs.Texts.{key_texts};
ghost use Rattle.index_build.specs.Faults.{first_parallel, parallel_fault, duplicate_fault, plan_fault, built_fault, definitions_fault, collection_fault, fault, IsCountFault};
ghost use Rattle.index_build.specs.Numbers.{pair_count, number, numbers_of, numbers_in, counts};
ghost use Rattle.index_build.specs.Counting.{held, held_values};
ghost use Rattle.index_build.specs.Owners.{Texts};
ghost use Rattle.index_build.specs.Repeated.{Follows, Watched, two_at, IsRepeat};

use crate::counts::{Counts, Numbers};
use crate::fault::CountFault;
use crate::owners::Repeats;
use crate::place::{Place, duplicate, keys_in};
use bson_value::NsName;
use bson_view::Held;
use coll_state::{State, name_of};
use containers::Text;
use index_keys::{Keys, Plan, Planned};
use json_tree::Tree;
use std::alloc::{AllocError, Global};

// More than 2^64 - 1 find no memory.
fn sum(count: u64, more: usize) -> Result<u64, AllocError>
    ensures { IfOk result (λ n. n ≡ count + more) }
{
    match count.checked_add(more as u64) {
        Some(sum) => Ok(sum),
        None => Err(AllocError),
    }
}

// The keys are watched where the index is unique.
fn watch(repeats: &mut Repeats, unique: bool, keys: Keys, place: usize) -> Result<(), AllocError>
    ensures unique { unique ≡ true → (lists : List Texts) → Follows repeats.old lists → place ≡ length lists → OnOk result (Follows repeats.new (lists ++ keys ∷ [])) }
    ensures other { unique ≡ false → repeats.new.first ≡ repeats.old.first }
{
    if unique {
        return repeats.add(keys, place);
    }
    Ok(())
}

// The count with the keys of one document more, which stands at this place of all.
fn count_document(
    alloc: Global,
    at: Place<'_>,
    plan: &Plan,
    doc: Held<'_>,
    place: usize,
    count: u64,
    repeats: &mut Repeats,
) -> Result<u64, CountFault>
    ensures count { IfOk result (λ n. n ≡ count + length (key_texts plan.now (held_document doc.entry))) }
    ensures apart { OnOk result (is_some (parallel plan.now (held_document doc.entry)) ≡ false) }
    ensures watched { (docs : List Fields) → Watched plan.now repeats.old docs → place ≡ length docs → OnOk result (Watched plan.now repeats.new (docs ++ held_document doc.entry ∷ [])) }
    ensures fault { IfErr result (λ e. IsCountFault e (option_map (parallel_fault at.entry.ns.now at.entry.index.now) (first_parallel plan.now (held_document doc.entry ∷ [])))) }
{
    let keys = match keys_in(alloc, at, plan, doc) {
        Ok(keys) => keys,
        Err(e) => return Err(e),
    };
    let count = sum(count, keys.len())?;
    watch(repeats, plan.unique(), keys, place)?;
    Ok(count)
}

fn duplicate_at(
    alloc: Global,
    at: Place<'_>,
    docs: &[Held<'_>],
    first: usize,
    second: usize,
) -> Result<CountFault, AllocError>
    requires first { first < length docs.now }
    requires second { second < length docs.now }
    ensures { IfOk result (λ e. e ≡ duplicate_fault at.entry.ns.now at.entry.index.now (two_at (held docs.now) (first, second))) }
{
    duplicate(alloc, at, docs[first], docs[second])
}

// The fault that a key was repeated, where one was.
fn no_repeat(
    alloc: Global,
    at: Place<'_>,
    plan: &Plan,
    docs: &[Held<'_>],
    repeat: Option<(usize, usize)>,
) -> Result<(), CountFault>
    requires apart { first_parallel plan.now (held docs.now) ≡ None }
    requires told { IsRepeat plan.now repeat (held docs.now) }
    ensures faultless { OnOk result (plan_fault at.entry.ns.now at.entry.index.now plan.now (held docs.now) ≡ None) }
    ensures fault { IfErr result (λ e. IsCountFault e (plan_fault at.entry.ns.now at.entry.index.now plan.now (held docs.now))) }
{
    match repeat {
        None => Ok(()),
        Some((first, second)) => Err(duplicate_at(alloc, at, docs, first, second)?),
    }
}

fn count_pairs(
    alloc: Global,
    at: Place<'_>,
    plan: &Plan,
    docs: &[Held<'_>],
) -> Result<u64, CountFault>
    ensures count { IfOk result (λ n. n ≡ pair_count plan.now (held docs.now)) }
    ensures faultless { OnOk result (plan_fault at.entry.ns.now at.entry.index.now plan.now (held docs.now) ≡ None) }
    ensures fault { IfErr result (λ e. IsCountFault e (plan_fault at.entry.ns.now at.entry.index.now plan.now (held docs.now))) }
{
    let mut count = 0;
    let mut repeats = Repeats::new(alloc);
    for (i, doc) in docs.iter().enumerate() {
        match count_document(alloc, at, plan, *doc, i, count, &mut repeats) {
            Ok(more) => count = more,
            Err(e) => return Err(e),
        }
    }
    match no_repeat(alloc, at, plan, docs, repeats.first) {
        Ok(_) => Ok(count),
        Err(e) => Err(e),
    }
}

fn count_definition(
    alloc: Global,
    at: Place<'_>,
    def: &Tree,
    docs: &[Held<'_>],
) -> Result<Option<u64>, CountFault>
    ensures number { IfOk result (λ n. n ≡ number def.now (held docs.now)) }
    ensures faultless { OnOk result (built_fault at.entry.ns.now at.entry.index.now (plan_of def.now) (held docs.now) ≡ None) }
    ensures fault { IfErr result (λ e. IsCountFault e (built_fault at.entry.ns.now at.entry.index.now (plan_of def.now) (held docs.now))) }
{
    match Plan::of(alloc, def)? {
        Planned::Plain(plan) => match count_pairs(alloc, at, &plan, docs) {
            Ok(count) => Ok(Some(count)),
            Err(e) => Err(e),
        },
        Planned::Unbuilt => Ok(None),
    }
}

fn put_number(
    alloc: Global,
    numbers: &mut Numbers,
    index: &str,
    number: Option<u64>,
) -> Result<(), AllocError>
    ensures { OnOk result (numbers.new.items ≡ numbers.old.items ++ (index.now, number) ∷ []) }
{
    numbers.push((Text::of(alloc, index)?, number))?;
    Ok(())
}

/// The number of pairs of a key and an `_id` of each index of a collection that has these documents, or the
/// first fault, as `count_all` has it. The documents stand in the order in which a fault is looked for.
pub fn count_definitions(
    alloc: Global,
    ns: &NsName,
    defs: &[Tree],
    docs: &[Held<'_>],
) -> Result<Numbers, CountFault>
    ensures numbers { IfOk result (λ v. v.items ≡ numbers_of (named defs.now) (held docs.now)) }
    ensures faultless { OnOk result (definitions_fault ns.now (named defs.now) (held docs.now) ≡ None) }
    ensures fault { IfErr result (λ e. IsCountFault e (definitions_fault ns.now (named defs.now) (held docs.now))) }
{
    let mut numbers = Vec::new(alloc);
    let mut left = defs;
    while let Some((def, rest)) = left.split_first() {
        let index = name_of(def);
        let at = Place { ns, index };
        let number = match count_definition(alloc, at, def, docs) {
            Ok(number) => number,
            Err(e) => return Err(e),
        };
        put_number(alloc, &mut numbers, index, number)?;
        left = rest;
    }
    Ok(numbers)
}

// The documents of a collection where they lie.
fn documents<'a>(alloc: Global, state: &'a State, ns: &NsName) -> Result<Vec<Held<'a>>, AllocError>
    ensures { IfOk result (λ ds. held_values ds.items ≡ documents_by_key (map.get state.now.tables ns.now)) }
{
    let mut documents = Vec::new(alloc);
    let mut left = state.documents(ns);
    while let Some(document) = left.next() {
        documents.push(document)?;
    }
    Ok(documents)
}

fn count_collection(alloc: Global, state: &State, ns: &NsName) -> Result<Numbers, CountFault>
    ensures numbers { IfOk result (λ v. v.items ≡ numbers_in (map.get (state_of state.now) ns.now)) }
    ensures faultless { OnOk result (collection_fault ns.now (map.get (state_of state.now) ns.now) ≡ None) }
    ensures fault { IfErr result (λ e. IsCountFault e (collection_fault ns.now (map.get (state_of state.now) ns.now))) }
{
    match state.indexes(ns) {
        None => Ok(Vec::new(alloc)),
        Some(defs) => {
            if defs.is_empty() {
                return Ok(Vec::new(alloc));
            }
            let docs = documents(alloc, state, ns)?;
            count_definitions(alloc, ns, defs.as_slice(), docs.as_slice())
        }
    }
}

fn put_collection(
    alloc: Global,
    collections: &mut Vec<(NsName, Numbers)>,
    ns: &NsName,
    numbers: Numbers,
) -> Result<(), AllocError>
    ensures { OnOk result (collections.new.items ≡ collections.old.items ++ (ns.now, numbers) ∷ []) }
{
    collections.push((ns.copy(alloc)?, numbers))?;
    Ok(())
}

/// The number of pairs of a key and an `_id` of each index that is built, or the first fault: by the names
/// of the collections, then by those of the indexes, and of one index parallel arrays before a key that
/// two documents have. Documents go by the type byte and then by the bytes of their `_id`s.
///
/// It holds a reference to each document of one collection at a time, and the keys of one unique index.
/// The time is that of `keys` for each document and index, and of a search in a tree for each key of a
/// unique one. A number above 2^64 - 1 finds no memory.
pub fn count_all(alloc: Global, state: &State) -> Result<Counts, CountFault>
    ensures counts { IfOk result (λ c. c ≡ counts (state_of state.now)) }
    ensures faultless { OnOk result (fault (state_of state.now) ≡ None) }
    ensures fault { IfErr result (λ e. IsCountFault e (fault (state_of state.now))) }
{
    let mut collections = Vec::new(alloc);
    let mut left = state.namespaces();
    while let Some(ns) = left.next() {
        let numbers = match count_collection(alloc, state, ns) {
            Ok(numbers) => numbers,
            Err(e) => return Err(e),
        };
        put_collection(alloc, &mut collections, ns, numbers)?;
    }
    Ok(Counts::of(collections))
}
