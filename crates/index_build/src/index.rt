//! An index that is kept up as documents come and go.
ghost use Rattle.std.specs.Prelude.{◌≡◌, ◌≤◌, IfOk, IfErr, OnOk, OnErr, Some, None, is_some, true, false, min, option_map, suc, ℕ, List, length};
ghost use Rattle.index_build.specs.Faults.{or_else};
ghost use Rattle.std.specs.FinMap as map;
ghost use Rattle.bson_encode.specs.Key.{key_of};
ghost use Rattle.bson_view.specs.Held.{held_document};
ghost use Rattle.state_model.specs.Keys.{key_cmp};
ghost use Rattle.coll_state.specs.Stock.{Rise};
ghost use Rattle.index_keys.specs.Keys.{parallel};
ghost use Rattle.index_keys.specs.Texts.{key_texts};
ghost use Rattle.index_build.specs.Entries.{entry_key, owned_of, owned_in, exchanged, room_for, exchange_refusal};
ghost use Rattle.index_build.specs.Holders.{holder_key, found_key, id_in, holder_of, held_by, released};
ghost use Rattle.index_build.specs.Owned.{refusal, refusal_if, refusal_by, first_other, put_document, pairs_in, texts_count, shared_fault, IsIndexFault};

use crate::entries::{Entries, find, put, remove};
use crate::entry::Entry;
use crate::holder::Holder;
use crate::holders::Holders;
use crate::index_fault::IndexFault;
use crate::swap::Swap;
use bson_encode::put_key;
use bson_value::{Bytes, Value};
use bson_view::Held;
use index_keys::{Key, KeyFault, Keys, Plan, keys};
use std::alloc::{AllocError, Global};
use std::marker::Model;

/// An index over the documents that were put in: their keys, under the keys of their `_id`s. A unique one also
/// knows who has a key.
///
/// Contracts also see how much room it has (`spare`): one more than the number of keys of a document that a swap
/// may put in.
#[derive(Drop)]
pub struct Index {
    plan: Plan,
    entries: Entries,
    holders: Holders,
}

impl Model for Index {
    ghost use Rattle.index_build.specs.Owned.{Holding, holding_code};

    ghost Value = { Holding };

    ghost coded = { holding_code };

    ghost use Rattle.index_build.specs.Entries.{owned_in};
    ghost use Rattle.index_build.specs.Holders.{spare_in, AreKept};

    ghost view = { λ i. record { plan = i.plan; owned = owned_in i.entries.items; spare = spare_in i.entries.room i.holders.recent.room } };

    ghost invariant = { λ i. AreKept i.plan i.entries.items i.holders.recent.items i.holders.settled.items };
}

// The key of an `_id`.
fn key_of(alloc: Global, id: &Value) -> Result<Bytes, AllocError>
    ensures { IfOk result (λ key. key ≡ key_of id.now) }
{
    let mut key = Vec::new(alloc);
    put_key(&mut key, id)?;
    Ok(Bytes::from_vec(key))
}

// The keys of a document, or the fault that two fields meet arrays.
fn own_keys(alloc: Global, plan: &Plan, id: &Value, doc: Held<'_>) -> Result<Keys, IndexFault>
    ensures keys { IfOk result (λ ks. ks ≡ key_texts plan.now (held_document doc.entry)) }
    ensures apart { OnOk result (is_some (parallel plan.now (held_document doc.entry)) ≡ false) }
    ensures fault { IfErr result (λ e. IsIndexFault e id.now (refusal_by (is_some (parallel plan.now (held_document doc.entry))) false None)) }
{
    match keys(alloc, plan, doc) {
        Ok(keys) => Ok(keys),
        Err(KeyFault::NoMemory) => Err(IndexFault::NoMemory),
        Err(KeyFault::ParallelArrays { .. }) => Err(IndexFault::ParallelArrays {
            id: id.copy(alloc)?,
        }),
    }
}

fn duplicate(alloc: Global, first: &Value, second: &Value) -> Result<IndexFault, AllocError>
    ensures { IfOk result (λ e. e ≡ shared_fault first.now second.now) }
{
    Ok(IndexFault::DuplicateKey {
        first: first.copy(alloc)?,
        second: second.copy(alloc)?,
    })
}

// A document with its keys.
fn holders_of(alloc: Global, id: &Bytes, keys: &[Key]) -> Result<Vec<Holder>, AllocError>
    ensures { IfOk result (λ hs. hs.items ≡ held_by id.now keys.now) }
{
    let mut holders = Vec::new(alloc);
    for key in keys {
        holders.push(Holder {
            key: key.copy(alloc)?,
            id: id.copy(alloc)?,
        })?;
    }
    Ok(holders)
}

// Nobody has the keys of this document any more.
fn release(entries: &Entries, holders: &mut Holders, id: &Bytes)
    requires entries { Rise key_cmp entry_key entries.now.items }
    requires rise { Rise key_cmp holder_key holders.old.settled.items }
    ensures rise { Rise key_cmp holder_key holders.new.settled.items }
    ensures holders { (t : List ℕ) → holder_of holders.new.recent.items holders.new.settled.items t ≡ released (map.get (owned_in entries.now.items) id.now) (holder_of holders.old.recent.items holders.old.settled.items) t }
    ensures room { holders.old.recent.room ≤ holders.new.recent.room }
{
    if let Some(entry) = find(entries, id) {
        holders.take_all(entry.keys.as_slice());
    }
}

// In a unique index, the holders of a document's keys in the place of those that it had.
fn hand_over(unique: bool, entries: &Entries, holders: &mut Holders, id: &Bytes, own: Vec<Holder>)
    requires entries { Rise key_cmp entry_key entries.now.items }
    requires rise { Rise key_cmp holder_key holders.old.settled.items }
    requires room { unique ≡ true → length own.items ≤ holders.old.recent.room }
    ensures rise { Rise key_cmp holder_key holders.new.settled.items }
    ensures holders { unique ≡ true → (t : List ℕ) → holder_of holders.new.recent.items holders.new.settled.items t ≡ or_else (released (map.get (owned_in entries.now.items) id.now) (holder_of holders.old.recent.items holders.old.settled.items) t) (id_in (found_key t own.items)) }
{
    if unique {
        release(entries, holders, id);
        holders.give_all(own);
    }
}

// The number of pairs, at most 2^64 - 1.
fn total(entries: &Entries) -> u64
    ensures { result ≡ min (texts_count (owned_of entries.now.items)) 18446744073709551615 }
{
    let mut count: u64 = 0;
    let mut left = entries.walk();
    while let Some(entry) = left.next() {
        count = count.saturating_add(entry.keys.len() as u64);
    }
    count
}

impl Index {
    /// An index that has no pairs.
    pub fn new(alloc: Global, plan: Plan) -> Index
        ensures plan { result.plan ≡ plan }
        ensures owned { result.owned ≡ map.empty }
    {
        Index {
            plan,
            entries: Entries::new(alloc),
            holders: Holders::new(alloc),
        }
    }

    /// The number of pairs of a key and an `_id`, at most 2^64 - 1. It takes no memory, and goes over all
    /// documents that are in.
    pub fn len(&self) -> u64
        ensures { result ≡ min (pairs_in self.now.owned) 18446744073709551615 }
    {
        total(&self.entries)
    }

    // The fault that another document has one of the keys, where the index is unique.
    fn no_other(
        &self,
        alloc: Global,
        id: &Value,
        key: &Bytes,
        keys: &[Key],
    ) -> Result<(), IndexFault>
        ensures apart { OnOk result (refusal_by false self.now.plan.unique (first_other key.now keys.now self.now.owned) ≡ None) }
        ensures fault { IfErr result (λ e. IsIndexFault e id.now (refusal_by false self.now.plan.unique (first_other key.now keys.now self.now.owned))) }
    {
        if !self.plan.unique() {
            return Ok(());
        }
        let Some(other) = self.holders.first_other(key, keys) else {
            return Ok(());
        };
        match find(&self.entries, other) {
            Some(entry) => Err(duplicate(alloc, &entry.id, id)?),
            None => unreachable!(),
        }
    }

    // The keys of a document that may be taken in.
    fn allowed(
        &self,
        alloc: Global,
        id: &Value,
        key: &Bytes,
        doc: Held<'_>,
    ) -> Result<Keys, IndexFault>
        ensures keys { IfOk result (λ ks. ks ≡ key_texts self.now.plan (held_document doc.entry)) }
        ensures allowed { OnOk result (refusal self.now.plan key.now (held_document doc.entry) self.now.owned ≡ None) }
        ensures fault { IfErr result (λ e. IsIndexFault e id.now (refusal self.now.plan key.now (held_document doc.entry) self.now.owned)) }
    {
        let keys = match own_keys(alloc, &self.plan, id, doc) {
            Ok(keys) => keys,
            Err(e) => return Err(e),
        };
        match self.no_other(alloc, id, key, keys.as_slice()) {
            Ok(_) => Ok(keys),
            Err(e) => Err(e),
        }
    }

    /// Answers as `add`, and takes nothing in.
    pub fn test(&self, alloc: Global, id: &Value, doc: Held<'_>) -> Result<(), IndexFault>
        ensures allowed { OnOk result (refusal self.now.plan (key_of id.now) (held_document doc.entry) self.now.owned ≡ None) }
        ensures fault { IfErr result (λ e. IsIndexFault e id.now (refusal self.now.plan (key_of id.now) (held_document doc.entry) self.now.owned)) }
    {
        let key = key_of(alloc, id)?;
        match self.allowed(alloc, id, &key, doc) {
            Ok(_) => Ok(()),
            Err(e) => Err(e),
        }
    }

    // What takes a document in.
    fn swap_of(
        &self,
        alloc: Global,
        id: &Value,
        key: Bytes,
        doc: Held<'_>,
    ) -> Result<Swap, IndexFault>
        requires key { key ≡ key_of id.now }
        ensures key { IfOk result (λ s. s.key ≡ key) }
        ensures unique { IfOk result (λ s. s.unique ≡ self.now.plan.unique) }
        ensures keys { IfOk result (λ s. s.keys ≡ Some (key_texts self.now.plan (held_document doc.entry))) }
        ensures allowed { OnOk result (refusal self.now.plan key (held_document doc.entry) self.now.owned ≡ None) }
        ensures fault { IfErr result (λ e. IsIndexFault e id.now (refusal self.now.plan key (held_document doc.entry) self.now.owned)) }
    {
        let keys = match self.allowed(alloc, id, &key, doc) {
            Ok(keys) => keys,
            Err(e) => return Err(e),
        };
        let unique = self.plan.unique();
        let holders = if unique {
            holders_of(alloc, &key, keys.as_slice())?
        } else {
            Vec::new(alloc)
        };
        let entry = Entry {
            key: key.copy(alloc)?,
            id: id.copy(alloc)?,
            keys,
        };
        Ok(Swap::of(key, unique, Some(entry), holders))
    }

    // Room for a document with so many keys.
    fn reserve(&mut self, keys: usize) -> Result<(), AllocError>
        ensures plan { self.new.plan ≡ self.old.plan }
        ensures owned { self.new.owned ≡ self.old.owned }
        ensures room { OnOk result (suc keys ≤ self.new.spare) }
    {
        self.entries.reserve(1)?;
        self.holders.reserve(keys)
    }

    fn prepare_entry(
        &mut self,
        alloc: Global,
        id: &Value,
        key: Bytes,
        doc: Held<'_>,
    ) -> Result<Swap, IndexFault>
        requires key { key ≡ key_of id.now }
        ensures plan { self.new.plan ≡ self.old.plan }
        ensures owned { self.new.owned ≡ self.old.owned }
        ensures key { IfOk result (λ s. s.key ≡ key) }
        ensures unique { IfOk result (λ s. s.unique ≡ self.old.plan.unique) }
        ensures keys { IfOk result (λ s. s.keys ≡ Some (key_texts self.old.plan (held_document doc.entry))) }
        ensures room { IfOk result (λ s. room_for s.keys ≤ self.new.spare) }
        ensures allowed { OnOk result (refusal self.old.plan key (held_document doc.entry) self.old.owned ≡ None) }
        ensures fault { IfErr result (λ e. IsIndexFault e id.now (refusal self.old.plan key (held_document doc.entry) self.old.owned)) }
    {
        let swap = match self.swap_of(alloc, id, key, doc) {
            Ok(swap) => swap,
            Err(e) => return Err(e),
        };
        self.reserve(swap.key_count())?;
        Ok(swap)
    }

    /// What makes of the index what `add` makes of it, or `take_out` where there is no document, by
    /// `swap`, which takes no memory. Nothing is refused without a document. The pairs stay as they are.
    pub fn prepare(
        &mut self,
        alloc: Global,
        id: &Value,
        doc: Option<Held<'_>>,
    ) -> Result<Swap, IndexFault>
        ensures plan { self.new.plan ≡ self.old.plan }
        ensures owned { self.new.owned ≡ self.old.owned }
        ensures key { IfOk result (λ s. s.key ≡ key_of id.now) }
        ensures unique { IfOk result (λ s. s.unique ≡ self.old.plan.unique) }
        ensures keys { IfOk result (λ s. s.keys ≡ option_map (λ d. key_texts self.old.plan (held_document d)) doc.entry) }
        ensures room { IfOk result (λ s. room_for s.keys ≤ self.new.spare) }
        ensures free { IfOk result (λ s. exchange_refusal s self.new.owned ≡ None) }
        ensures allowed { OnOk result (refusal_if self.old.plan (key_of id.now) (option_map held_document doc.entry) self.old.owned ≡ None) }
        ensures fault { IfErr result (λ e. IsIndexFault e id.now (refusal_if self.old.plan (key_of id.now) (option_map held_document doc.entry) self.old.owned)) }
    {
        let key = key_of(alloc, id)?;
        match doc {
            None => Ok(Swap::of(key, self.plan.unique(), None, Vec::new(alloc))),
            Some(doc) => self.prepare_entry(alloc, id, key, doc),
        }
    }

    /// Makes the change that was made ready, where there is room for it and, in a unique index, no other document
    /// has one of its keys. It takes no memory.
    pub fn swap(&mut self, swap: Swap)
        requires unique { swap.unique ≡ self.old.plan.unique }
        requires room { room_for swap.keys ≤ self.old.spare }
        requires free { exchange_refusal swap self.old.owned ≡ None }
        ensures plan { self.new.plan ≡ self.old.plan }
        ensures owned { self.new.owned ≡ exchanged swap self.old.owned }
    {
        let (key, entry, holders) = swap.into_parts();
        let unique = self.plan.unique();
        hand_over(unique, &self.entries, &mut self.holders, &key, holders);
        match entry {
            Some(entry) => put(&mut self.entries, entry),
            None => {
                let _ = remove(&mut self.entries, &key);
            }
        }
    }

    /// The pairs of the document, in the place of those that its `_id` had, if any. A document is refused
    /// in which two fields of the index meet arrays, or, where the index is unique, of which another
    /// document has a key. Then, and without memory, nothing changes.
    pub fn add(&mut self, alloc: Global, id: &Value, doc: Held<'_>) -> Result<(), IndexFault>
        ensures plan { self.new.plan ≡ self.old.plan }
        ensures ok { OnOk result (self.new.owned ≡ put_document self.old.plan self.old.owned (key_of id.now, held_document doc.entry)) }
        ensures err { OnErr result (self.new.owned ≡ self.old.owned) }
        ensures allowed { OnOk result (refusal self.old.plan (key_of id.now) (held_document doc.entry) self.old.owned ≡ None) }
        ensures fault { IfErr result (λ e. IsIndexFault e id.now (refusal self.old.plan (key_of id.now) (held_document doc.entry) self.old.owned)) }
    {
        match self.prepare(alloc, id, Some(doc)) {
            Ok(swap) => {
                self.swap(swap);
                Ok(())
            }
            Err(e) => Err(e),
        }
    }

    /// Takes the pairs of an `_id` out, and says whether a document of this `_id` was in.
    pub fn take_out(&mut self, alloc: Global, id: &Value) -> Result<bool, AllocError>
        ensures plan { self.new.plan ≡ self.old.plan }
        ensures ok { OnOk result (self.new.owned ≡ map.remove self.old.owned (key_of id.now)) }
        ensures there { IfOk result (λ there. there ≡ map.contains_key self.old.owned (key_of id.now)) }
        ensures err { OnErr result (self.new.owned ≡ self.old.owned) }
    {
        let key = key_of(alloc, id)?;
        let unique = self.plan.unique();
        let none = Vec::new(alloc);
        hand_over(unique, &self.entries, &mut self.holders, &key, none);
        Ok(remove(&mut self.entries, &key))
    }
}
