//! The indexes of several collections.
ghost use Rattle.std.specs.Prelude.{◌≡◌, List, OnOk, OnErr, IfOk, Some, None, false, is_some};
ghost use Rattle.std.specs.FinMap as map;
ghost use Rattle.std.specs.Option.{option_copied};
ghost use Rattle.bson_encode.specs.Key.{key_of};
ghost use Rattle.bson_value.specs.declared.namespace.NsName.{NsName as Name};
ghost use Rattle.coll_state.specs.Changes.{put, remove, put_row};
ghost use Rattle.coll_state.specs.Rows.{Rows, AreSound, id_of, key_in};
ghost use Rattle.index_build.specs.Owned.{Holding};
ghost use Rattle.history_model.specs.Documents.{id_first, is_good_document};
ghost use Rattle.history_model.specs.Indexes.{IndexesHold};
ghost use Rattle.history_model.specs.Refusals.{rows_in, definitions_in, with_good, with_update};
ghost use Rattle.command_refusals.specs.Keyed.{AreKeyed};
ghost use Rattle.command_refusals.specs.Tests.{refusal_by, rows_refusal};
ghost use Rattle.state_model.specs.Keys.{same_ns};
ghost use Rattle.kept_indexes.specs.Kept.{kept_at, AreBuilt, AreKept, AreElsewhere, HasIndexes};
ghost use Rattle.kept_indexes.specs.Moves.{Becomes, ArePut, AreTakenOut};
ghost use Rattle.kept_indexes.specs.Verdicts.{some_shared, some_parallel};

use crate::collection::{indexes_over, with_document, without_document};
use crate::verdict::judge_all;
use bson_value::{Doc, List, NsName, Value};
use coll_state::State;
use command_refusals::{all_documents, put_refusal, refusal_by};
use command_rules::is_good_document;
use index_build::Index;
use schedule_model::Refused;
use std::alloc::{AllocError, Global};
use std::collections::BTreeMap;
use std::marker::Model;
use update_ops::Updated;

/// Indexes of collections, by the names of the collections. One that isn't kept is to be looked at document by document.
#[derive(Drop)]
pub struct KeptIndexes {
    collections: BTreeMap<NsName, List<Index>>,
}

impl Model for KeptIndexes {
    ghost use Rattle.std.specs.Coded.{coded_list, coded×};
    ghost use Rattle.bson_value.specs.contracts.namespace.NsName as the_name;
    ghost use Rattle.index_build.specs.contracts.index.Index as the_index;
    ghost use Rattle.kept_indexes.specs.Kept.{KeptCollections};

    ghost Value = { KeptCollections };

    ghost coded = { coded_list (coded× the_name.the_row.coded (coded_list the_index.the_row.coded)) };

    ghost view = { λ k. k.collections.entries };
}

// The built indexes of a collection over its documents; none where it has no definitions.
fn indexes_of(alloc: Global, state: &State, ns: &NsName) -> Result<Option<List<Index>>, AllocError>
    requires keyed { AreKeyed state.now }
    requires hold { IndexesHold state.now }
    ensures { IfOk result (λ o. AreBuilt (map.get state.now.tables ns.now) o) }
{
    state.is_sound();
    let Some(defs) = state.indexes(ns) else {
        return Ok(None);
    };
    if defs.is_empty() {
        return Ok(None);
    }
    let docs = all_documents(alloc, state, ns)?;
    match indexes_over(alloc, defs.as_slice(), docs.as_slice()) {
        Some(indexes) => Ok(Some(indexes)),
        None => Err(AllocError),
    }
}

// What these indexes say of a document that is to be put under an `_id`.
fn told(
    alloc: Global,
    indexes: &[Index],
    id: &Value,
    doc: &Doc,
) -> Result<Option<Refused>, AllocError>
    ensures { IfOk result (λ o. o ≡ refusal_by (some_shared indexes.now (key_of id.now) doc.now) (some_parallel indexes.now (key_of id.now) doc.now)) }
{
    let verdict = judge_all(alloc, indexes, id, doc)?;
    Ok(refusal_by(verdict.shared, verdict.parallel))
}

// The indexes under this name, in the place of what is there. Where there is no memory, nothing changes.
fn set(
    collections: &mut BTreeMap<NsName, List<Index>>,
    alloc: Global,
    ns: &NsName,
    indexes: List<Index>,
) -> Result<(), AllocError>
    ensures set { OnOk result (kept_at collections.new.entries ns.now ≡ Some indexes) }
    ensures others { OnOk result ((n : Name) → same_ns ns.now n ≡ false → kept_at collections.new.entries n ≡ kept_at collections.old.entries n) }
    ensures err { OnErr result (collections.new.entries ≡ collections.old.entries) }
{
    let name = ns.copy(alloc)?;
    match collections.insert(name, indexes) {
        Ok(_) => Ok(()),
        Err(_) => Err(AllocError),
    }
}

impl KeptIndexes {
    /// Nothing is kept. It takes no memory.
    pub fn new(alloc: Global) -> KeptIndexes
        ensures none { (n : Name) → kept_at result n ≡ None }
        ensures kept { (r : Rows) → AreKept result r }
    {
        KeptIndexes {
            collections: BTreeMap::new(alloc),
        }
    }

    fn get(&self, ns: &NsName) -> Option<&[Index]>
        ensures { option_copied result ≡ kept_at self.now ns.now }
    {
        match self.collections.get(ns) {
            Some(indexes) => Some(indexes.as_slice()),
            None => None,
        }
    }

    // Takes a collection out.
    fn take(&mut self, ns: &NsName) -> Option<List<Index>>
        ensures taken { result ≡ kept_at self.old ns.now }
        ensures gone { kept_at self.new ns.now ≡ None }
        ensures others { (n : Name) → same_ns ns.now n ≡ false → kept_at self.new n ≡ kept_at self.old n }
    {
        self.collections.remove(ns)
    }

    // Takes a collection in. Where there is no memory, nothing changes.
    fn add(&mut self, alloc: Global, ns: &NsName, indexes: List<Index>) -> Result<(), AllocError>
        ensures added { OnOk result (kept_at self.new ns.now ≡ Some indexes) }
        ensures others { (n : Name) → same_ns ns.now n ≡ false → kept_at self.new n ≡ kept_at self.old n }
        ensures err { OnErr result (self.new ≡ self.old) }
    {
        set(&mut self.collections, alloc, ns, indexes)
    }

    /// Why the indexes of a collection refuse a document that is to be put under an `_id`. Where the collection is kept, it
    /// takes a search for each index and each key of the document; else the time is that of testing all documents.
    pub fn put_refusal(
        &self,
        alloc: Global,
        state: &State,
        ns: &NsName,
        id: &Value,
        doc: &Doc,
    ) -> Result<Option<Refused>, AllocError>
        requires keyed { AreKeyed state.now }
        requires kept { AreKept self.now state.now }
        ensures { IfOk result (λ o. o ≡ rows_refusal (Some (put_row 0 (key_of id.now) doc.now (rows_in (map.get state.now.tables ns.now)))) (definitions_in (map.get state.now.tables ns.now))) }
    {
        match self.get(ns) {
            Some(indexes) => told(alloc, indexes, id, doc),
            None => put_refusal(alloc, state, ns, id, doc),
        }
    }

    /// Why the kept indexes of a collection refuse a document that is to be put under an `_id`; nothing where none are kept.
    /// Where all that the collection has are kept, that is what they refuse of its documents. It takes a search for each index
    /// and each key of the document.
    pub fn kept_refusal(
        &self,
        alloc: Global,
        ns: &NsName,
        id: &Value,
        doc: &Doc,
    ) -> Result<Option<Refused>, AllocError>
        ensures { (r : Rows) → AreKept self.now r → HasIndexes self.now ns.now r → IfOk result (λ o. o ≡ rows_refusal (Some (put_row 0 (key_of id.now) doc.now (rows_in (map.get r.tables ns.now)))) (definitions_in (map.get r.tables ns.now))) }
    {
        match self.get(ns) {
            Some(indexes) => told(alloc, indexes, id, doc),
            None => Ok(None),
        }
    }

    /// Why the indexes refuse a document that is to be put, if it may be stored. `first` is the document as it is to be kept.
    pub fn refusal(
        &self,
        alloc: Global,
        state: &State,
        ns: &NsName,
        doc: &Doc,
        first: &Doc,
    ) -> Result<Option<Refused>, AllocError>
        requires keyed { AreKeyed state.now }
        requires kept { AreKept self.now state.now }
        requires first { first.now ≡ id_first doc.now }
        ensures { IfOk result (λ o. o ≡ rows_refusal (with_good (is_good_document doc.now) doc.now (rows_in (map.get state.now.tables ns.now))) (definitions_in (map.get state.now.tables ns.now))) }
    {
        if !is_good_document(doc) {
            return Ok(None);
        }
        match doc.get("_id") {
            Some(id) => self.put_refusal(alloc, state, ns, id, first),
            None => Ok(None),
        }
    }

    /// Why the indexes refuse the document that an update makes, where it makes one.
    pub fn updated_refusal(
        &self,
        alloc: Global,
        state: &State,
        ns: &NsName,
        id: &Value,
        updated: Option<&Updated>,
    ) -> Result<Option<Refused>, AllocError>
        requires keyed { AreKeyed state.now }
        requires kept { AreKept self.now state.now }
        ensures { IfOk result (λ o. o ≡ rows_refusal (with_update id.now (option_copied updated.entry) (rows_in (map.get state.now.tables ns.now))) (definitions_in (map.get state.now.tables ns.now))) }
    {
        match updated {
            Some(updated) => self.put_refusal(alloc, state, ns, id, &updated.doc),
            None => Ok(None),
        }
    }

    // Whether a collection is kept.
    fn has(&self, ns: &NsName) -> bool
        ensures { result ≡ is_some (kept_at self.now ns.now) }
    {
        self.get(ns).is_some()
    }

    /// Takes the indexes of a collection in, built over all of its documents, where it has some that aren't kept yet. What is
    /// kept already stays as it is. Without memory for them nothing changes.
    pub fn keep(&mut self, alloc: Global, state: &State, ns: &NsName) -> Result<(), AllocError>
        requires keyed { AreKeyed state.now }
        requires hold { IndexesHold state.now }
        requires kept { AreKept self.old state.now }
        ensures kept { AreKept self.new state.now }
        ensures taken { OnOk result (HasIndexes self.new ns.now state.now) }
        ensures stays { (hs : List Holding) → kept_at self.old ns.now ≡ Some hs → kept_at self.new ns.now ≡ Some hs }
        ensures others { (n : Name) → same_ns ns.now n ≡ false → kept_at self.new n ≡ kept_at self.old n }
        ensures err { OnErr result (self.new ≡ self.old) }
    {
        if self.has(ns) {
            return Ok(());
        }
        match indexes_of(alloc, state, ns)? {
            Some(indexes) => self.add(alloc, ns, indexes),
            None => Ok(()),
        }
    }

    /// Follows a put of a document. A collection that is kept stays so, with the document in the place of the one of its `_id`.
    /// On an error, a document without an `_id`, one that the indexes refuse, or want of memory, the collection isn't kept any
    /// more. The others stay as they are.
    pub fn put(&mut self, alloc: Global, ns: &NsName, doc: &Doc) -> Result<(), AllocError>
        ensures kept { (r : Rows) → AreKept self.old r → AreSound r → IndexesHold (put ns.now doc.now r) → AreKept self.new (put ns.now doc.now r) }
        ensures moved { OnOk result (Becomes (ArePut (key_in (id_of doc.now)) doc.now) (kept_at self.old ns.now) (kept_at self.new ns.now)) }
        ensures gone { OnErr result (kept_at self.new ns.now ≡ None) }
        ensures others { (n : Name) → same_ns ns.now n ≡ false → kept_at self.new n ≡ kept_at self.old n }
    {
        let Some(indexes) = self.take(ns) else {
            return Ok(());
        };
        match with_document(alloc, indexes, doc) {
            Some(indexes) => self.add(alloc, ns, indexes),
            None => Err(AllocError),
        }
    }

    /// Follows a removal. A collection that is kept stays so, without the document of this `_id`. On an error, which is want of
    /// memory, the collection isn't kept any more. The others stay as they are.
    pub fn remove(&mut self, alloc: Global, ns: &NsName, id: &Value) -> Result<(), AllocError>
        ensures kept { (r : Rows) → AreKept self.old r → IndexesHold (remove ns.now (key_of id.now) r) → AreKept self.new (remove ns.now (key_of id.now) r) }
        ensures moved { OnOk result (Becomes (AreTakenOut (key_of id.now)) (kept_at self.old ns.now) (kept_at self.new ns.now)) }
        ensures gone { OnErr result (kept_at self.new ns.now ≡ None) }
        ensures others { (n : Name) → same_ns ns.now n ≡ false → kept_at self.new n ≡ kept_at self.old n }
    {
        let Some(indexes) = self.take(ns) else {
            return Ok(());
        };
        match without_document(alloc, indexes, id) {
            Some(indexes) => self.add(alloc, ns, indexes),
            None => Err(AllocError),
        }
    }

    /// The collection isn't kept any more; the others stay as they are.
    pub fn forget(&mut self, ns: &NsName)
        ensures kept { (r s : Rows) → AreKept self.old r → AreElsewhere ns.now r s → AreKept self.new s }
        ensures gone { kept_at self.new ns.now ≡ None }
        ensures others { (n : Name) → same_ns ns.now n ≡ false → kept_at self.new n ≡ kept_at self.old n }
    {
        let _ = self.take(ns);
    }

    /// No collection is kept any more.
    pub fn clear(&mut self)
        ensures { (r : Rows) → AreKept self.new r }
    {
        self.collections.clear();
    }
}
