//! Who has the keys of a unique index.
ghost use Rattle.std.specs.Prelude.{List, ℕ, ◌≡◌, ◌≤◌, ◌<◌, ◌+◌, ◌∷◌, [], OnOk, Option, None, if◌then◌else◌, length};
ghost use Rattle.std.specs.Option.{option_copied};
ghost use Rattle.state_model.specs.Keys.{key_cmp, same_key};
ghost use Rattle.coll_state.specs.Stock.{Rise};
ghost use Rattle.index_build.specs.Faults.{or_else};
ghost use Rattle.index_build.specs.Holders.{holder_key, found_key, id_in, holder_of, lesser_key, but_for, least_other};
ghost use Rattle.index_build.specs.Owners.{has};

use crate::holder::Holder;
use crate::newest::Newest;
use bson_value::Bytes;
use index_keys::Key;
use sorted_list::SortedList;
use std::alloc::{AllocError, Global};

/// The documents that have the keys of a unique index.
///
/// The newest stand apart, until a call that may take memory puts them in their places. A search goes over them first.
#[derive(Drop)]
pub(crate) struct Holders {
    settled: SortedList<Holder>,
    recent: Newest,
}

// The holder in the place of the one of its key.
fn settle_one(settled: &mut SortedList<Holder>, holder: Holder)
    requires room { 1 ≤ settled.old.room }
    requires rise { Rise key_cmp holder_key settled.old.items }
    ensures rise { Rise key_cmp holder_key settled.new.items }
    ensures found { (t : List ℕ) → found_key t settled.new.items ≡ (if same_key t holder.key then Some holder else found_key t settled.old.items) }
{
    let _ = settled.remove(|other| other.key.cmp(&holder.key));
    settled.put(holder, |a, b| a.key.cmp(&b.key));
}

fn lesser_key<'a>(a: Option<&'a Bytes>, b: Option<&'a Bytes>) -> Option<&'a Bytes>
    ensures { option_copied result ≡ lesser_key (option_copied a.entry) (option_copied b.entry) }
{
    match (a, b) {
        (None, b) => b,
        (Some(a), None) => Some(a),
        (Some(a), Some(b)) => Some(if b.cmp(a).is_lt() { b } else { a }),
    }
}

fn but_for<'a>(id: &Bytes, holder: Option<&'a Bytes>) -> Option<&'a Bytes>
    ensures { option_copied result ≡ but_for id.now (option_copied holder.entry) }
{
    match holder {
        Some(holder) if !holder.cmp(id).is_eq() => Some(holder),
        _ => None,
    }
}

impl Holders {
    /// Nobody has a key.
    pub(crate) fn new(alloc: Global) -> Holders
        ensures none { (result.recent.items ≡ []) × (result.settled.items ≡ []) }
    {
        Holders {
            settled: SortedList::new(alloc),
            recent: Newest::new(alloc),
        }
    }

    fn holder(&self, key: &Key) -> Option<&Holder>
        requires rise { Rise key_cmp holder_key self.now.settled.items }
        ensures { option_copied result ≡ or_else (found_key key.now self.now.recent.items) (found_key key.now self.now.settled.items) }
    {
        match self.recent.find(key) {
            Some(holder) => Some(holder),
            None => self.settled.find(|holder| holder.key.cmp(key)),
        }
    }

    // Who has the key.
    fn find(&self, key: &Key) -> Option<&Bytes>
        requires rise { Rise key_cmp holder_key self.now.settled.items }
        ensures { option_copied result ≡ holder_of self.now.recent.items self.now.settled.items key.now }
    {
        match self.holder(key) {
            Some(holder) => Some(&holder.id),
            None => None,
        }
    }

    /// The first document but for this one that has one of the keys.
    pub(crate) fn first_other(&self, id: &Bytes, keys: &[Key]) -> Option<&Bytes>
        requires rise { Rise key_cmp holder_key self.now.settled.items }
        ensures { option_copied result ≡ least_other id.now (holder_of self.now.recent.items self.now.settled.items) keys.now }
    {
        let mut first = None;
        let mut left = keys;
        while let Some((key, rest)) = left.split_first() {
            first = lesser_key(first, but_for(id, self.find(key)));
            left = rest;
        }
        first
    }

    // Puts the newest in their places.
    fn settle(&mut self) -> Result<(), AllocError>
        requires rise { Rise key_cmp holder_key self.old.settled.items }
        ensures rise { Rise key_cmp holder_key self.new.settled.items }
        ensures same { (t : List ℕ) → holder_of self.new.recent.items self.new.settled.items t ≡ holder_of self.old.recent.items self.old.settled.items t }
    {
        while !self.recent.is_empty() {
            self.settled.reserve(1)?;
            if let Some(holder) = self.recent.pop() {
                settle_one(&mut self.settled, holder);
            }
        }
        Ok(())
    }

    /// Room for so many more.
    pub(crate) fn reserve(&mut self, more: usize) -> Result<(), AllocError>
        requires rise { Rise key_cmp holder_key self.old.settled.items }
        ensures rise { Rise key_cmp holder_key self.new.settled.items }
        ensures same { (t : List ℕ) → holder_of self.new.recent.items self.new.settled.items t ≡ holder_of self.old.recent.items self.old.settled.items t }
        ensures room { OnOk result (more ≤ self.new.recent.room) }
    {
        self.settle()?;
        self.recent.reserve(more)
    }

    // The holder of a key that nobody has.
    fn give(&mut self, holder: Holder)
        requires rise { Rise key_cmp holder_key self.old.settled.items }
        requires room { 1 ≤ self.old.recent.room }
        ensures settled { self.new.settled ≡ self.old.settled }
        ensures holders { (t : List ℕ) → holder_of self.new.recent.items self.new.settled.items t ≡ or_else (holder_of self.old.recent.items self.old.settled.items t) (id_in (found_key t (holder ∷ []))) }
        ensures room { self.old.recent.room ≤ self.new.recent.room + 1 }
    {
        if self.find(&holder.key).is_some() {
            return;
        }
        self.recent.put(holder);
    }

    /// The holders of keys that nobody has.
    pub(crate) fn give_all(&mut self, holders: Vec<Holder>)
        requires rise { Rise key_cmp holder_key self.old.settled.items }
        requires room { length holders.items ≤ self.old.recent.room }
        ensures settled { self.new.settled ≡ self.old.settled }
        ensures holders { (t : List ℕ) → holder_of self.new.recent.items self.new.settled.items t ≡ or_else (holder_of self.old.recent.items self.old.settled.items t) (id_in (found_key t holders.items)) }
    {
        for holder in holders {
            self.give(holder);
        }
    }

    // Nobody has the key any more.
    fn take(&mut self, key: &Key)
        requires rise { Rise key_cmp holder_key self.old.settled.items }
        ensures rise { Rise key_cmp holder_key self.new.settled.items }
        ensures holders { (t : List ℕ) → holder_of self.new.recent.items self.new.settled.items t ≡ (if same_key t key.now then None else holder_of self.old.recent.items self.old.settled.items t) }
        ensures room { self.old.recent.room ≤ self.new.recent.room }
    {
        let _ = self.settled.remove(|holder| holder.key.cmp(key));
        self.recent.remove(key);
    }

    /// Nobody has the keys any more. The last goes first: so none moves among the newest where these are of one document.
    pub(crate) fn take_all(&mut self, keys: &[Key])
        requires rise { Rise key_cmp holder_key self.old.settled.items }
        ensures rise { Rise key_cmp holder_key self.new.settled.items }
        ensures holders { (t : List ℕ) → holder_of self.new.recent.items self.new.settled.items t ≡ (if has t keys.now then None else holder_of self.old.recent.items self.old.settled.items t) }
        ensures room { self.old.recent.room ≤ self.new.recent.room }
    {
        let mut left = keys;
        while let Some((key, rest)) = left.split_last() {
            self.take(key);
            left = rest;
        }
    }
}
