//! The newest holders of keys.
ghost use Rattle.std.specs.Prelude.{ℕ, List, ◌≡◌, ◌≤◌, ◌+◌, ◌==◌, [], ◌∷◌, ◌++◌, OnOk, None, MatchOption, MatchResult, if◌then◌else◌, length};
ghost use Rattle.std.specs.Option.{option_copied};
ghost use Rattle.std.specs.List.Sorted.{IsSearchInRange};
ghost use Rattle.state_model.specs.Keys.{key_cmp, same_key};
ghost use Rattle.coll_state.specs.Stock.{Rise, beside};
ghost use Rattle.sorted_list.specs.Order.{IsFound, IsGap, place};
ghost use Rattle.index_build.specs.Faults.{or_else};
ghost use Rattle.index_build.specs.Holders.{holder_key, found_key};

use crate::holder::Holder;
use index_keys::Key;
use std::alloc::{AllocError, Global};
use std::marker::Model;

/// Holders by rising keys. Contracts also see how many more can be put without taking memory (`room`).
///
/// A search takes log n steps. To put a holder in or to take one out moves those of greater keys.
#[derive(Drop)]
pub(crate) struct Newest {
    holders: Vec<Holder>,
}

impl Model for Newest {
    ghost use Rattle.std.specs.Prelude.{◌-◌, length};
    ghost use Rattle.std.specs.Vec.{vec_capacity};
    ghost use Rattle.state_model.specs.Keys.{key_cmp};
    ghost use Rattle.coll_state.specs.Stock.{Rise};
    ghost use Rattle.index_build.specs.Holders.{holder_key, NewestHolders, newest_code};

    ghost Value = { NewestHolders };

    ghost coded = { newest_code };

    ghost view = { λ n. record {
      items = n.holders.items;
      room = vec_capacity n.holders - length n.holders.items;
    } };

    ghost invariant = { λ n. Rise key_cmp holder_key n.holders.items };
}

// Where the holder of a key stands, or how many have a lesser key.
fn search(holders: &[Holder], key: &Key) -> Result<usize, usize>
    requires { Rise key_cmp holder_key holders.now }
    ensures bound { IsSearchInRange result (length holders.now) }
    ensures place { MatchResult result (IsFound (beside key_cmp holder_key key.now) holders.now) (IsGap (beside key_cmp holder_key key.now) holders.now) }
{
    holders.binary_search_by(|holder| holder.key.cmp(key))
}

// How many have a lesser key.
fn place(holders: &[Holder], key: &Key) -> usize
    requires { Rise key_cmp holder_key holders.now }
    ensures bound { result ≤ length holders.now }
    ensures place { result ≡ place (beside key_cmp holder_key key.now) holders.now }
{
    match search(holders, key) {
        Ok(at) => at,
        Err(at) => at,
    }
}

impl Newest {
    /// No holders. It takes no memory.
    pub(crate) fn new(alloc: Global) -> Newest
        ensures { result.items ≡ [] }
    {
        Newest {
            holders: Vec::new(alloc),
        }
    }

    pub(crate) fn is_empty(&self) -> bool
        ensures { result ≡ (length self.now.items == 0) }
    {
        self.holders.is_empty()
    }

    /// Who has the key.
    pub(crate) fn find(&self, key: &Key) -> Option<&Holder>
        ensures { option_copied result ≡ found_key key.now self.now.items }
    {
        match search(self.holders.as_slice(), key) {
            Ok(at) => Some(&self.holders[at]),
            Err(_) => None,
        }
    }

    /// Room for so many more.
    pub(crate) fn reserve(&mut self, more: usize) -> Result<(), AllocError>
        ensures items { self.new.items ≡ self.old.items }
        ensures room { OnOk result (more ≤ self.new.room) }
    {
        self.holders.reserve(more)
    }

    /// The holder of a key that none of these has.
    pub(crate) fn put(&mut self, holder: Holder)
        requires room { 1 ≤ self.old.room }
        requires new { found_key holder.key self.old.items ≡ None }
        ensures found { (t : List ℕ) → found_key t self.new.items ≡ or_else (found_key t self.old.items) (found_key t (holder ∷ [])) }
        ensures room { self.old.room ≤ self.new.room + 1 }
    {
        let at = place(self.holders.as_slice(), &holder.key);
        match self.holders.insert(at, holder) {
            Ok(_) => {}
            Err(_) => unreachable!(),
        }
    }

    /// None of these has the key any more.
    pub(crate) fn remove(&mut self, key: &Key)
        ensures found { (t : List ℕ) → found_key t self.new.items ≡ (if same_key t key.now then None else found_key t self.old.items) }
        ensures room { self.old.room ≤ self.new.room }
    {
        if let Ok(at) = search(self.holders.as_slice(), key) {
            let _ = self.holders.remove(at);
        }
    }

    /// Takes out the holder of the greatest key.
    pub(crate) fn pop(&mut self) -> Option<Holder>
        ensures items { MatchOption result (self.old.items ≡ []) (λ holder. self.old.items ≡ self.new.items ++ holder ∷ []) }
    {
        self.holders.pop()
    }
}
