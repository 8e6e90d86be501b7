//! A part of a list.
ghost use Rattle.std.specs.Prelude.{slice_get, slice_set, ◌≡◌, ◌+◌, ◌<◌, ◌≤◌, [], ◌∷◌, ◌++◌, IfOk, MatchResult, length, insert, true};
ghost use mathlib.Core.List.{reverse};
ghost use Rattle.std.specs.Option.{option_copied};
ghost use Rattle.std.specs.Fn.{ComputesKey};
ghost use Rattle.std.specs.List.Sorted.{IsSearchInRange};
ghost use Rattle.std.specs.declared.cmp.Ordering.{Ordering as Order};
ghost use Rattle.sorted_list.specs.Order.{IsOrdered, IsFound, IsGap, found, place, set_in, take_out};
ghost use Rattle.sorted_list.specs.Chunks.{chunk_len, last_of, ends_below};
ghost use Rattle.sorted_list.specs.Rooms.{over_half};

use std::alloc::{AllocError, Global};
use std::cmp::Ordering;
use std::marker::Model;
use std::mem;

// So many elements has a chunk room for.
pub(crate) const CHUNK_LEN: usize = 128;

// So many elements have the two parts of a full chunk each.
const HALF_LEN: usize = 64;

/// How many of so many elements stand beyond half a chunk.
pub(crate) fn over_half(len: usize) -> u128
    ensures { result ≡ over_half len }
{
    len.saturating_sub(HALF_LEN) as u128
}

/// Elements that stand together. It has room for `CHUNK_LEN` of them.
#[derive(Drop)]
pub(crate) struct Chunk<T> {
    items: Vec<T>,
}

impl<T> Model for Chunk<T> {
    ghost use Rattle.std.specs.Prelude.{List, ◌≤◌, length};
    ghost use Rattle.std.specs.Coded.{coded_list};
    ghost use Rattle.std.specs.Vec.{vec_capacity};
    ghost use Rattle.sorted_list.specs.Chunks.{chunk_len};

    ghost Value = { List T };

    ghost coded = { coded_list T.code };

    ghost view = { λ c. c.items.items };

    ghost invariant = { λ c. (length c.items.items ≤ chunk_len) × (chunk_len ≤ vec_capacity c.items) };
}

impl<T> Chunk<T> {
    /// No elements.
    pub(crate) fn new(alloc: Global) -> Result<Chunk<T>, AllocError>
        ensures { IfOk result (λ c. c ≡ []) }
    {
        Ok(Chunk {
            items: Vec::with_capacity(alloc, CHUNK_LEN)?,
        })
    }

    pub(crate) fn as_slice(&self) -> &[T]
        ensures { result.now ≡ self.now }
    {
        self.items.as_slice()
    }

    pub(crate) fn get(&self, at: usize) -> Option<&T>
        ensures { option_copied result ≡ slice_get self.now at }
    {
        self.items.as_slice().get(at)
    }

    pub(crate) fn len(&self) -> usize
        ensures len { result ≡ length self.now }
        ensures bound { result ≤ chunk_len }
    {
        self.items.len()
    }

    pub(crate) fn last(&self) -> Option<&T>
        ensures { option_copied result ≡ last_of self.now }
    {
        self.items.as_slice().last()
    }

    pub(crate) fn find<F: FnMut(&T) -> Ordering>(&self, order: F) -> Option<&T>
        requires { F.IsAlwaysCallable order }
        ensures { (ord : T → Order) → ComputesKey F.FnMut ord order → IsOrdered ord self.now → option_copied result ≡ found ord self.now }
    {
        match self.items.as_slice().binary_search_by(order) {
            Ok(at) => Some(&self.items[at]),
            Err(_) => None,
        }
    }
}

impl<T> Chunk<T> {
    /// How many elements are below what is sought.
    pub(crate) fn place<F: FnMut(&T) -> Ordering>(&self, order: F) -> usize
        requires { F.IsAlwaysCallable order }
        ensures bound { result ≤ length self.now }
        ensures place { (ord : T → Order) → ComputesKey F.FnMut ord order → IsOrdered ord self.now → result ≡ place ord self.now }
    {
        match self.items.as_slice().binary_search_by(order) {
            Ok(at) => at,
            Err(at) => at,
        }
    }
}

impl<T> Chunk<T> {
    /// Whether the last element is below what is sought.
    pub(crate) fn ends_below<F: Fn(&T) -> Ordering>(&self, order: &F) -> bool
        requires { F.IsAlwaysCallable order.now }
        ensures { (ord : T → Order) → ComputesKey F.FnMut ord order.now → result ≡ true → ends_below ord self.now ≡ true }
    {
        match self.last() {
            Some(item) => match order(item) {
                Ordering::Less => true,
                _ => false,
            },
            None => false,
        }
    }

    /// Where what is sought stands, or how many elements are below it. The last element is looked at first: what is put
    /// in rising order goes behind it.
    pub(crate) fn search<F: Fn(&T) -> Ordering>(&self, order: F) -> Result<usize, usize>
        requires { F.IsAlwaysCallable order }
        ensures bound { IsSearchInRange result (length self.now) }
        ensures place { (ord : T → Order) → ComputesKey F.FnMut ord order → IsOrdered ord self.now → MatchResult result (IsFound ord self.now) (IsGap ord self.now) }
    {
        if self.ends_below(&order) {
            return Err(self.len());
        }
        self.items.as_slice().binary_search_by(order)
    }
}

impl<T: Drop> Chunk<T> {
    /// The element at this index. Those from there on move behind it.
    pub(crate) fn insert(&mut self, at: usize, item: T)
        requires bound { at ≤ length self.old }
        requires room { length self.old < chunk_len }
        ensures items { self.new ≡ insert self.old at item }
        ensures len { length self.new ≡ length self.old + 1 }
    {
        match self.items.insert(at, item) {
            Ok(_) => {}
            Err(_) => unreachable!(),
        }
    }

    /// The element behind all others.
    pub(crate) fn push(&mut self, item: T)
        requires { length self.old < chunk_len }
        ensures { self.new ≡ self.old ++ item ∷ [] }
    {
        match self.items.push(item) {
            Ok(_) => {}
            Err(_) => unreachable!(),
        }
    }

    /// The element in the place of what is sought, where that is there.
    pub(crate) fn set<F: FnMut(&T) -> Ordering>(&mut self, item: T, order: F)
        requires { F.IsAlwaysCallable order }
        ensures items { (ord : T → Order) → ComputesKey F.FnMut ord order → IsOrdered ord self.old → self.new ≡ set_in ord item self.old }
        ensures len { length self.new ≡ length self.old }
    {
        match self.items.as_slice().binary_search_by(order) {
            Ok(at) => {
                let _ = mem::replace(&mut self.items[at], item);
            }
            Err(_) => {}
        }
    }

    /// The element in the place of the one at this index.
    pub(crate) fn set_at(&mut self, at: usize, item: T)
        requires { at < length self.old }
        ensures { self.new ≡ slice_set self.old at item }
    {
        let _ = mem::replace(&mut self.items[at], item);
    }

    /// Takes out what is sought.
    pub(crate) fn remove<F: FnMut(&T) -> Ordering>(&mut self, order: F) -> Option<T>
        requires { F.IsAlwaysCallable order }
        ensures value { (ord : T → Order) → ComputesKey F.FnMut ord order → IsOrdered ord self.old → result ≡ found ord self.old }
        ensures items { (ord : T → Order) → ComputesKey F.FnMut ord order → IsOrdered ord self.old → self.new ≡ take_out ord self.old }
        ensures len { length self.new ≤ length self.old }
    {
        match self.items.as_slice().binary_search_by(order) {
            Ok(at) => Some(self.items.remove(at)),
            Err(_) => None,
        }
    }

    // Moves the last element behind those of another chunk.
    fn move_last(&mut self, others: &mut Chunk<T>)
        requires some { 0 < length self.old }
        requires room { length others.old < chunk_len }
        ensures all { self.new ++ reverse others.new ≡ self.old ++ reverse others.old }
        ensures rest { length self.new + 1 ≡ length self.old }
        ensures more { length others.new ≡ length others.old + 1 }
    {
        let Some(item) = self.items.pop() else {
            unreachable!();
        };
        others.push(item);
    }

    /// Moves the upper half of a full chunk into an empty one.
    pub(crate) fn halve(&mut self, upper: &mut Chunk<T>)
        requires is_full { length self.old ≡ chunk_len }
        requires empty { upper.old ≡ [] }
        ensures all { self.new ++ upper.new ≡ self.old }
        ensures lower { length self.new ≡ 64 }
        ensures upper { length upper.new ≡ 64 }
    {
        for _ in 0..HALF_LEN {
            self.move_last(upper);
        }
        upper.items.reverse();
    }
}
