//! The list.
ghost use Rattle.std.specs.Prelude.{◌≡◌, ◌+◌, ◌≤◌, [], ◌∷◌, ◌++◌, OnOk, IfSome, option_map, true};
ghost use Rattle.std.specs.Option.{option_copied};
ghost use Rattle.std.specs.Fn.{ComputesKey};
ghost use Rattle.std.specs.declared.cmp.Ordering.{Ordering as Order};
ghost use Rattle.std.specs.declared.cmp.Ordering.TheVariants.{Equal};
ghost use Rattle.sorted_list.specs.Compare.{Compares};
ghost use Rattle.sorted_list.specs.Chunks.{StandsAt};
ghost use Rattle.sorted_list.specs.Order.{IsOrdered, found, from, put_in, put_new, set_in, take_out};

use crate::chunk::{CHUNK_LEN, Chunk, over_half};
use crate::parting::put_at;
use crate::seats::{chosen, seat};
use crate::spares::{begin, keep_spares, last_len, set_aside, spares_for, spares_for_end, wanted};
use crate::walk::Walk;
use std::alloc::{AllocError, Global};
use std::cmp::Ordering;
use std::marker::Model;

// The element at this place of this chunk.
fn item_at<T>(chunks: &[Chunk<T>], chunk: usize, place: usize) -> Option<&T>
    ensures { IfSome result (λ x. StandsAt x.now chunks.now chunk place) }
{
    match chunks.get(chunk)?.get(place) {
        Some(item) => Some(item),
        None => None,
    }
}

// Whether what is sought stands at this place of this chunk.
fn is_at<T, F: Fn(&T) -> Ordering>(
    chunks: &[Chunk<T>],
    chunk: usize,
    place: usize,
    order: &F,
) -> bool
    requires { F.IsAlwaysCallable order.now }
    ensures { result ≡ true → (x : T) × (StandsAt x chunks.now chunk place × ((ord : T → Order) → ComputesKey F.FnMut ord order.now → ord x ≡ Equal)) }
{
    match item_at(chunks, chunk, place) {
        Some(item) => match order(item) {
            Ordering::Equal => true,
            _ => false,
        },
        None => false,
    }
}

// So many elements has a chunk to which elements were only pushed.
const PUSHED_LEN: usize = CHUNK_LEN - 1;

/// Elements in an order by which a search finds them. Contracts also see how many more may be put, and how many pushed.
///
/// They stand in chunks of up to 127. A search takes log n steps, and one step where all elements are below what is sought;
/// to put an element in or to take one out moves at most those of a chunk, and once in some 64 times a pointer for each
/// chunk behind it.
#[derive(Drop)]
pub struct SortedList<T> {
    alloc: Global,
    chunks: Vec<Chunk<T>>,
    spares: Vec<Chunk<T>>,
    // The elements that stand beyond half a chunk, of all chunks.
    over: u128,
    room: usize,
    end_room: usize,
}

impl<T> Model for SortedList<T> {
    ghost use Rattle.std.specs.Vec.{vec_capacity};
    ghost use Rattle.sorted_list.specs.Order.{Shelf, shelf_code};
    ghost use Rattle.sorted_list.specs.Chunks.{joined};
    ghost use Rattle.sorted_list.specs.Rooms.{IsStocked};

    ghost Value = { Shelf T };

    ghost coded = { shelf_code T.code };

    ghost view = { λ s. record {
      items = joined s.chunks.items;
      room = s.room;
      end_room = s.end_room;
    } };

    ghost invariant = { λ s. IsStocked s.chunks.items s.spares.items (vec_capacity s.chunks) (vec_capacity s.spares) s.over s.room s.end_room };
}

impl<T> SortedList<T> {
    /// No elements. It takes no memory.
    pub fn new(alloc: Global) -> SortedList<T>
        ensures { result.items ≡ [] }
    {
        SortedList {
            alloc,
            chunks: Vec::new(alloc),
            spares: Vec::new(alloc),
            over: 0,
            room: 0,
            end_room: 0,
        }
    }

    /// The element that is sought. The one of this rank in a list to which elements were only pushed is looked at first.
    pub fn find_near<F: Fn(&T) -> Ordering>(&self, rank: usize, order: F) -> Option<&T>
        requires { F.IsAlwaysCallable order }
        ensures { (ord : T → Order) → ComputesKey F.FnMut ord order → IsOrdered ord self.now.items → option_copied result ≡ found ord self.now.items }
    {
        let chunks = self.chunks.as_slice();
        if let Some(item) = item_at(chunks, rank / PUSHED_LEN, rank % PUSHED_LEN) {
            if let Ordering::Equal = order(item) {
                return Some(item);
            }
        }
        self.find(order)
    }

    /// The element that is sought.
    pub fn find<F: Fn(&T) -> Ordering>(&self, order: F) -> Option<&T>
        requires { F.IsAlwaysCallable order }
        ensures { (ord : T → Order) → ComputesKey F.FnMut ord order → IsOrdered ord self.now.items → option_copied result ≡ found ord self.now.items }
    {
        let at = seat(self.chunks.as_slice(), &order);
        if at < self.chunks.len() {
            self.chunks[at].find(order)
        } else {
            None
        }
    }
}

impl<T> SortedList<T> {
    /// All elements.
    pub fn walk(&self) -> Walk<'_, T>
        ensures { result ≡ self.now.items }
    {
        Walk::of(&[], self.chunks.as_slice())
    }

    /// The elements but for those that are below what is sought.
    pub fn walk_from<F: Fn(&T) -> Ordering>(&self, order: F) -> Walk<'_, T>
        requires { F.IsAlwaysCallable order }
        ensures { (ord : T → Order) → ComputesKey F.FnMut ord order → IsOrdered ord self.now.items → result ≡ from ord self.now.items }
    {
        let at = seat(self.chunks.as_slice(), &order);
        if at < self.chunks.len() {
            let place = self.chunks[at].place(order);
            Walk::of(
                &self.chunks[at].as_slice()[place..],
                &self.chunks.as_slice()[at + 1..],
            )
        } else {
            Walk::of(&[], &[])
        }
    }
}

impl<T: Drop> SortedList<T> {
    /// Room for so many puts, counted from here.
    pub fn reserve(&mut self, more: usize) -> Result<(), AllocError>
        ensures items { self.new.items ≡ self.old.items }
        ensures room { self.old.room ≤ self.new.room }
        ensures end_room { self.new.end_room ≡ self.old.end_room }
        ensures ok { OnOk result (more ≤ self.new.room) }
    {
        if more <= self.room {
            return Ok(());
        }
        let count = spares_for(more, wanted(self.chunks.as_slice(), self.over));
        keep_spares(self.alloc, &mut self.chunks, &mut self.spares, count)?;
        self.room = more;
        Ok(())
    }

    /// Room for so many pushes, counted from here.
    pub fn reserve_end(&mut self, more: usize) -> Result<(), AllocError>
        ensures items { self.new.items ≡ self.old.items }
        ensures room { self.new.room ≡ self.old.room }
        ensures end_room { self.old.end_room ≤ self.new.end_room }
        ensures ok { OnOk result (more ≤ self.new.end_room) }
    {
        if more <= self.end_room {
            return Ok(());
        }
        let count = spares_for_end(more, last_len(self.chunks.as_slice()));
        keep_spares(self.alloc, &mut self.chunks, &mut self.spares, count)?;
        self.end_room = more;
        Ok(())
    }

    /// The element in the place of what is sought, where that is there.
    pub fn set<F: Fn(&T) -> Ordering>(&mut self, item: T, order: F)
        requires { F.IsAlwaysCallable order }
        ensures items { (ord : T → Order) → ComputesKey F.FnMut ord order → IsOrdered ord self.old.items → self.new.items ≡ set_in ord item self.old.items }
        ensures room { self.new.room ≡ self.old.room }
        ensures end_room { self.new.end_room ≡ self.old.end_room }
    {
        let at = seat(self.chunks.as_slice(), &order);
        if at < self.chunks.len() {
            self.chunks[at].set(item, order);
        }
    }

    /// The element in the place of what is sought, where that is there. The one of this rank in a list to which elements
    /// were only pushed is looked at first.
    pub fn set_near<F: Fn(&T) -> Ordering>(&mut self, rank: usize, item: T, order: F)
        requires { F.IsAlwaysCallable order }
        ensures items { (ord : T → Order) → ComputesKey F.FnMut ord order → IsOrdered ord self.old.items → self.new.items ≡ set_in ord item self.old.items }
        ensures room { self.new.room ≡ self.old.room }
        ensures end_room { self.new.end_room ≡ self.old.end_room }
    {
        let chunk = rank / PUSHED_LEN;
        let place = rank % PUSHED_LEN;
        if is_at(self.chunks.as_slice(), chunk, place, &order) {
            self.chunks[chunk].set_at(place, item);
        } else {
            self.set(item, order);
        }
    }

    /// How many puts there is room for.
    pub fn room(&self) -> usize
        ensures { result ≡ self.now.room }
    {
        self.room
    }

    /// How many pushes there is room for.
    pub fn end_room(&self) -> usize
        ensures { result ≡ self.now.end_room }
    {
        self.end_room
    }

    /// Gives up the room. Its memory stays, for that of the next call.
    pub fn give_up_room(&mut self)
        ensures items { self.new.items ≡ self.old.items }
        ensures room { self.new.room ≡ 0 }
        ensures end_room { self.new.end_room ≡ 0 }
    {
        self.room = 0;
        self.end_room = 0;
    }

    /// The element in its place by this order: in front of the first that isn't below it.
    pub fn put<F: Fn(&T, &T) -> Ordering>(&mut self, item: T, order: F)
        requires room { 1 ≤ self.old.room }
        requires call { F.IsAlwaysCallable order }
        ensures items { (cmp : T → T → Order) → Compares F.FnMut cmp order → IsOrdered (λ x. cmp x item) self.old.items → self.new.items ≡ put_in (λ x. cmp x item) item self.old.items }
        ensures room { self.old.room ≤ self.new.room + 1 }
    {
        if self.chunks.is_empty() {
            begin(&mut self.chunks, &mut self.spares, item);
            self.room -= 1;
            self.end_room = 0;
            return;
        }
        let beside = |other: &T| -> Ordering
            requires { F.IsAlwaysCallable order }
            ensures { (cmp : T → T → Order) → Compares F.FnMut cmp order → result ≡ cmp other.now item }
        { order(other, &item) };
        let at = chosen(self.chunks.as_slice(), &beside);
        let place = self.chunks[at].place(beside);
        put_at(
            &mut self.chunks,
            &mut self.spares,
            &mut self.over,
            at,
            place,
            item,
        );
        self.room -= 1;
        self.end_room = 0;
    }

    /// The same where no element is its equal by this order. Where one is, nothing changes, and what `look` sees in it is given.
    pub fn put_new<R, F: Fn(&T, &T) -> Ordering, G: Fn(&T) -> R>(
        &mut self,
        item: T,
        order: F,
        look: G,
    ) -> Option<R>
        requires room { 1 ≤ self.old.room }
        requires call { F.IsAlwaysCallable order }
        requires look { G.IsAlwaysCallable look }
        ensures there { (cmp : T → T → Order) → (key : T → R) → Compares F.FnMut cmp order → ComputesKey G.FnMut key look → IsOrdered (λ x. cmp x item) self.old.items → result ≡ option_map key (found (λ x. cmp x item) self.old.items) }
        ensures items { (cmp : T → T → Order) → Compares F.FnMut cmp order → IsOrdered (λ x. cmp x item) self.old.items → self.new.items ≡ put_new (λ x. cmp x item) item self.old.items }
        ensures room { self.old.room ≤ self.new.room + 1 }
    {
        if self.chunks.is_empty() {
            begin(&mut self.chunks, &mut self.spares, item);
            self.room -= 1;
            self.end_room = 0;
            return None;
        }
        let beside = |other: &T| -> Ordering
            requires { F.IsAlwaysCallable order }
            ensures { (cmp : T → T → Order) → Compares F.FnMut cmp order → result ≡ cmp other.now item }
        { order(other, &item) };
        let at = chosen(self.chunks.as_slice(), &beside);
        match self.chunks[at].search(beside) {
            Ok(place) => Some(look(&self.chunks[at].as_slice()[place])),
            Err(place) => {
                put_at(
                    &mut self.chunks,
                    &mut self.spares,
                    &mut self.over,
                    at,
                    place,
                    item,
                );
                self.room -= 1;
                self.end_room = 0;
                None
            }
        }
    }

    /// The element behind all others.
    pub fn push(&mut self, item: T)
        requires { 1 ≤ self.old.end_room }
        ensures items { self.new.items ≡ self.old.items ++ item ∷ [] }
        ensures end_room { self.old.end_room ≡ self.new.end_room + 1 }
    {
        if last_len(self.chunks.as_slice()) == PUSHED_LEN {
            begin(&mut self.chunks, &mut self.spares, item);
            self.end_room -= 1;
            self.room = 0;
            return;
        }
        let at = self.chunks.len() - 1;
        let len = self.chunks[at].len();
        self.over = self.over + over_half(len + 1) - over_half(len);
        self.chunks[at].push(item);
        self.end_room -= 1;
        self.room = 0;
    }

    /// Takes out what is sought.
    pub fn remove<F: Fn(&T) -> Ordering>(&mut self, order: F) -> Option<T>
        requires { F.IsAlwaysCallable order }
        ensures value { (ord : T → Order) → ComputesKey F.FnMut ord order → IsOrdered ord self.old.items → result ≡ found ord self.old.items }
        ensures items { (ord : T → Order) → ComputesKey F.FnMut ord order → IsOrdered ord self.old.items → self.new.items ≡ take_out ord self.old.items }
        ensures room { self.new.room ≡ self.old.room }
        ensures end_room { self.new.end_room ≡ self.old.end_room }
    {
        let at = seat(self.chunks.as_slice(), &order);
        if self.chunks.len() <= at {
            return None;
        }
        let over = over_half(self.chunks[at].len());
        let item = self.chunks[at].remove(order);
        let len = self.chunks[at].len();
        self.over = self.over + over_half(len) - over;
        if len == 0 {
            set_aside(&mut self.chunks, &mut self.spares, at);
        }
        item
    }
}
