//! The chunk to which a search leads.
ghost use Rattle.std.specs.Prelude.{◌≡◌, ◌^◌, ◌<◌, ◌≤◌, length, true};
ghost use Rattle.std.specs.Fn.{ComputesKey};
ghost use Rattle.std.specs.declared.cmp.Ordering.{Ordering as Order};
ghost use Rattle.sorted_list.specs.Order.{IsOrdered};
ghost use Rattle.sorted_list.specs.Chunks.{joined, AreRoomy, last_of, ends_below, is_below, side, seat, near};

use crate::chunk::Chunk;
use std::cmp::Ordering;

// Whether the last chunk ends below what is sought, and so each does. What is put in rising order is sought there.
fn all_end_below<T, F: Fn(&T) -> Ordering>(chunks: &[Chunk<T>], order: &F) -> bool
    requires { F.IsAlwaysCallable order.now }
    ensures { (ord : T → Order) → ComputesKey F.FnMut ord order.now → AreRoomy chunks.now → IsOrdered ord (joined chunks.now) → result ≡ true → length chunks.now ≡ seat ord chunks.now }
{
    match chunks.last() {
        Some(chunk) => chunk.ends_below(order),
        None => false,
    }
}

/// How many chunks end below what is sought.
pub(crate) fn seat<T, F: Fn(&T) -> Ordering>(chunks: &[Chunk<T>], order: &F) -> usize
    requires { F.IsAlwaysCallable order.now }
    ensures bound { result ≤ length chunks.now }
    ensures seat { (ord : T → Order) → ComputesKey F.FnMut ord order.now → AreRoomy chunks.now → IsOrdered ord (joined chunks.now) → result ≡ seat ord chunks.now }
{
    if all_end_below(chunks, order) {
        return chunks.len();
    }
    let found = chunks.binary_search_by(
        |chunk: &Chunk<T>| -> Ordering
            requires { F.IsAlwaysCallable order.now }
            ensures { (ord : T → Order) → ComputesKey F.FnMut ord order.entry.now → result ≡ side (ends_below ord chunk.now) }
        {
            match chunk.last() {
                Some(item) => match order(item) {
                    Ordering::Less => Ordering::Less,
                    _ => Ordering::Greater,
                },
                None => Ordering::Greater,
            }
        },
    );
    match found {
        Ok(at) => at,
        Err(at) => at,
    }
}

/// The chunk into which an element goes: the one to which a search leads, or the last.
pub(crate) fn chosen<T, F: Fn(&T) -> Ordering>(chunks: &[Chunk<T>], order: &F) -> usize
    requires some { 0 < length chunks.now }
    requires call { F.IsAlwaysCallable order.now }
    ensures within { result < length chunks.now }
    ensures few { length chunks.now < 2 ^ 64 }
    ensures near { (ord : T → Order) → ComputesKey F.FnMut ord order.now → AreRoomy chunks.now → IsOrdered ord (joined chunks.now) → result ≡ near ord chunks.now }
{
    let at = seat(chunks, order);
    if at < chunks.len() { at } else { at - 1 }
}
