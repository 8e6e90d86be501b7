//! An element comes into a chunk, and a full chunk becomes two.
ghost use Rattle.std.specs.Prelude.{◌≡◌, ◌+◌, ◌*◌, ◌^◌, ◌<◌, ◌≤◌, List, Some, length, slice_get, slice_set, insert};
ghost use Rattle.std.specs.List.{HoldsAt};
ghost use Rattle.std.specs.Vec.{vec_capacity};
ghost use Rattle.sorted_list.specs.Chunks.{joined, chunk_len, AreRoomy, AreEmpty};
ghost use Rattle.sorted_list.specs.Rooms.{surplus};

use crate::chunk::{CHUNK_LEN, Chunk, over_half};

// Parts a full chunk in two halves. The upper one takes the place of a spare.
fn part<T: Drop>(chunks: &mut Vec<Chunk<T>>, spares: &mut Vec<Chunk<T>>, at: usize)
    requires within { at < length chunks.old.items }
    requires is_full { HoldsAt (λ c. length c ≡ chunk_len) chunks.old.items at }
    requires spare { 0 < length spares.old.items }
    requires empty { AreEmpty spares.old.items }
    requires room { length chunks.old.items < vec_capacity chunks.old }
    ensures items { joined chunks.new.items ≡ joined chunks.old.items }
    ensures roomy { (ds : List (List T)) (c : List T) → AreRoomy ds → chunks.old.items ≡ slice_set ds at c → AreRoomy chunks.new.items }
    ensures more { length chunks.new.items ≡ length chunks.old.items + 1 }
    ensures capacity { vec_capacity chunks.old ≤ vec_capacity chunks.new }
    ensures spare_capacity { vec_capacity spares.old ≤ vec_capacity spares.new }
    ensures less { length spares.new.items + 1 ≡ length spares.old.items }
    ensures empty { AreEmpty spares.new.items }
    ensures surplus { surplus chunks.new.items + 64 ≡ surplus chunks.old.items }
{
    let Some(mut upper) = spares.pop() else {
        unreachable!();
    };
    chunks[at].halve(&mut upper);
    match chunks.insert(at + 1, upper) {
        Ok(_) => {}
        Err(_) => unreachable!(),
    }
}

/// The element at this place of this chunk, which is parted where that fills it. The surplus is kept.
pub(crate) fn put_at<T: Drop>(
    chunks: &mut Vec<Chunk<T>>,
    spares: &mut Vec<Chunk<T>>,
    over: &mut u128,
    at: usize,
    place: usize,
    item: T,
)
    requires within { at < length chunks.old.items }
    requires place { HoldsAt (λ c. place ≤ length c) chunks.old.items at }
    requires roomy { AreRoomy chunks.old.items }
    requires spare { 0 < length spares.old.items }
    requires empty { AreEmpty spares.old.items }
    requires room { length chunks.old.items + length spares.old.items ≤ vec_capacity chunks.old }
    requires surplus { over.old ≡ surplus chunks.old.items }
    requires few { length chunks.old.items < 2 ^ 64 }
    ensures items { (c : List T) → slice_get chunks.old.items at ≡ Some c → joined chunks.new.items ≡ joined (slice_set chunks.old.items at (insert c place item)) }
    ensures roomy { AreRoomy chunks.new.items }
    ensures empty { AreEmpty spares.new.items }
    ensures room { length chunks.new.items + length spares.new.items ≤ vec_capacity chunks.new }
    ensures spare_room { length chunks.new.items + length spares.new.items ≤ length chunks.old.items + length spares.old.items }
    ensures spare_capacity { vec_capacity spares.old ≤ vec_capacity spares.new }
    ensures less { length spares.old.items ≤ length spares.new.items + 1 }
    ensures most { length spares.new.items ≤ length spares.old.items }
    ensures some { 0 < length chunks.new.items }
    ensures surplus { over.new ≡ surplus chunks.new.items }
    ensures kept { over.new + 64 * length spares.old.items ≤ over.old + 64 * length spares.new.items + 1 }
{
    chunks[at].insert(place, item);
    let len = chunks[at].len();
    *over = *over + over_half(len) - over_half(len - 1);
    if len == CHUNK_LEN {
        part(chunks, spares, at);
        *over -= 64;
    }
}
