//! The search for a repeated name in any order: block after block of names, each sorted by name.
ghost use Rattle.std.specs.Prelude.{◌≡◌, ◌<◌, ◌≤◌, ◌↔◌, IsTrue, Contains, [], length, take, max, List, ℕ};
ghost use Rattle.bson_check.specs.Passing.{Path, repeat_at};
ghost use Rattle.bson_check.specs.Blocks.{IsEnd, name_at, starts, InOrder, Known, FirstKnown, Way};
ghost use Rattle.bson_check.specs.Slots.{IsMarked};

use crate::passing::step;
use crate::slots::{FACTOR, mark, may_have};
use crate::table::{is_known, sort};

// The longest body of which a place is a u32.
pub(crate) const LONGEST: usize = 4294967295;

// Writes down where elements start, up to the last `left` bytes or until the block is full, and says how many they are and what is behind them.
fn fill<'a>(from: &'a [u8], left: usize, block: &mut [u32]) -> (usize, &'a [u8])
    requires { length from.now ≤ LONGEST }
    ensures count { result.0 ≤ length block.old }
    ensures end { (body : List ℕ) → IsEnd body from.now → IsEnd body result.1.now }
    ensures fits { length result.1.now ≤ length from.now }
    ensures less { left < length from.now → 0 < length block.old → length result.1.now < length from.now }
    ensures way { (ns : List (List ℕ)) → (to : List ℕ) → Path ns from.now to → length to ≡ left → (w : Way ns from.now result.1.now to) × (starts w.gone from.now ≡ take result.0 block.new) }
{
    let mut rest = from;
    let mut count = 0;
    'names: while let Some((tag, bytes)) = rest.split_first() {
        if rest.len() <= left || block.len() <= count {
            return (count, rest);
        }
        block[count] = rest.len() as u32;
        count += 1;
        let (_, next) = step(*tag, bytes);
        rest = next;
    }
    (count, rest)
}

// Whether an element of the block before this place has this name. Most names that it hasn't are told by their slot.
fn stands_before(
    factor: u64,
    words: &[u64],
    body: &[u8],
    block: &[u32],
    name: &[u8],
    left: usize,
) -> bool
    requires sorted { InOrder body.now block.now }
    requires some_words { 0 < length words.now }
    requires marked { (e : ℕ) → Contains block.now e → IsMarked words.now factor (name_at body.now e) }
    ensures { IsTrue result ↔ Known body.now block.now name.now left }
{
    if !may_have(factor, words, name) {
        return false;
    }
    is_known(body, block, name, left)
}

// Where the first element from here on starts that has the name of one of the block before it. Only elements before the last `stop` bytes count: without such a one the answer is `stop`.
fn first_known(body: &[u8], block: &[u32], words: &mut [u64], from: &[u8], stop: usize) -> usize
    requires sorted { InOrder body.now block.now }
    requires some_words { 0 < length words.old }
    requires small { length from.now ≤ LONGEST }
    requires end { IsEnd body.now from.now }
    ensures least { stop ≤ result }
    ensures most { result ≤ max stop (length from.now) }
    ensures first { (ns : List (List ℕ)) → (to : List ℕ) → Path ns from.now to → length to ≤ stop → FirstKnown body.now block.now (starts ns from.now) stop result }
{
    // Another hash for each block: names that share their slots in one block don't in the others.
    let factor = (from.len() as u64).wrapping_mul(FACTOR) | 1;
    words.fill(0);
    mark(factor, body, block, words);
    let mut rest = from;
    'names: while let Some((tag, bytes)) = rest.split_first() {
        if rest.len() <= stop {
            return stop;
        }
        let (name, next) = step(*tag, bytes);
        if stands_before(factor, words, body, block, name, rest.len()) {
            return rest.len();
        }
        rest = next;
    }
    stop
}

// The first name that stands before it too, by its place. The table holds the names of a block, and each block takes a walk over the names behind it.
pub(crate) fn in_blocks(
    end: usize,
    body: &[u8],
    left: usize,
    table: &mut [u32],
    words: &mut [u64],
) -> Option<usize>
    requires fits { length body.now ≤ end }
    requires small { length body.now ≤ LONGEST }
    requires some_names { 0 < length table.old }
    requires some_words { 0 < length words.old }
    ensures { (ns : List (List ℕ)) → (to : List ℕ) → Path ns body.now to → length to ≡ left → repeat_at end [] ns body.now ≡ result }
{
    let mut rest = body;
    let mut stop = left;
    'parts: while stop < rest.len() {
        let (count, after) = fill(rest, left, table);
        let block = &mut table[..count];
        sort(body, block);
        stop = first_known(body, block, words, rest, stop);
        rest = after;
    }
    if left < stop {
        Some(end - (stop - 1))
    } else {
        None
    }
}
