//! The first name of a document that stands twice.
ghost use Rattle.std.specs.Prelude.{◌≡◌, ◌<◌, ◌≤◌, [], length, List, ℕ, IfSome};
ghost use Rattle.bson_check.specs.Passing.{Path, has, is_above, repeat_at, fault_of};
ghost use Rattle.bson_check.specs.Slots.{IsMarked};
ghost use Rattle.bson_check.specs.Sieve.{IsKept, OfRepeats};

use crate::blocks::{LONGEST, in_blocks};
use crate::fault::{BsonFault, BsonKind};
use crate::passing::step;
use crate::sieve::{Sieve, put_kept, sift};
use crate::slots::FACTOR;
use std::cmp::Ordering;

// Whether an element of this name stands in the bytes before the last `left` ones.
fn was_there(body: &[u8], left: usize, name: &[u8]) -> bool
    ensures { (ns : List (List ℕ)) → (to : List ℕ) → Path ns body.now to → length to ≡ left → has name.now ns ≡ result }
{
    let mut rest = body;
    'names: while let Some((tag, bytes)) = rest.split_first() {
        if bytes.len() < left {
            return false;
        }
        let (other, next) = step(*tag, bytes);
        if other == name {
            return true;
        }
        rest = next;
    }
    false
}

fn is_above(name: &[u8], top: &[u8]) -> bool
    ensures { result ≡ is_above name.now top.now }
{
    matches!(top.cmp(name), Ordering::Less)
}

// How many names that weren't there may share their slots with names before them.
const SHARED: u32 = 2;

// The first name that stands before it too, by its place. It is looked for only where the sieve keeps it and its slot was taken, and the search gives up, with `None`, where that comes too often.
fn in_slots(
    end: usize,
    body: &[u8],
    left: usize,
    sieve: Sieve<'_>,
    factor: u64,
    words: &mut [u64],
) -> Option<Option<usize>>
    requires fits { length body.now ≤ end }
    requires some_sieve { 0 < length sieve.words.now }
    requires some_words { 0 < length words.old }
    requires kept { OfRepeats (IsKept sieve.every sieve.factor sieve.words.now) body.now left }
    ensures { (ns : List (List ℕ)) → (to : List ℕ) → Path ns body.now to → length to ≡ left → IfSome result (λ r. repeat_at end [] ns body.now ≡ r) }
{
    let mut rest = body;
    let mut tries = SHARED;
    'names: while let Some((tag, bytes)) = rest.split_first() {
        if bytes.len() < left {
            return Some(None);
        }
        let (name, next) = step(*tag, bytes);
        if put_kept(sieve, factor, name, words) {
            if was_there(body, bytes.len() + 1, name) {
                return Some(Some(end - bytes.len()));
            }
            if tries == 0 {
                return None;
            }
            tries -= 1;
        }
        rest = next;
    }
    Some(None)
}

// Marks the names that the sieve keeps and that may stand twice, and looks among those that are marked where they aren't too many.
fn sifted(
    end: usize,
    body: &[u8],
    left: usize,
    sieve: Sieve<'_>,
    factor: u64,
    words: &mut [u64],
    marks: &mut [u64],
) -> Option<Option<usize>>
    requires fits { length body.now ≤ end }
    requires some_sieve { 0 < length sieve.words.now }
    requires some_words { 0 < length words.old }
    requires some_marks { 0 < length marks.old }
    requires kept { OfRepeats (IsKept sieve.every sieve.factor sieve.words.now) body.now left }
    ensures first { (ns : List (List ℕ)) → (to : List ℕ) → Path ns body.now to → length to ≡ left → IfSome result (λ r. repeat_at end [] ns body.now ≡ r) }
    ensures kept { OfRepeats (IsMarked marks.new factor) body.now left }
{
    let other = factor.wrapping_mul(FACTOR);
    words.fill(0);
    marks.fill(0);
    let count = sift(body, left, sieve, other, words, factor, marks);
    if words.len() / 2 < count {
        return None;
    }
    words.fill(0);
    let next = Sieve {
        every: false,
        factor,
        words: marks,
    };
    in_slots(end, body, left, next, other.wrapping_mul(FACTOR), words)
}

// Rounds of sifting, each with other slots. `None` where three didn't tell.
fn in_rounds(
    end: usize,
    body: &[u8],
    left: usize,
    words: &mut [u64],
    marks: &mut [u64],
    others: &mut [u64],
) -> Option<Option<usize>>
    requires fits { length body.now ≤ end }
    requires some_words { 0 < length words.old }
    requires some_marks { 0 < length marks.old }
    requires some_others { 0 < length others.old }
    ensures { (ns : List (List ℕ)) → (to : List ℕ) → Path ns body.now to → length to ≡ left → IfSome result (λ r. repeat_at end [] ns body.now ≡ r) }
{
    let none = [0u64];
    let every = Sieve {
        every: true,
        factor: FACTOR,
        words: &none,
    };
    let found = sifted(end, body, left, every, 15485907386658061715, words, marks);
    if found.is_some() {
        return found;
    }
    let first = Sieve {
        every: false,
        factor: 15485907386658061715,
        words: marks,
    };
    let found = sifted(end, body, left, first, 14029467366897019727, words, others);
    if found.is_some() {
        return found;
    }
    let second = Sieve {
        every: false,
        factor: 14029467366897019727,
        words: others,
    };
    sifted(end, body, left, second, 11562461410679940143, words, marks)
}

// The longest bodies whose names go into a small set, into a middle one, into a large one and into a huge one, and the longest whose names rarely share a slot of that.
const SMALL: usize = 1024;

const MIDDLE: usize = 8192;

const LARGE: usize = 32768;

const HUGE: usize = 9437184;

const SPARSE: usize = 131072;

// Looks among all names, and in rounds where too many share their slots.
fn in_sets(
    end: usize,
    body: &[u8],
    left: usize,
    words: &mut [u64],
    marks: &mut [u64],
    others: &mut [u64],
) -> Option<Option<usize>>
    requires fits { length body.now ≤ end }
    requires some_words { 0 < length words.old }
    requires some_marks { 0 < length marks.old }
    requires some_others { 0 < length others.old }
    ensures { (ns : List (List ℕ)) → (to : List ℕ) → Path ns body.now to → length to ≡ left → IfSome result (λ r. repeat_at end [] ns body.now ≡ r) }
{
    if body.len() <= SPARSE {
        let none = [0u64];
        let every = Sieve {
            every: true,
            factor: FACTOR,
            words: &none,
        };
        let found = in_slots(end, body, left, every, FACTOR, words);
        if found.is_some() {
            return found;
        }
    }
    in_rounds(end, body, left, words, marks, others)
}

// Its sets take 2 KiB of the stack.
#[inline(never)]
fn in_small(end: usize, body: &[u8], left: usize) -> Option<Option<usize>>
    requires fits { length body.now ≤ end }
    ensures { (ns : List (List ℕ)) → (to : List ℕ) → Path ns body.now to → length to ≡ left → IfSome result (λ r. repeat_at end [] ns body.now ≡ r) }
{
    in_sets(
        end,
        body,
        left,
        &mut [0u64; 128],
        &mut [0u64; 64],
        &mut [0u64; 64],
    )
}

// Its sets take 12 KiB of the stack.
#[inline(never)]
fn in_middle(end: usize, body: &[u8], left: usize) -> Option<Option<usize>>
    requires fits { length body.now ≤ end }
    ensures { (ns : List (List ℕ)) → (to : List ℕ) → Path ns body.now to → length to ≡ left → IfSome result (λ r. repeat_at end [] ns body.now ≡ r) }
{
    in_sets(
        end,
        body,
        left,
        &mut [0u64; 1024],
        &mut [0u64; 256],
        &mut [0u64; 256],
    )
}

// Its sets take 96 KiB of the stack, so they stand in a frame of their own.
#[inline(never)]
fn in_large(end: usize, body: &[u8], left: usize) -> Option<Option<usize>>
    requires fits { length body.now ≤ end }
    ensures { (ns : List (List ℕ)) → (to : List ℕ) → Path ns body.now to → length to ≡ left → IfSome result (λ r. repeat_at end [] ns body.now ≡ r) }
{
    in_sets(
        end,
        body,
        left,
        &mut [0u64; 8192],
        &mut [0u64; 2048],
        &mut [0u64; 2048],
    )
}

// Its sets take 768 KiB of the stack.
#[inline(never)]
fn in_huge(end: usize, body: &[u8], left: usize) -> Option<Option<usize>>
    requires fits { length body.now ≤ end }
    ensures { (ns : List (List ℕ)) → (to : List ℕ) → Path ns body.now to → length to ≡ left → IfSome result (λ r. repeat_at end [] ns body.now ≡ r) }
{
    in_sets(
        end,
        body,
        left,
        &mut [0u64; 65536],
        &mut [0u64; 16384],
        &mut [0u64; 16384],
    )
}

// Its sets take 3 MiB of the stack.
#[inline(never)]
fn in_immense(end: usize, body: &[u8], left: usize) -> Option<Option<usize>>
    requires fits { length body.now ≤ end }
    ensures { (ns : List (List ℕ)) → (to : List ℕ) → Path ns body.now to → length to ≡ left → IfSome result (λ r. repeat_at end [] ns body.now ≡ r) }
{
    in_sets(
        end,
        body,
        left,
        &mut [0u64; 262144],
        &mut [0u64; 65536],
        &mut [0u64; 65536],
    )
}

// Its tables take 640 KiB of the stack.
#[inline(never)]
fn sorted(end: usize, body: &[u8], left: usize) -> Option<usize>
    requires fits { length body.now ≤ end }
    requires small { length body.now ≤ LONGEST }
    ensures { (ns : List (List ℕ)) → (to : List ℕ) → Path ns body.now to → length to ≡ left → repeat_at end [] ns body.now ≡ result }
{
    in_blocks(end, body, left, &mut [0u32; 32768], &mut [0u64; 65536])
}

// Its tables take 3 KiB of the stack.
#[inline(never)]
fn sorted_small(end: usize, body: &[u8], left: usize) -> Option<usize>
    requires fits { length body.now ≤ end }
    requires small { length body.now ≤ LONGEST }
    ensures { (ns : List (List ℕ)) → (to : List ℕ) → Path ns body.now to → length to ≡ left → repeat_at end [] ns body.now ≡ result }
{
    in_blocks(end, body, left, &mut [0u32; 512], &mut [0u64; 128])
}

fn in_any_set(end: usize, body: &[u8], left: usize) -> Option<Option<usize>>
    requires fits { length body.now ≤ end }
    ensures { (ns : List (List ℕ)) → (to : List ℕ) → Path ns body.now to → length to ≡ left → IfSome result (λ r. repeat_at end [] ns body.now ≡ r) }
{
    if body.len() <= SMALL {
        in_small(end, body, left)
    } else if body.len() <= MIDDLE {
        in_middle(end, body, left)
    } else if body.len() <= LARGE {
        in_large(end, body, left)
    } else if body.len() <= HUGE {
        in_huge(end, body, left)
    } else {
        in_immense(end, body, left)
    }
}

fn in_any_order(end: usize, body: &[u8], left: usize) -> Option<usize>
    requires fits { length body.now ≤ end }
    requires small { length body.now ≤ LONGEST }
    ensures { (ns : List (List ℕ)) → (to : List ℕ) → Path ns body.now to → length to ≡ left → repeat_at end [] ns body.now ≡ result }
{
    match in_any_set(end, body, left) {
        Some(found) => found,
        None if body.len() <= MIDDLE => sorted_small(end, body, left),
        None => sorted(end, body, left),
    }
}

// How many names that aren't above all before them are looked for name by name: in a small body more than in others.
fn searches(size: usize) -> u32 {
    if size <= SMALL { 8 } else { 1 }
}

/// The first name that stands before it too, by its place, among the elements before the last `left` bytes.
///
/// It takes no memory, and at most 768 KiB of the stack, or 3 MiB for a body of more than 9 MiB. Names that rise take
/// one walk. In another order some 13,000 take one too, and the 2,800,000 that 16 MiB hold mostly two. Names that are
/// chosen to share their slots in every round are sorted in blocks of 32,768, and the names behind a block are looked for in it:
/// n log n steps for n names, and n * n / 65,536 short ones, which is some seconds for 2,000,000 names.
/// A body of more than 4,294,967,295 bytes, as no document has one, is searched name by name.
pub fn first_repeat(end: usize, body: &[u8], left: usize) -> Option<usize>
    requires { length body.now ≤ end }
    ensures { (ns : List (List ℕ)) → (to : List ℕ) → Path ns body.now to → length to ≡ left → repeat_at end [] ns body.now ≡ result }
{
    let mut rest = body;
    let mut top = &body[..0];
    let mut tries = searches(body.len());
    'names: while let Some((tag, bytes)) = rest.split_first() {
        if bytes.len() < left {
            return None;
        }
        let (name, next) = step(*tag, bytes);
        if is_above(name, top) {
            top = name;
        } else if tries == 0 && body.len() <= LONGEST {
            return in_any_order(end, body, left);
        } else if was_there(body, bytes.len() + 1, name) {
            return Some(end - bytes.len());
        } else {
            tries = tries.saturating_sub(1);
        }
        rest = next;
    }
    None
}

/// This fault, unless a name was repeated before it.
pub fn first_fault(end: usize, body: &[u8], left: usize, fault: BsonFault) -> BsonFault
    requires { length body.now ≤ end }
    ensures { (ns : List (List ℕ)) → (to : List ℕ) → Path ns body.now to → length to ≡ left → fault_of (repeat_at end [] ns body.now) fault ≡ result }
{
    match first_repeat(end, body, left) {
        Some(at) => BsonFault {
            kind: BsonKind::Repeat,
            at,
        },
        None => fault,
    }
}
