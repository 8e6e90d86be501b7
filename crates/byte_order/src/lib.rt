//! The order of byte strings, a word at a time.
#![tactic(auto)]

ghost use Rattle.std.specs.Prelude.{◌≡◌, ◌+◌, ◌≤◌, min, length};
ghost use Rattle.std.specs.Cmp.Lexicographic.{slice_cmp};
ghost use Rattle.std.specs.Ordering.{nat_cmp};
ghost use Rattle.byte_order.specs.Words.{word_at};

use std::cmp::Ordering;

// The eight bytes from this place on as a number.
#[inline(always)]
fn eight_at(bytes: &[u8], at: usize) -> u64
    requires { at + 8 ≤ length bytes.now }
    ensures { result ≡ word_at 8 at bytes.now }
{
    u64::from_be_bytes([
        bytes[at],
        bytes[at + 1],
        bytes[at + 2],
        bytes[at + 3],
        bytes[at + 4],
        bytes[at + 5],
        bytes[at + 6],
        bytes[at + 7],
    ])
}

// The four bytes from this place on as a number.
#[inline(always)]
fn four_at(bytes: &[u8], at: usize) -> u32
    requires { at + 4 ≤ length bytes.now }
    ensures { result ≡ word_at 4 at bytes.now }
{
    u32::from_be_bytes([bytes[at], bytes[at + 1], bytes[at + 2], bytes[at + 3]])
}

// Where both have eight bytes or more. The last eight may overlap those before them.
fn order_by_eights(a: &[u8], b: &[u8], both: usize) -> Ordering
    requires both { both ≡ min (length a.now) (length b.now) }
    requires long { 8 ≤ both }
    ensures { result ≡ slice_cmp nat_cmp a.now b.now }
{
    let mut at = 0;
    'words: while at < both - 8 {
        let (x, y) = (eight_at(a, at), eight_at(b, at));
        if x != y {
            return x.cmp(&y);
        }
        at += 8;
    }
    let (x, y) = (eight_at(a, both - 8), eight_at(b, both - 8));
    if x != y {
        return x.cmp(&y);
    }
    a.len().cmp(&b.len())
}

// Where both have four to eight bytes. The last four may overlap the first.
fn order_by_fours(a: &[u8], b: &[u8], both: usize) -> Ordering
    requires both { both ≡ min (length a.now) (length b.now) }
    requires long { 4 ≤ both }
    requires short { both ≤ 8 }
    ensures { result ≡ slice_cmp nat_cmp a.now b.now }
{
    let (x, y) = (four_at(a, 0), four_at(b, 0));
    if x != y {
        return x.cmp(&y);
    }
    let (x, y) = (four_at(a, both - 4), four_at(b, both - 4));
    if x != y {
        return x.cmp(&y);
    }
    a.len().cmp(&b.len())
}

// The first bytes that differ decide, and else the lengths. The slices' own order does the same, at a cost that only long ones are
// worth.
fn order_by_bytes(a: &[u8], b: &[u8]) -> Ordering
    ensures { result ≡ slice_cmp nat_cmp a.now b.now }
{
    let (Some((x, others)), Some((y, more))) = (a.split_first(), b.split_first()) else {
        return a.len().cmp(&b.len());
    };
    if *x == *y {
        order_by_bytes(others, more)
    } else {
        x.cmp(y)
    }
}

/// The order of two byte strings, which is that of the slices: the first bytes that differ decide, and
/// else the lengths. It compares eight bytes in a step, also those that end the shorter string and those that
/// differ, which the slices' own order compares one by one. It takes no memory.
#[inline]
pub fn order(a: &[u8], b: &[u8]) -> Ordering
    ensures { result ≡ slice_cmp nat_cmp a.now b.now }
{
    let both = a.len().min(b.len());
    if both >= 8 {
        order_by_eights(a, b, both)
    } else if both >= 4 {
        order_by_fours(a, b, both)
    } else {
        order_by_bytes(a, b)
    }
}
