//! Elements in the order of their names. An element goes by where it starts, counted in bytes up to the end of the body.
ghost use Rattle.std.specs.Prelude.{◌≡◌, ◌<◌, ◌≤◌, ◌↔◌, ℕ, true, false, IsTrue, length, slice_index};
ghost use Rattle.std.specs.Cmp.Lexicographic.{slice_cmp};
ghost use Rattle.std.specs.Ordering.{nat_cmp, is_lt};
ghost use Rattle.std.specs.List.Sorted.{IsPermutation};
ghost use Rattle.bson_check.specs.Passing.{first_name};
ghost use Rattle.bson_check.specs.Blocks.{name_at, start_cmp, InOrder, Known};

use crate::passing::{behind, name_of};
use std::cmp::Ordering;

#[tactic(auto, unfolding(crate::specs::Blocks::name_at))]
pub(crate) fn name_at(body: &[u8], start: u32) -> &[u8]
    ensures { result.now ≡ name_at body.now start }
{
    name_of(behind(body.len().saturating_sub(start as usize), body))
}

// By name, and an earlier element before a later one.
fn in_order(body: &[u8], a: u32, b: u32) -> Ordering
    ensures { result ≡ start_cmp body.now a b }
{
    name_at(body, a).cmp(name_at(body, b)).then(b.cmp(&a))
}

pub(crate) fn sort(body: &[u8], block: &mut [u32])
    ensures same { IsPermutation block.old block.new }
    ensures sorted { InOrder body.now block.new }
{
    block.sort_unstable_by(|a, b| in_order(body, *a, *b));
}

fn is_below(body: &[u8], start: u32, name: &[u8]) -> bool
    ensures { result ≡ is_lt (slice_cmp nat_cmp (name_at body.now start) name.now) }
{
    matches!(name_at(body, start).cmp(name), Ordering::Less)
}

// The first of these elements whose name isn't below this one.
fn first_from(body: &[u8], block: &[u32], name: &[u8]) -> usize
    requires { InOrder body.now block.now }
    ensures within { result ≤ length block.now }
    ensures below { (i : ℕ) → i < result → is_lt (slice_cmp nat_cmp (name_at body.now (slice_index block.now i)) name.now) ≡ true }
    ensures above { (i : ℕ) → result ≤ i → i < length block.now → is_lt (slice_cmp nat_cmp (name_at body.now (slice_index block.now i)) name.now) ≡ false }
{
    let mut low = 0;
    let mut high = block.len();
    'halves: while low < high {
        let middle = low + (high - low) / 2;
        if is_below(body, block[middle], name) {
            low = middle + 1;
        } else {
            high = middle;
        }
    }
    low
}

// Whether an element of the block that stands before this place has this name.
pub(crate) fn is_known(body: &[u8], block: &[u32], name: &[u8], left: usize) -> bool
    requires { InOrder body.now block.now }
    ensures { IsTrue result ↔ Known body.now block.now name.now left }
{
    let at = first_from(body, block, name);
    if block.len() <= at {
        return false;
    }
    let start = block[at];
    if start as usize <= left {
        return false;
    }
    name_at(body, start) == name
}
