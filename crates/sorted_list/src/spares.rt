//! Chunks that are ready, so that an element is put without taking memory.
ghost use Rattle.std.specs.Prelude.{◌≡◌, ◌+◌, ◌<◌, ◌≤◌, ◌++◌, ◌∷◌, [], OnOk, length, remove};
ghost use Rattle.std.specs.List.{HoldsAt};
ghost use Rattle.std.specs.Vec.{vec_capacity};
ghost use Rattle.sorted_list.specs.Chunks.{AreEmpty};
ghost use Rattle.sorted_list.specs.Rooms.{Affords, AffordsEnd, surplus, wanted, last_len};

use crate::chunk::Chunk;
use std::alloc::{AllocError, Global};

/// So many spares do for so many puts, where so many elements stand beyond half a chunk.
pub(crate) fn spares_for(room: usize, wanted: u128) -> usize
    ensures { Affords room wanted result }
{
    let halves = (room as u128).saturating_add(wanted).div_ceil(64);
    usize::try_from(halves).unwrap_or(room).min(room)
}

/// So many spares do for so many pushes, where the last chunk has so many elements.
pub(crate) fn spares_for_end(room: usize, last: usize) -> usize
    ensures { AffordsEnd room last result }
{
    let chunks = (room as u128 + last as u128).div_ceil(127);
    usize::try_from(chunks.saturating_sub(1)).unwrap_or(room)
}

/// The elements beyond half a chunk, and where there is no chunk those of one that is full.
pub(crate) fn wanted<T>(chunks: &[Chunk<T>], over: u128) -> u128
    requires { over ≡ surplus chunks.now }
    ensures { result ≡ wanted chunks.now }
{
    if chunks.is_empty() { 63 } else { over }
}

/// The elements of the last chunk, and where there is none those of one that is full.
pub(crate) fn last_len<T>(chunks: &[Chunk<T>]) -> usize
    ensures { result ≡ last_len chunks.now }
{
    match chunks.last() {
        Some(chunk) => chunk.len(),
        None => 127,
    }
}

/// At least so many spares, and room for them among the chunks and among the spares.
#[tactic(auto, using(crate::proofs::Edits::empty_push))]
pub(crate) fn keep_spares<T: Drop>(
    alloc: Global,
    chunks: &mut Vec<Chunk<T>>,
    spares: &mut Vec<Chunk<T>>,
    count: usize,
) -> Result<(), AllocError>
    requires empty { AreEmpty spares.old.items }
    requires room { length chunks.old.items + length spares.old.items ≤ vec_capacity chunks.old }
    requires spare_room { length chunks.old.items + length spares.old.items ≤ vec_capacity spares.old }
    ensures chunks { chunks.new.items ≡ chunks.old.items }
    ensures more { length spares.old.items ≤ length spares.new.items }
    ensures empty { AreEmpty spares.new.items }
    ensures room { length chunks.new.items + length spares.new.items ≤ vec_capacity chunks.new }
    ensures spare_room { length chunks.new.items + length spares.new.items ≤ vec_capacity spares.new }
    ensures ok { OnOk result (count ≤ length spares.new.items) }
{
    if count <= spares.len() {
        return Ok(());
    }
    let Some(all) = chunks.len().checked_add(count) else {
        return Err(AllocError);
    };
    chunks.reserve(count)?;
    spares.reserve(all)?;
    for _ in spares.len()..count {
        spares.push(Chunk::new(alloc)?)?;
    }
    Ok(())
}

/// The element behind all others, in a spare.
pub(crate) fn begin<T: Drop>(chunks: &mut Vec<Chunk<T>>, spares: &mut Vec<Chunk<T>>, item: T)
    requires spare { 0 < length spares.old.items }
    requires empty { AreEmpty spares.old.items }
    requires room { length chunks.old.items < vec_capacity chunks.old }
    ensures items { chunks.new.items ≡ chunks.old.items ++ (item ∷ []) ∷ [] }
    ensures less { length spares.new.items + 1 ≡ length spares.old.items }
    ensures empty { AreEmpty spares.new.items }
    ensures capacity { vec_capacity chunks.old ≤ vec_capacity chunks.new }
    ensures spare_capacity { vec_capacity spares.old ≤ vec_capacity spares.new }
{
    let Some(mut chunk) = spares.pop() else {
        unreachable!();
    };
    chunk.push(item);
    match chunks.push(chunk) {
        Ok(_) => {}
        Err(_) => unreachable!(),
    }
}

/// An empty chunk becomes a spare.
pub(crate) fn set_aside<T: Drop>(chunks: &mut Vec<Chunk<T>>, spares: &mut Vec<Chunk<T>>, at: usize)
    requires within { at < length chunks.old.items }
    requires none { HoldsAt (λ c. c ≡ []) chunks.old.items at }
    requires empty { AreEmpty spares.old.items }
    requires room { length spares.old.items < vec_capacity spares.old }
    ensures items { chunks.new.items ≡ remove chunks.old.items at }
    ensures more { length spares.new.items ≡ length spares.old.items + 1 }
    ensures empty { AreEmpty spares.new.items }
    ensures capacity { vec_capacity chunks.old ≤ vec_capacity chunks.new }
    ensures spare_capacity { vec_capacity spares.old ≤ vec_capacity spares.new }
{
    let chunk = chunks.remove(at);
    match spares.push(chunk) {
        Ok(_) => {}
        Err(_) => unreachable!(),
    }
}
