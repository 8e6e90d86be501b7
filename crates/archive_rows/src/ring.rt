//! Rings of few entries. A timestamp stands as its ordinal in the second 1.
ghost use Rattle.std.specs.Prelude.{◌≡◌, ◌↔◌, ◌++◌, ℕ, List, [], Bool, Option, None, Some, Ok, IfOk, OnOk, IsTrue, codes, length, replicate, slice_get, string_bytes};
ghost use Rattle.std.specs.Fmt.{decimal};
ghost use Rattle.hex.specs.Hex.{decode_of};
ghost use Rattle.row_script.specs.Rows.{before_blank, behind_blank};
ghost use Rattle.row_script.specs.Texts.{number_of};
ghost use Rattle.capped_oplog.specs.Ring.{IsLater, IsPlaceOf, after_pushes, trimmed_down};
ghost use Rattle.archive_rows.specs.Rows.{ends_text, entries_from, entry_text, falls_out, place_text, stamp, stamp_of, stamp_text, truth_text, with_entry};

use crate::texts::numbers;
use anyhow::Result;
use bson_value::{Bytes, Ts};
use capped_oplog::CappedOplog;
use row_script::{answer, bytes, digits, number, refused, words};
use std::alloc::{AllocError, Global};

fn ring_of(alloc: Global, cap: usize, limit: Option<u64>) -> Result<CappedOplog>
    ensures { IfOk result (λ ring. ring ≡ record { entries = []; cap = cap; limit = limit }) }
{
    if cap == 0 || cap > 1_000_000 {
        return refused("no cap");
    }
    Ok(CappedOplog::new(alloc, cap, limit)?)
}

// Pushes an entry with the ordinal that is the next one, and hands back what falls out.
fn push(ring: &mut CappedOplog, inc: u32, entry: Bytes) -> Result<Option<Ts>>
    ensures handed { IfOk result (λ handed. handed ≡ stamp_of (falls_out ring.old)) }
    ensures pushed { OnOk result (ring.new ≡ with_entry ring.old (stamp inc, entry)) }
{
    let ts = Ts { secs: 1, inc };
    if !ring.is_later(ts) {
        return refused("no later timestamp");
    }
    match ring.push(ts, entry) {
        Some((ts, _)) => Ok(Some(ts)),
        None => Ok(None),
    }
}

fn zeros(alloc: Global, size: u64) -> Result<Bytes, AllocError>
    ensures { IfOk result (λ bytes. bytes ≡ replicate size 0) }
{
    let zeros = vec![in alloc; 0u8; size as usize]?;
    Ok(Bytes::from_vec(zeros))
}

fn trim(ring: &mut CappedOplog)
    ensures { ring.new ≡ record ring.old { entries = trimmed_down ring.old.limit ring.old.entries } }
{
    'trims: while ring.trim().is_some() {}
}

// Pushes and trims entries of these sizes one after the other.
fn fill(alloc: Global, ring: &mut CappedOplog, sizes: &[u64]) -> Result<()>
    ensures { OnOk result (ring.new ≡ record ring.old { entries = after_pushes ring.old.cap ring.old.limit ring.old.entries (entries_from 0 sizes.now) }) }
{
    let mut inc: u32 = 0;
    for size in sizes {
        if inc == u32::MAX {
            return refused("too many entries");
        }
        inc += 1;
        let entry = zeros(alloc, *size)?;
        let _ = push(ring, inc, entry)?;
        trim(ring);
    }
    Ok(())
}

// How many entries of these sizes are left.
fn left_of(alloc: Global, cap: usize, limit: Option<u64>, sizes: &[u64]) -> Result<String>
    ensures { IfOk result (λ answer. string_bytes answer ≡ decimal (length (after_pushes cap limit [] (entries_from 0 sizes.now)))) }
{
    let mut ring = ring_of(alloc, cap, limit)?;
    fill(alloc, &mut ring, sizes)?;
    let left = ring.len();
    Ok(format!(in alloc; "{left}")?)
}

/// How many entries of these sizes are left by a cap of entries and one of bytes.
pub fn left(alloc: Global, text: &str) -> Result<String> {
    let (cap, rest) = words(text)?;
    let (limit, sizes) = words(rest)?;
    let limit = limit.parse::<u64>().ok();
    let cap = number(cap)?;
    let sizes = numbers(alloc, sizes)?;
    left_of(alloc, cap, limit, &sizes)
}

fn stamp_text(alloc: Global, ts: Option<Ts>) -> Result<String>
    ensures { IfOk result (λ text. string_bytes text ≡ stamp_text ts) }
{
    match ts {
        Some(ts) => Ok(format!(in alloc; "{}:{}", ts.secs, ts.inc)?),
        None => answer(alloc, "none"),
    }
}

fn place_text(alloc: Global, place: Option<usize>) -> Result<String>
    ensures { IfOk result (λ text. string_bytes text ≡ place_text place) }
{
    match place {
        Some(place) => Ok(format!(in alloc; "{place}")?),
        None => answer(alloc, "none"),
    }
}

// The timestamp that the text is the ordinal of.
fn stamp(text: &str) -> Result<Ts>
    ensures { IfOk result (λ ts. ts ≡ stamp (number_of text.now)) }
{
    Ok(Ts {
        secs: 1,
        inc: text.parse::<u32>()?,
    })
}

fn entry_text(alloc: Global, ts: Ts, bytes: &[u8]) -> Result<String>
    ensures { IfOk result (λ text. string_bytes text ≡ entry_text (Some (ts, bytes.now))) }
{
    let ts = stamp_text(alloc, Some(ts))?;
    let bytes = digits(alloc, bytes)?;
    Ok(format!(in alloc; "{ts} {bytes}")?)
}

/// A ring of one entry.
#[derive(Drop)]
pub struct Ring {
    ring: CappedOplog,
}

impl Ring {
    pub fn new(alloc: Global) -> Result<Ring>
        ensures { IfOk result (λ r. r.ring ≡ record { entries = []; cap = 1; limit = None }) }
    {
        let ring = ring_of(alloc, 1, None)?;
        Ok(Ring { ring })
    }

    /// Pushes an entry, and tells the timestamp of what is handed back.
    pub fn push(&mut self, alloc: Global, text: &str) -> Result<String>
        ensures { IfOk result (λ answer. (entry : List ℕ) × (decode_of (behind_blank text.now) ≡ Ok entry)
            × (self.new.ring ≡ with_entry self.old.ring (stamp (number_of (before_blank text.now)), entry))
            × (string_bytes answer ≡ stamp_text (stamp_of (falls_out self.old.ring)))) }
    {
        let (inc, entry) = words(text)?;
        let ts = stamp(inc)?;
        let bytes = bytes(alloc, entry)?;
        let handed = push(&mut self.ring, ts.inc, Bytes::from_vec(bytes))?;
        stamp_text(alloc, handed)
    }

    /// Whether the ring has no entry, and its oldest and newest timestamp.
    pub fn ends(&self, alloc: Global) -> Result<String>
        ensures { IfOk result (λ answer. string_bytes answer ≡ ends_text self.now.ring.entries) }
    {
        let is_empty = self.ring.is_empty();
        let oldest = stamp_text(alloc, self.ring.oldest())?;
        let newest = stamp_text(alloc, self.ring.newest())?;
        Ok(format!(in alloc; "empty {is_empty}, oldest {oldest}, newest {newest}")?)
    }

    /// Whether a timestamp is later than all, and where its entry stands.
    pub fn place(&self, alloc: Global, text: &str) -> Result<String>
        ensures { IfOk result (λ answer. (is_later : Bool) × (place : Option ℕ)
            × (IsTrue is_later ↔ IsLater self.now.ring.entries (stamp (number_of text.now)))
            × IsPlaceOf self.now.ring.entries (stamp (number_of text.now)) place
            × (string_bytes answer ≡ codes "later " ++ truth_text is_later ++ codes ", place " ++ place_text place)) }
    {
        let ts = stamp(text)?;
        let is_later = self.ring.is_later(ts);
        let place = place_text(alloc, self.ring.place_of(ts))?;
        Ok(format!(in alloc; "later {is_later}, place {place}")?)
    }

    /// The entry at a place.
    pub fn entry(&self, alloc: Global, text: &str) -> Result<String>
        ensures { IfOk result (λ answer. string_bytes answer ≡ entry_text (slice_get self.now.ring.entries (number_of text.now))) }
    {
        match self.ring.entry(number(text)?) {
            Some((ts, bytes)) => entry_text(alloc, ts, bytes),
            None => answer(alloc, "none"),
        }
    }
}
