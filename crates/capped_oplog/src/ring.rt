//! The ring of entries.
ghost use Rattle.std.specs.Prelude.{◌≡◌, ◌+◌, ◌-◌, ◌<◌, ◌≤◌, ◌==◌, [], ◌∷◌, ◌++◌, length, slice_get, nat_lt, IfOk, IsTrue, ◌↔◌, MatchOption, option_map, if◌then◌else◌};
ghost use Rattle.capped_oplog.specs.Ring.{AreRising, IsLater, IsPlaceOf, is_over, pushed, trimmed, stamp_at};

use bson_value::{Bytes, Ts};
use circular_buffer::HeapCircularBuffer;
use std::alloc::{AllocError, Global};
use std::marker::Model;

/// The last entries of an oplog, the oldest first. Each has a timestamp and its bytes, and timestamps
/// rise.
#[derive(Drop)]
pub struct CappedOplog {
    ring: HeapCircularBuffer<(Ts, Bytes)>,
    limit: Option<u64>,
    total: u128,
}

impl Model for CappedOplog {
    ghost use Rattle.capped_oplog.specs.Ring.{Ring, IsSound};

    ghost Value = { Ring };

    ghost view = { λ o. record { entries = o.ring.items; cap = o.ring.capacity; limit = o.limit } };

    ghost invariant = { λ o. IsSound o.ring.items o.ring.capacity o.total };
}

impl CappedOplog {
    /// An empty ring of at most `cap` entries, with memory for all their places at once. `bytes` bounds the bytes of the
    /// entries together, as long as there is more than one.
    pub fn new(alloc: Global, cap: usize, bytes: Option<u64>) -> Result<CappedOplog, AllocError>
        requires least { 1 ≤ cap }
        requires most { cap ≤ 1000000 }
        ensures { IfOk result (λ ring. ring ≡ record { entries = []; cap = cap; limit = bytes }) }
    {
        Ok(CappedOplog {
            ring: HeapCircularBuffer::with_capacity(alloc, cap)?,
            limit: bytes,
            total: 0,
        })
    }

    /// Whether a timestamp is later than the newest entry, as `push` needs it.
    pub fn is_later(&self, ts: Ts) -> bool
        ensures { IsTrue result ↔ IsLater self.now.entries ts }
    {
        let count = self.ring.len();
        count == 0 || self.stamp(count - 1) < ts.as_u64()
    }

    /// Adds the newest entry. Hands back the oldest exactly where the ring was full.
    pub fn push(&mut self, ts: Ts, entry: Bytes) -> Option<(Ts, Bytes)>
        requires { IsLater self.old.entries ts }
        ensures value { result ≡ (if nat_lt (length self.old.entries) self.old.cap then None else slice_get self.old.entries 0) }
        ensures entries { self.new ≡ record self.old { entries = pushed self.old.cap self.old.entries (ts, entry) } }
    {
        self.total += entry.len() as u128;
        let oldest = self.ring.push_back((ts, entry));
        if let Some((_, bytes)) = &oldest {
            self.total -= bytes.len() as u128;
        }
        oldest
    }

    /// Hands back the oldest entry exactly where at least two stand and have more bytes together than
    /// the limit.
    pub fn trim(&mut self) -> Option<(Ts, Bytes)>
        ensures value { result ≡ (if is_over self.old.limit self.old.entries then slice_get self.old.entries 0 else None) }
        ensures entries { self.new ≡ record self.old { entries = trimmed self.old.limit self.old.entries } }
    {
        let over = match self.limit {
            Some(limit) => self.total > u128::from(limit),
            None => false,
        };
        if self.ring.len() < 2 || !over {
            return None;
        }
        let oldest = self.ring.pop_front();
        if let Some((_, gone)) = &oldest {
            self.total -= gone.len() as u128;
        }
        oldest
    }

    /// The number of entries.
    pub fn len(&self) -> usize
        ensures count { result ≡ length self.now.entries }
        ensures within { (result ≤ self.now.cap) × (self.now.cap ≤ 1000000) }
        ensures rising { AreRising self.now.entries }
    {
        self.ring.len()
    }

    /// Whether it has no entry.
    pub fn is_empty(&self) -> bool
        ensures { result ≡ (length self.now.entries == 0) }
    {
        self.ring.is_empty()
    }

    /// The timestamp of the oldest entry.
    pub fn oldest(&self) -> Option<Ts>
        ensures { result ≡ option_map (λ e. e.0) (slice_get self.now.entries 0) }
    {
        match self.ring.get(0) {
            Some(entry) => Some(entry.0),
            None => None,
        }
    }

    /// The timestamp of the newest entry.
    pub fn newest(&self) -> Option<Ts>
        ensures { result ≡ option_map (λ e. e.0) (slice_get self.now.entries (length self.now.entries - 1)) }
    {
        match self.ring.back() {
            Some(entry) => Some(entry.0),
            None => None,
        }
    }

    /// The entry at this place, counted from the oldest.
    pub fn entry(&self, i: usize) -> Option<(Ts, &[u8])>
        ensures { option_map (λ e. (e.0, e.1.now)) result ≡ slice_get self.now.entries i }
    {
        match self.ring.get(i) {
            Some(entry) => Some((entry.0, entry.1.as_slice())),
            None => None,
        }
    }

    /// The place of the entry with this timestamp. The time grows with the logarithm of the number of
    /// entries.
    pub fn place_of(&self, ts: Ts) -> Option<usize>
        ensures { IsPlaceOf self.now.entries ts result }
    {
        let wanted = ts.as_u64();
        let mut low = 0;
        let mut high = self.ring.len();
        'halves: while low < high {
            let middle = low + (high - low) / 2;
            let found = self.stamp(middle);
            if found == wanted {
                return Some(middle);
            }
            if found < wanted {
                low = middle + 1;
            } else {
                high = middle;
            }
        }
        None
    }

    // The timestamp at this place as a number.
    fn stamp(&self, i: usize) -> u64
        requires { i < length self.now.entries }
        ensures stamp { result ≡ stamp_at self.now.entries i }
        ensures rising { AreRising self.now.entries }
    {
        match self.ring.get(i) {
            Some(entry) => entry.0.as_u64(),
            None => 0,
        }
    }
}
