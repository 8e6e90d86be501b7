//! Hints at the record number of a key.
ghost use Rattle.std.specs.Prelude.{◌<◌};

use std::alloc::Global;

/// Collections of fewer documents have no hints: a search among so few takes no longer.
const LEAST_COUNT: usize = 64;

const FIRST_SLOTS: usize = 256;

/// Numbers from here on aren't noted.
const NUMBERS_END: u128 = 16_777_216;

/// The bytes of a key that its sum is made of.
const SUMMED_LEN: usize = 16;

/// The sum of the last bytes of a key, FNV-1a.
pub(crate) fn sum_of(key: &[u8]) -> u64 {
    let mut sum: u64 = 0xcbf2_9ce4_8422_2325;
    for byte in &key[key.len().saturating_sub(SUMMED_LEN)..] {
        sum = (sum ^ u64::from(*byte)).wrapping_mul(0x0100_0000_01b3);
    }
    sum
}

// A part of a sum that tells keys of the same slot apart.
fn mark_of(sum: u64) -> u32
    ensures { result < 256 }
{
    (sum >> 56) as u32 % 256
}

/// The record numbers that were last noted under the sums of keys. It is two to four slots of four bytes for each of the most
/// documents that the collection has had at a time. A slot serves many keys, and a number that it holds may have gone: a hint
/// is looked at before it is believed, so contracts see nothing of it.
#[derive(Drop)]
pub(crate) struct NumberHints {
    slots: Vec<u32>,
    // The documents of the collection.
    count: usize,
}

impl NumberHints {
    /// No hints. It takes no memory.
    pub(crate) fn new(alloc: Global) -> NumberHints {
        NumberHints {
            slots: Vec::new(alloc),
            count: 0,
        }
    }

    // The number of slots is a power of two.
    fn slot(&self, sum: u64) -> usize {
        (sum ^ (sum >> 32)) as usize & self.slots.len().wrapping_sub(1)
    }

    /// The number that may be that of a key with this sum.
    pub(crate) fn hint(&self, sum: u64) -> Option<u128> {
        let noted = *self.slots.as_slice().get(self.slot(sum))?;
        if noted != 0 && noted % 256 == mark_of(sum) {
            Some(u128::from(noted / 256))
        } else {
            None
        }
    }

    // Twice as many slots. What is found under a sum is found under it again. Without memory there stay as many as there are.
    fn widen(&mut self) {
        let _ = if self.slots.is_empty() {
            self.slots.resize(FIRST_SLOTS, 0)
        } else {
            self.slots.extend_from_within(..)
        };
    }

    /// Notes the number of a key with this sum.
    pub(crate) fn note(&mut self, sum: u64, no: u128) {
        let slot = self.slot(sum);
        if no < NUMBERS_END && slot < self.slots.len() {
            self.slots[slot] = no as u32 * 256 + mark_of(sum);
        }
    }

    /// The same of a document that came.
    pub(crate) fn note_new(&mut self, sum: u64, no: u128) {
        self.count = self.count.saturating_add(1);
        if LEAST_COUNT <= self.count && self.slots.len() / 2 < self.count {
            self.widen();
        }
        self.note(sum, no);
    }

    /// A document has gone.
    pub(crate) fn note_removal(&mut self) {
        self.count = self.count.saturating_sub(1);
    }
}
