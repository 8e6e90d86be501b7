//! A set of names that may hold more than was put in, three bits for each slot of a name.
ghost use Rattle.std.specs.Prelude.{◌≡◌, ◌<◌, ◌+◌, ◌*◌, ◌%◌, ℕ, List, IsTrue, Contains, length};
ghost use Rattle.bson_check.specs.Blocks.{name_at};
ghost use Rattle.bson_check.specs.Slots.{slot_of, word_of, mask_of, HasBits, IsMarked};

use crate::table::name_at;

/// Any odd number with bits all over it.
pub(crate) const FACTOR: u64 = 11400714819323198485;

// The hash of one more byte behind those that were hashed.
pub(crate) fn mixed(factor: u64, hash: u64, byte: u8) -> u64
    ensures { result ≡ (hash + byte) % 18446744073709551616 * factor % 18446744073709551616 }
{
    hash.wrapping_add(u64::from(byte)).wrapping_mul(factor)
}

#[tactic(auto, unfolding(crate::specs::Slots::slot_of))]
fn slot(factor: u64, name: &[u8]) -> u64
    ensures { result ≡ slot_of factor name.now }
{
    let mut hash = 0u64;
    for byte in name {
        hash = mixed(factor, hash, *byte);
    }
    hash
}

// The upper 18 bits of a slot say which word, and the next 18 which bits of it. The lower bits of a product are mixed too little.
#[tactic(auto, using(std::proofs::lemmas::Nat::and_le_r))]
fn word(slot: u64, words: usize) -> usize
    requires { 0 < words }
    ensures value { result ≡ word_of words slot }
    ensures within { result < words }
{
    (slot / 70368744177664) as usize & (words - 1)
}

// The three bits of a slot.
fn mask(slot: u64) -> u64
    ensures { result ≡ mask_of slot }
{
    1 << (slot / 1099511627776 % 64) | 1 << (slot / 17179869184 % 64) | 1 << (slot / 268435456 % 64)
}

fn has_bits(words: &[u64], slot: u64) -> bool
    requires { 0 < length words.now }
    ensures { HasBits words.now slot → IsTrue result }
{
    let mask = mask(slot);
    words[word(slot, words.len())] & mask == mask
}

// Puts the slot into the set, and says whether it may have been there.
pub(crate) fn put_slot(slot: u64, words: &mut [u64]) -> bool
    requires { 0 < length words.old }
    ensures there { HasBits words.old slot → IsTrue result }
    ensures itself { HasBits words.new slot }
    ensures others { (s : ℕ) → HasBits words.old s → HasBits words.new s }
{
    let may_have = has_bits(words, slot);
    let at = word(slot, words.len());
    words[at] |= mask(slot);
    may_have
}

// Puts the name into the set, and says whether it may have been there.
#[tactic(auto, unfolding(crate::specs::Slots::IsMarked))]
pub(crate) fn put(factor: u64, name: &[u8], words: &mut [u64]) -> bool
    requires { 0 < length words.old }
    ensures there { IsMarked words.old factor name.now → IsTrue result }
    ensures itself { IsMarked words.new factor name.now }
    ensures others { (n : List ℕ) → IsMarked words.old factor n → IsMarked words.new factor n }
{
    put_slot(slot(factor, name), words)
}

// Puts the names of these elements into the set.
pub(crate) fn mark(factor: u64, body: &[u8], block: &[u32], words: &mut [u64])
    requires { 0 < length words.old }
    ensures { (e : ℕ) → Contains block.now e → IsMarked words.new factor (name_at body.now e) }
{
    for start in block {
        let _was_there = put(factor, name_at(body, *start), words);
    }
}

#[tactic(auto, unfolding(crate::specs::Slots::IsMarked))]
pub(crate) fn may_have(factor: u64, words: &[u64], name: &[u8]) -> bool
    requires { 0 < length words.now }
    ensures { IsMarked words.now factor name.now → IsTrue result }
{
    has_bits(words, slot(factor, name))
}
