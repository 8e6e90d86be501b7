//! Keys, and their order.
ghost use Rattle.std.specs.Prelude.{◌≡◌, ◌<◌, ◌^◌, ◌↔◌, [], IsTrue, Some, IfOk, length, slice_get};
ghost use Rattle.std.specs.Str.{bytes_eq};
ghost use Rattle.std.specs.Ordering.{nat_cmp};
ghost use Rattle.std.specs.Cmp.Lexicographic.{slice_cmp, nat_list_eq_equiv, nat_list_cmp_total, texts_ties, texts_po};
ghost use Rattle.std.specs.Cmp.{partial_equiv_from_equiv};
ghost use Rattle.std.proofs.Common.{refl};

use bson_value::Bytes;
use containers::List;
use std::alloc::{AllocError, Global};
use std::cmp::Ordering;
use std::marker::Model;

/// A key of an index: bytes that are equal exactly where the keys are. They are compared byte by byte.
#[derive(Drop)]
pub struct Key {
    text: Bytes,
}

impl Model for Key {
    ghost use Rattle.std.specs.Prelude.{List, ℕ, ◌<◌, ◌^◌, length};

    ghost Value = { List ℕ };

    ghost view = { λ k. k.text };

    ghost invariant = { λ k. length k.text < 2 ^ 31 };
}

impl Key {
    // A longer one finds no memory: the lengths in it couldn't hold how long it is.
    pub(crate) fn of(text: Bytes) -> Result<Key, AllocError>
        ensures { IfOk result (λ k. k ≡ text) }
    {
        if text.len() > 2147483647 {
            return Err(AllocError);
        }
        Ok(Key { text })
    }

    /// The bytes, fewer than 2^31. It takes no memory.
    pub fn as_slice(&self) -> &[u8]
        ensures bytes { result.now ≡ self.now }
        ensures short { length self.now < 2 ^ 31 }
    {
        self.text.as_slice()
    }

    /// An equal key.
    pub fn copy(&self, alloc: Global) -> Result<Key, AllocError>
        ensures { IfOk result (λ k. k ≡ self.now) }
    {
        Ok(Key {
            text: self.text.copy(alloc)?,
        })
    }
}

impl PartialEq for Key {
    ghost eq = { bytes_eq };

    ghost laws = { partial_equiv_from_equiv nat_list_eq_equiv };

    fn eq(&self, other: &Key) -> bool {
        self.text == other.text
    }
}

impl Eq for Key {
    ghost laws = { nat_list_eq_equiv };
}

impl PartialOrd for Key {
    ghost partial_cmp = { λ a b. Some (slice_cmp nat_cmp a b) };

    ghost laws = { texts_po };

    fn partial_cmp(&self, other: &Key) -> Option<Ordering> {
        Some(self.cmp(other))
    }
}

impl Ord for Key {
    ghost cmp = { slice_cmp nat_cmp };

    ghost total = { nat_list_cmp_total };

    ghost matches_partial_cmp = { λ a b. refl };

    ghost matches_eq = { texts_ties };

    fn cmp(&self, other: &Key) -> Ordering {
        self.text.cmp(&other.text)
    }
}

/// The keys of a document, each once, in their order.
#[derive(Drop)]
pub struct Keys {
    keys: List<Key>,
}

impl Model for Keys {
    ghost use Rattle.std.specs.Prelude.{List, ℕ};
    ghost use Rattle.std.specs.Coded.{coded_list, coded_ℕ};

    ghost Value = { List (List ℕ) };

    ghost coded = { coded_list (coded_list coded_ℕ) };

    ghost view = { λ k. k.keys };
}

impl Keys {
    pub(crate) fn of(keys: List<Key>) -> Keys
        ensures { result ≡ keys }
    {
        Keys { keys }
    }

    /// How many there are. It takes no memory.
    pub fn len(&self) -> usize
        ensures { result ≡ length self.now }
    {
        self.keys.len()
    }

    /// Whether there is none. It takes no memory.
    pub fn is_empty(&self) -> bool
        ensures { IsTrue result ↔ (self.now ≡ []) }
    {
        self.keys.is_empty()
    }

    /// The keys in their order. It takes no memory.
    pub fn as_slice(&self) -> &[Key]
        ensures { result.now ≡ self.now }
    {
        self.keys.as_slice()
    }

    /// The keys in their order. It takes no memory.
    pub fn into_vec(self) -> Vec<Key>
        ensures { result.items ≡ self }
    {
        self.keys.into_vec()
    }

    /// The key at this place. It takes no memory.
    pub fn get(&self, i: usize) -> &Key
        requires { i < length self.now }
        ensures { slice_get self.now i ≡ Some result.now }
    {
        &self.keys.as_slice()[i]
    }
}
