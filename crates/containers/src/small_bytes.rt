//! Bytes of which few lie in the value itself.
ghost use Rattle.std.specs.Prelude.{◌≡◌, ◌≤◌, length, IfOk, Some, refl};
ghost use Rattle.std.specs.Str.{bytes_eq};
ghost use Rattle.std.specs.Ordering.{nat_cmp};
ghost use Rattle.std.specs.Cmp.{partial_equiv_from_equiv};
ghost use Rattle.std.specs.Cmp.Lexicographic.{slice_cmp, nat_list_eq_equiv, nat_list_cmp_total, texts_po, texts_ties};

use crate::inline::{INLINE_BYTES, InlineBytes};
use std::alloc::{AllocError, Global};
use std::cmp::Ordering;
use std::marker::Model;

#[derive(Drop)]
enum Storage {
    Inline(InlineBytes),
    Heap(Box<Vec<u8>>),
}

/// Bytes that don't change. Up to 22 of them take no memory of their own.
#[derive(Drop)]
pub struct SmallBytes {
    storage: Storage,
}

impl Model for SmallBytes {
    ghost use Rattle.std.specs.Prelude.{List, ℕ};
    ghost use Rattle.containers.specs.Small.{kept_bytes};

    ghost Value = { List ℕ };

    ghost view = { λ b. kept_bytes b.storage };
}

impl SmallBytes {
    /// A copy of these bytes.
    pub fn of(alloc: Global, bytes: &[u8]) -> Result<SmallBytes, AllocError>
        ensures { IfOk result (λ b. b ≡ bytes.now) }
    {
        if bytes.len() <= INLINE_BYTES {
            return Ok(SmallBytes::inline(bytes));
        }
        let mut kept = Vec::new(alloc);
        kept.extend_from_slice(bytes)?;
        Ok(SmallBytes {
            storage: Storage::Heap(Box::new(alloc, kept)?),
        })
    }

    /// A copy of at most 22 bytes.
    pub fn inline(bytes: &[u8]) -> SmallBytes
        requires { length bytes.now ≤ 22 }
        ensures { result ≡ bytes.now }
    {
        SmallBytes {
            storage: Storage::Inline(InlineBytes::of(bytes)),
        }
    }

    /// The bytes, lent.
    pub fn as_slice(&self) -> &[u8]
        ensures { result.now ≡ self.now }
    {
        match &self.storage {
            Storage::Inline(bytes) => bytes.as_slice(),
            Storage::Heap(bytes) => bytes.as_slice(),
        }
    }
}

impl PartialEq for SmallBytes {
    ghost eq = { bytes_eq };

    ghost laws = { partial_equiv_from_equiv nat_list_eq_equiv };

    fn eq(&self, other: &SmallBytes) -> bool {
        self.as_slice() == other.as_slice()
    }
}

impl Eq for SmallBytes {
    ghost laws = { nat_list_eq_equiv };
}

impl PartialOrd for SmallBytes {
    ghost partial_cmp = { λ a b. Some (slice_cmp nat_cmp a b) };

    ghost laws = { texts_po };

    fn partial_cmp(&self, other: &SmallBytes) -> Option<Ordering> {
        Some(self.cmp(other))
    }
}

impl Ord for SmallBytes {
    ghost cmp = { slice_cmp nat_cmp };

    ghost total = { nat_list_cmp_total };

    ghost matches_partial_cmp = { λ a b. refl };

    ghost matches_eq = { texts_ties };

    fn cmp(&self, other: &SmallBytes) -> Ordering {
        self.as_slice().cmp(other.as_slice())
    }
}
