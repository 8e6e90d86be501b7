//! Bytes and strings that lie in the value itself.
ghost use Rattle.std.specs.Prelude.{◌≡◌, ◌≤◌, ◌+◌, ◌++◌, length, take};

use std::marker::Model;
use std::str;

/// The most bytes that lie in the value itself. With their number and the variant of what holds them they take 24 bytes, as a `Vec` does.
pub(crate) const INLINE_BYTES: usize = 22;

/// At most 22 bytes.
#[derive(Drop)]
pub(crate) struct InlineBytes {
    len: u8,
    bytes: [u8; 22],
}

impl Model for InlineBytes {
    ghost use Rattle.std.specs.Prelude.{◌≤◌, List, ℕ, take};

    ghost Value = { List ℕ };

    ghost view = { λ s. take s.len s.bytes };

    ghost invariant = { λ s. s.len ≤ 22 };
}

impl InlineBytes {
    pub(crate) fn of(bytes: &[u8]) -> InlineBytes
        requires { length bytes.now ≤ 22 }
        ensures { result ≡ bytes.now }
    {
        let mut kept = [0; 22];
        kept[..bytes.len()].copy_from_slice(bytes);
        InlineBytes {
            len: bytes.len() as u8,
            bytes: kept,
        }
    }

    /// Two runs of bytes, one behind the other.
    pub(crate) fn joined(left: &[u8], right: &[u8]) -> InlineBytes
        requires { length left.now + length right.now ≤ 22 }
        ensures { result ≡ left.now ++ right.now }
    {
        let mut kept = [0; 22];
        let len = left.len() + right.len();
        kept[..left.len()].copy_from_slice(left);
        kept[left.len()..len].copy_from_slice(right);
        InlineBytes {
            len: len as u8,
            bytes: kept,
        }
    }

    pub(crate) fn as_slice(&self) -> &[u8]
        ensures { result.now ≡ self.now }
    {
        &self.bytes[..self.len as usize]
    }
}

/// A string in UTF-8 of at most 22 bytes.
#[derive(Drop)]
pub(crate) struct InlineString {
    bytes: InlineBytes,
}

impl Model for InlineString {
    ghost use Rattle.std.specs.Prelude.{List, ℕ, IsUtf8};

    ghost Value = { List ℕ };

    ghost view = { λ s. s.bytes };

    ghost invariant = { λ s. ∥ IsUtf8 s.bytes ∥₁ };
}

impl InlineString {
    pub(crate) fn of(text: &str) -> InlineString
        requires { length text.now ≤ 22 }
        ensures { result ≡ text.now }
    {
        InlineString {
            bytes: InlineBytes::of(text.as_bytes()),
        }
    }

    /// Two texts, one behind the other.
    pub(crate) fn joined(left: &str, right: &str) -> InlineString
        requires { length left.now + length right.now ≤ 22 }
        ensures { result ≡ left.now ++ right.now }
    {
        InlineString {
            bytes: InlineBytes::joined(left.as_bytes(), right.as_bytes()),
        }
    }

    pub(crate) fn as_str(&self) -> &str
        ensures { result.now ≡ self.now }
    {
        unsafe { str::from_utf8_unchecked(self.bytes.as_slice()) }
    }
}
