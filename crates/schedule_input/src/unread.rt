//! Bytes of an input that were read and not yet taken.
ghost use Rattle.std.specs.Prelude.{◌≡◌, ◌++◌, ◌≤◌, [], length, drop, OnOk, OnErr};

use std::alloc::{AllocError, Global};
use std::marker::Model;

/// Bytes that were read and not yet taken. The buffer grows to what is held at a time, and serves again.
#[derive(Drop)]
pub(crate) struct Unread {
    buffer: Vec<u8>,
    start: usize,
}

impl Model for Unread {
    ghost use Rattle.std.specs.Prelude.{List, ℕ, ◌≤◌, length, drop};

    ghost Value = { List ℕ };

    ghost view = { λ u. drop u.start u.buffer.items };

    ghost invariant = { λ u. u.start ≤ length u.buffer.items };
}

// The bytes from this place on come to the front.
fn move_to_front(buffer: &mut Vec<u8>, start: usize)
    requires { start ≤ length buffer.old.items }
    ensures { buffer.new.items ≡ drop start buffer.old.items }
{
    let count = buffer.len() - start;
    buffer.copy_within(start.., 0);
    buffer.truncate(count);
}

impl Unread {
    pub(crate) fn new(alloc: Global) -> Unread
        ensures { result ≡ [] }
    {
        Unread {
            buffer: Vec::new(alloc),
            start: 0,
        }
    }

    pub(crate) fn bytes(&self) -> &[u8]
        ensures { result.now ≡ self.now }
    {
        &self.buffer[self.start..]
    }

    /// The first bytes are taken.
    pub(crate) fn take(&mut self, count: usize)
        requires { count ≤ length self.old }
        ensures { self.new ≡ drop count self.old }
    {
        self.start += count;
    }

    /// More bytes come behind those that are there, which move to the front of the buffer first.
    pub(crate) fn push(&mut self, piece: &[u8]) -> Result<(), AllocError>
        ensures ok { OnOk result (self.new ≡ self.old ++ piece.now) }
        ensures err { OnErr result (self.new ≡ self.old) }
    {
        if self.start > 0 {
            move_to_front(&mut self.buffer, self.start);
            self.start = 0;
        }
        self.buffer.extend_from_slice(piece)
    }
}
