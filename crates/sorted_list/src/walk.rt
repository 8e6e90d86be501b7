//! A walk over a list.
ghost use Rattle.std.specs.Prelude.{◌≡◌, ◌++◌, []};
ghost use Rattle.sorted_list.specs.Chunks.{joined, AreRoomy};

use crate::chunk::Chunk;
use std::marker::Model;

/// The elements that are still to come, in the order of the list.
#[derive(Drop)]
pub struct Walk<'a, T> {
    items: &'a [T],
    chunks: &'a [Chunk<T>],
}

impl<'a, T> Model for Walk<'a, T> {
    ghost use Rattle.std.specs.Prelude.{List, ◌++◌};
    ghost use Rattle.std.specs.Coded.{coded_list};
    ghost use Rattle.sorted_list.specs.Chunks.{joined, AreRoomy};

    ghost Value = { List T };

    ghost coded = { coded_list T.code };

    ghost view = { λ w. w.items.now ++ joined w.chunks.now };

    ghost invariant = { λ w. AreRoomy w.chunks.now };
}

impl<'a, T> Walk<'a, T> {
    /// No elements.
    pub fn none() -> Walk<'a, T>
        ensures { result ≡ [] }
    {
        Walk {
            items: &[],
            chunks: &[],
        }
    }

    pub(crate) fn of(items: &'a [T], chunks: &'a [Chunk<T>]) -> Walk<'a, T>
        requires { AreRoomy chunks.now }
        ensures { result ≡ items.now ++ joined chunks.now }
    {
        Walk { items, chunks }
    }
}

impl<'a, T> Iterator for Walk<'a, T> {
    ghost use Rattle.std.specs.Iterator.{YieldsFirstRef, item_count};

    type Item = &'a T;

    ghost next_gives = { YieldsFirstRef (λ w. w) };

    ghost remaining = { item_count (λ w. w) };

    fn next(&mut self) -> Option<&'a T> {
        match self.items.split_first() {
            Some((first, rest)) => {
                self.items = rest;
                Some(first)
            }
            None => {
                let (chunk, chunks) = self.chunks.split_first()?;
                let (first, rest) = chunk.as_slice().split_first()?;
                self.items = rest;
                self.chunks = chunks;
                Some(first)
            }
        }
    }
}
