//! The namespaces that headers named.
ghost use Rattle.std.specs.Prelude.{◌≡◌, ◌∷◌, [], ◌++◌, ◌<◌, true, false, length, set, None, Some, OnOk, IfOk, IfSome, slice_get};
ghost use Rattle.std.specs.Option.{option_copied};
ghost use Rattle.archive_format.specs.Crc.{crc_start, crc_on};
ghost use Rattle.archive_format.specs.Shapes.{named};
ghost use Rattle.archive_format.specs.Archive.{Seen as Entry, seat_of};

use crate::index::Index;
use crate::seen::Seen;
use archive_blocks::CrcTable;
use bson_value::{NsName, Text};
use std::alloc::{AllocError, Global};
use std::marker::Model;

/// They stand in order of first sight, and are found by their names.
#[derive(Drop)]
pub struct Namespaces {
    alloc: Global,
    entries: Vec<Seen>,
    index: Index,
    table: CrcTable,
}

impl Model for Namespaces {
    ghost use Rattle.std.specs.Prelude.{List};
    ghost use Rattle.archive_format.specs.Archive.{Seen as Entry};
    ghost use Rattle.demux.specs.Names.{FindsSeen};

    ghost Value = { List Entry };

    ghost view = { λ s. s.entries.items };

    ghost invariant = { λ s. FindsSeen s.index.databases s.entries.items };
}

impl Namespaces {
    /// None so far. The table for their checksums takes memory.
    pub fn new(alloc: Global) -> Result<Namespaces, AllocError>
        ensures { IfOk result (λ names. names ≡ []) }
    {
        Ok(Namespaces {
            alloc,
            entries: Vec::new(alloc),
            index: Index::new(alloc),
            table: CrcTable::new(alloc)?,
        })
    }

    pub fn len(&self) -> usize
        ensures { result ≡ length self.now }
    {
        self.entries.len()
    }

    pub fn get(&self, i: usize) -> Option<&Seen>
        ensures entry { option_copied result ≡ slice_get self.now i }
        ensures within { IfSome result (λ e. i < length self.now) }
    {
        self.entries.get(i)
    }

    pub fn as_slice(&self) -> &[Seen]
        ensures { result.now ≡ self.now }
    {
        self.entries.as_slice()
    }

    /// The place of the namespace of this name. It takes no memory.
    pub fn seat_of(&self, db: &str, coll: &str) -> Option<usize>
        ensures seat { result ≡ seat_of (named db.now coll.now) self.now }
        ensures within { IfSome result (λ i. i < length self.now) }
    {
        self.index.place(db, coll)
    }

    /// One that is new comes last.
    pub fn push(&mut self, db: &str, coll: &str) -> Result<(), AllocError>
        requires { seat_of (named db.now coll.now) self.old ≡ None }
        ensures { OnOk result (self.new ≡ self.old ++ record { ns = named db.now coll.now; sum = crc_start; ended = false } ∷ []) }
    {
        let i = self.entries.len();
        let ns = NsName {
            db: Text::of(self.alloc, db)?,
            coll: Text::of(self.alloc, coll)?,
        };
        self.entries.push(Seen::new(ns))?;
        match self.index.insert(self.alloc, db, coll, i) {
            Ok(()) => Ok(()),
            Err(AllocError) => {
                self.entries.truncate(i);
                Err(AllocError)
            }
        }
    }

    pub fn add(&mut self, i: usize, bytes: &[u8])
        requires { i < length self.old }
        ensures { (e : Entry) → slice_get self.old i ≡ Some e → self.new ≡ set self.old i (record e { sum = crc_on e.sum bytes.now }) }
    {
        self.entries[i].add(&self.table, bytes);
    }

    pub fn end(&mut self, i: usize)
        requires { i < length self.old }
        ensures { (e : Entry) → slice_get self.old i ≡ Some e → self.new ≡ set self.old i (record e { ended = true }) }
    {
        self.entries[i].end();
    }

    /// The name of one, in its own memory. The others are let go.
    pub fn take_name(&mut self, i: usize) -> NsName
        requires { i < length self.old }
        ensures { (e : Entry) → slice_get self.old i ≡ Some e → result ≡ e.ns }
    {
        let name = self.entries.swap_remove(i).into_ns();
        self.entries.clear();
        self.index.clear();
        name
    }
}
