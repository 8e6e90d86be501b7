//! A namespace that a header named.
ghost use Rattle.std.specs.Prelude.{◌≡◌, true, false};
ghost use Rattle.archive_format.specs.Crc.{crc_start, crc_on, crc_end};

use archive_blocks::{Crc, CrcTable};
use bson_value::NsName;
use std::marker::Model;

/// Its name, the checksum of its documents so far, and whether it was ended.
#[derive(Drop)]
pub struct Seen {
    ns: NsName,
    sum: Crc,
    ended: bool,
}

impl Model for Seen {
    ghost use Rattle.archive_format.specs.Archive.{Seen as Entry};

    ghost Value = { Entry };

    ghost view = { λ s. record { ns = s.ns; sum = s.sum; ended = s.ended } };
}

impl Seen {
    pub fn new(ns: NsName) -> Seen
        ensures { result ≡ record { ns = ns; sum = crc_start; ended = false } }
    {
        Seen {
            ns,
            sum: Crc::new(),
            ended: false,
        }
    }

    pub fn ns(&self) -> &NsName
        ensures { result.now ≡ self.now.ns }
    {
        &self.ns
    }

    /// The name, in its own memory.
    pub fn into_ns(self) -> NsName
        ensures { result ≡ self.ns }
    {
        self.ns
    }

    pub fn has_ended(&self) -> bool
        ensures { result ≡ self.now.ended }
    {
        self.ended
    }

    pub fn sum(&self) -> u64
        ensures { result ≡ crc_end self.now.sum }
    {
        self.sum.sum()
    }

    pub fn add(&mut self, table: &CrcTable, bytes: &[u8])
        ensures { self.new ≡ record self.old { sum = crc_on self.old.sum bytes.now } }
    {
        self.sum.add_by(table, bytes);
    }

    pub fn end(&mut self)
        ensures { self.new ≡ record self.old { ended = true } }
    {
        self.ended = true;
    }
}
