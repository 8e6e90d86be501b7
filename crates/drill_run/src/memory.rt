//! Ends over memory that never fail.
ghost use Rattle.std.specs.Prelude.{◌≡◌, ◌≤◌, ◌<◌, [], ◌++◌, length, take, OnOk, OnErr};

use std::alloc::{AllocError, Global};
use std::marker::Model;
use tool_io::{Fault, Sink, Source};

/// A sink that keeps what is written.
#[derive(Drop)]
pub(crate) struct Buffer {
    bytes: Vec<u8>,
}

impl Model for Buffer {
    ghost use Rattle.std.specs.Prelude.{ℕ, List};

    ghost Value = { List ℕ };

    ghost view = { λ b. b.bytes.items };
}

impl Buffer {
    pub(crate) fn new(alloc: Global) -> Buffer
        ensures { result ≡ [] }
    {
        Buffer {
            bytes: Vec::new(alloc),
        }
    }

    pub(crate) fn as_slice(&self) -> &[u8]
        ensures { result.now ≡ self.now }
    {
        &self.bytes
    }

    fn keep(&mut self, piece: &[u8]) -> Result<(), AllocError>
        ensures ok { OnOk result (self.new ≡ self.old ++ piece.now) }
        ensures err { OnErr result (self.new ≡ self.old) }
    {
        self.bytes.extend_from_slice(piece)?;
        Ok(())
    }
}

impl Sink for Buffer {
    ghost use Rattle.std.specs.Prelude.{Some};

    ghost end = { λ b. record { bytes = Some b; faults = 0 } };

    fn write(&mut self, piece: &[u8]) -> Result<(), Fault> {
        self.keep(piece)?;
        Ok(())
    }
}

/// A source that gives the bytes of a slice.
#[derive(Drop)]
pub(crate) struct SliceSource<'a> {
    left: &'a [u8],
}

impl<'a> Model for SliceSource<'a> {
    ghost use Rattle.std.specs.Prelude.{ℕ, List};

    ghost Value = { List ℕ };

    ghost view = { λ s. s.left.now };
}

impl<'a> SliceSource<'a> {
    pub(crate) fn new(bytes: &'a [u8]) -> SliceSource<'a>
        ensures { result ≡ bytes.now }
    {
        SliceSource { left: bytes }
    }

    fn give(&mut self, buf: &mut [u8]) -> usize
        requires { 0 < length buf.old }
        ensures within { result ≤ length buf.new }
        ensures given { self.old ≡ take result buf.new ++ self.new }
        ensures same { length buf.new ≡ length buf.old }
        ensures ended { result ≡ 0 → self.old ≡ [] }
    {
        let count = buf.len().min(self.left.len());
        let (front, behind) = self.left.split_at(count);
        buf[..count].copy_from_slice(front);
        self.left = behind;
        count
    }
}

impl<'a> Source for SliceSource<'a> {
    ghost use Rattle.std.specs.Prelude.{Some};

    ghost end = { λ s. record { bytes = Some s; faults = 0 } };

    fn read(&mut self, buf: &mut [u8]) -> Result<usize, Fault> {
        Ok(self.give(buf))
    }
}

/// A sink that lets go what is written.
#[derive(Drop)]
pub(crate) struct Discard;

impl Sink for Discard {
    ghost use Rattle.std.specs.Prelude.{None};

    ghost end = { λ d. record { bytes = None; faults = 0 } };

    fn write(&mut self, _piece: &[u8]) -> Result<(), Fault> {
        Ok(())
    }
}
