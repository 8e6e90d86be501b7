//! Ends over std's readers and writers: the trusted edge.
ghost use Rattle.std.specs.Prelude.{◌≡◌, ℕ, ◌<◌, ◌≤◌};

use crate::ends::{Fault, Sink, Source};
use std::io::{Read, Write};
use std::marker::Model;

/// A source over any reader, which tells what is left where the reader does. Each error of the reader counts as a fault.
#[derive(Drop)]
pub struct StdSource<R> {
    inner: R,
    faults: u64,
}

impl<R> Model for StdSource<R> {
    ghost use Rattle.tool_io.specs.Causes.{Counted};

    ghost Value = { Counted R };

    ghost view = { λ s. record { inner = s.inner; faults = s.faults } };
}

impl<R> StdSource<R> {
    /// A source at which no fault has happened yet.
    pub fn new(inner: R) -> StdSource<R>
        ensures { result ≡ record { inner = inner; faults = 0 } }
    {
        StdSource { inner, faults: 0 }
    }
}

impl<R: Read> Source for StdSource<R> {
    ghost end = { λ s. record { bytes = R.remaining s.inner; faults = s.faults } };

    fn read(&mut self, buf: &mut [u8]) -> Result<usize, Fault> {
        match self.inner.read(buf) {
            Ok(count) => Ok(count),
            Err(_) => {
                self.faults = self.faults.saturating_add(1);
                Err(Fault::Failed)
            }
        }
    }
}

/// A sink over any writer, which tells what was written where the writer does. Each error of the writer counts as a fault, and so
/// does a write that takes nothing of a piece that isn't empty.
#[derive(Drop)]
pub struct StdSink<W> {
    inner: W,
    faults: u64,
}

impl<W> Model for StdSink<W> {
    ghost use Rattle.tool_io.specs.Causes.{Counted};

    ghost Value = { Counted W };

    ghost view = { λ s. record { inner = s.inner; faults = s.faults } };
}

impl<W> StdSink<W> {
    /// A sink at which no fault has happened yet.
    pub fn new(inner: W) -> StdSink<W>
        ensures { result ≡ record { inner = inner; faults = 0 } }
    {
        StdSink { inner, faults: 0 }
    }
}

impl<W: Write> Sink for StdSink<W> {
    ghost end = { λ s. record { bytes = W.contents s.inner; faults = s.faults } };

    fn write(&mut self, piece: &[u8]) -> Result<(), Fault> {
        let mut rest = piece;
        'writes: while !rest.is_empty() {
            match self.inner.write(rest) {
                Ok(0) | Err(_) => {
                    self.faults = self.faults.saturating_add(1);
                    return Err(Fault::Failed);
                }
                Ok(count) => rest = &rest[count..],
            }
        }
        Ok(())
    }
}
