//! A reader and a writer that fail once.
use std::io;
use std::io::{Read, Write};

/// A reader and a writer of at most two bytes a call, which fail at the call of this number.
#[derive(Drop)]
pub struct Halting {
    pub held: Vec<u8>,
    read: usize,
    calls: usize,
    fails_at: usize,
}

impl Halting {
    pub fn new(held: Vec<u8>, fails_at: usize) -> Halting {
        Halting {
            held,
            read: 0,
            calls: 0,
            fails_at,
        }
    }

    fn turn(&mut self, len: usize) -> io::Result<usize> {
        let call = self.calls;
        self.calls = self.calls.saturating_add(1);
        if call == self.fails_at {
            return Err(io::Error::from(io::ErrorKind::BrokenPipe));
        }
        Ok(len.min(2))
    }
}

impl Read for Halting {
    fn read(&mut self, buf: &mut [u8]) -> io::Result<usize> {
        let room = self.turn(buf.len())?;
        let rest = self.held.get(self.read..).unwrap_or(&[]);
        let count = room.min(buf.len()).min(rest.len());
        buf[..count].copy_from_slice(&rest[..count]);
        self.read = self.read.saturating_add(count);
        Ok(count)
    }
}

impl Write for Halting {
    fn write(&mut self, buf: &[u8]) -> io::Result<usize> {
        let len = self.turn(buf.len())?.min(buf.len());
        self.held.extend_from_slice(&buf[..len])?;
        Ok(len)
    }

    fn flush(&mut self) -> io::Result<()> {
        Ok(())
    }
}
