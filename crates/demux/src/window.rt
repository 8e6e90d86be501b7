//! A window over the input.
ghost use Rattle.std.specs.Prelude.{◌≡◌, ◌+◌, ◌-◌, ◌<◌, ◌≤◌, [], length, take, drop, OnErr, IfOk, IfErr, vec_capacity};
ghost use Rattle.std.specs.Io.KnownBytes.{Keeps};
ghost use Rattle.tool_io.specs.Causes.{Rose};
ghost use Rattle.demux.specs.Held.{Fills};

use std::alloc::{AllocError, Global};
use std::marker::Model;
use tool_io::{Fault, Source};

// The most bytes of a read.
const PIECE: usize = 65536;

/// What is held is a part of a buffer. The memory of the whole buffer is reserved when the window is made,
/// and is written only as far as what is held at a time needs it.
#[derive(Drop)]
pub struct Window {
    buffer: Vec<u8>,
    size: usize,
    start: usize,
    end: usize,
}

impl Model for Window {
    ghost use Rattle.std.specs.Prelude.{◌≤◌, ◌-◌, length, take, drop, vec_capacity};
    ghost use Rattle.demux.specs.Held.{Held};

    ghost Value = { Held };

    ghost view = { λ w. record { bytes = take (w.end - w.start) (drop w.start w.buffer.items); size = w.size } };

    ghost invariant = { λ w. (w.start ≤ w.end) × (w.end ≤ length w.buffer.items) × (length w.buffer.items ≤ w.size) × (w.size ≤ vec_capacity w.buffer) };
}

// What lies between the two places comes to the front.
fn move_to_front(buffer: &mut [u8], start: usize, end: usize)
    requires order { start ≤ end }
    requires within { end ≤ length buffer.old }
    ensures same { take (end - start) buffer.new ≡ take (end - start) (drop start buffer.old) }
    ensures size { length buffer.new ≡ length buffer.old }
{
    buffer.copy_within(start..end, 0);
}

// The buffer gets longer by a piece at most, within what is reserved for it.
fn lengthen(buffer: &mut Vec<u8>, size: usize)
    requires within { length buffer.old.items ≤ size }
    requires reserved { size ≤ vec_capacity buffer.old }
    ensures front { take (length buffer.old.items) buffer.new.items ≡ buffer.old.items }
    ensures longer { length buffer.old.items < size → length buffer.old.items < length buffer.new.items }
    ensures within { length buffer.new.items ≤ size }
    ensures reserved { size ≤ vec_capacity buffer.new }
{
    let len = buffer.len();
    let more = PIECE.min(size - len);
    match buffer.resize(len + more, 0u8) {
        Ok(()) => {}
        Err(AllocError) => {}
    }
}

// Makes room behind what is held: where a piece fits there, nothing is done. Else what is held moves to the front, if
// at least as much lies there as moves, or the buffer gets longer. At last, in a buffer of the whole size, it moves in
// any case. The place where it begins then. What moves is no more than was let go since the last move, but for a
// document of more than half the size, which moves once.
fn make_room(buffer: &mut Vec<u8>, size: usize, start: usize, end: usize) -> usize
    requires order { start ≤ end }
    requires inside { end ≤ length buffer.old.items }
    requires within { length buffer.old.items ≤ size }
    requires reserved { size ≤ vec_capacity buffer.old }
    requires fits { end - start < size }
    ensures same { take (end - start) (drop result buffer.new.items) ≡ take (end - start) (drop start buffer.old.items) }
    ensures room { result + (end - start) < length buffer.new.items }
    ensures within { length buffer.new.items ≤ size }
    ensures reserved { size ≤ vec_capacity buffer.new }
{
    if buffer.len() - end >= PIECE {
        return start;
    }
    if (0 < start && end - start <= start) || buffer.len() == size && end == size {
        move_to_front(buffer, start, end);
        return 0;
    }
    lengthen(buffer, size);
    start
}

// Reads a piece behind the first bytes.
fn read_behind<S: Source>(buffer: &mut [u8], end: usize, source: &mut S) -> Result<usize, Fault>
    requires { end < length buffer.old }
    ensures size { length buffer.new ≡ length buffer.old }
    ensures front { take end buffer.new ≡ take end buffer.old }
    ensures ok { IfOk result (λ n. Fills (take end buffer.old) (take (end + n) buffer.new) n (S.end source.old).bytes (S.end source.new).bytes) }
    ensures room { IfOk result (λ n. end + n ≤ length buffer.new) }
    ensures err { IfErr result (λ e. (e ≡ Fault.Failed) × Rose (S.end source.old).faults (S.end source.new).faults) }
    ensures kept { OnErr result (Keeps (S.end source.old).bytes (S.end source.new).bytes) }
    ensures later { (S.end source.old).faults ≤ (S.end source.new).faults }
{
    let most = PIECE.min(buffer.len() - end);
    source.read(&mut buffer[end..end + most])
}

impl Window {
    /// A window of this size, which holds nothing.
    pub fn new(alloc: Global, size: usize) -> Result<Window, AllocError>
        ensures { IfOk result (λ w. w ≡ record { bytes = []; size = size }) }
    {
        Ok(Window {
            buffer: Vec::with_capacity(alloc, size)?,
            size,
            start: 0,
            end: 0,
        })
    }

    pub fn held(&self) -> &[u8]
        ensures bytes { result.now ≡ self.now.bytes }
        ensures within { length self.now.bytes ≤ self.now.size }
    {
        &self.buffer[self.start..self.end]
    }

    /// The first bytes are let go.
    pub fn skip(&mut self, count: usize)
        requires { count ≤ length self.old.bytes }
        ensures { self.new ≡ record self.old { bytes = drop count self.old.bytes } }
    {
        self.start += count;
    }

    /// Reads behind what is held. None are read only at the end of the input. A fault leaves what is held.
    pub fn fill<S: Source>(&mut self, source: &mut S) -> Result<usize, Fault>
        requires { length self.old.bytes < self.old.size }
        ensures size { self.new.size ≡ self.old.size }
        ensures room { length self.new.bytes ≤ self.new.size }
        ensures ok { IfOk result (λ n. Fills self.old.bytes self.new.bytes n (S.end source.old).bytes (S.end source.new).bytes) }
        ensures err { IfErr result (λ e. (e ≡ Fault.Failed) × Rose (S.end source.old).faults (S.end source.new).faults) }
        ensures kept { OnErr result ((self.new.bytes ≡ self.old.bytes) × Keeps (S.end source.old).bytes (S.end source.new).bytes) }
        ensures later { (S.end source.old).faults ≤ (S.end source.new).faults }
    {
        let start = self.start;
        let end = self.end;
        let begin = make_room(&mut self.buffer, self.size, start, end);
        self.start = begin;
        self.end = begin + (end - start);
        let count = read_behind(&mut self.buffer, begin + (end - start), source)?;
        self.end += count;
        Ok(count)
    }
}
