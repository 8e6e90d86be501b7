//! Ends over memory, for tests and for what is done in memory.
ghost use Rattle.std.specs.Prelude.{◌≡◌, ℕ, ◌+◌, ◌<◌, ◌≤◌, [], ◌++◌, List, Some, Ok, All, Contains, length, take, drop, OnOk, IfSome, IfOk, IfErr, IsErrOf, IsErr, ◌↔◌};
ghost use Rattle.std.specs.Io.{ReadsAtMost};
ghost use Rattle.std.specs.Io.KnownBytes.{ReadConsumes, Appends};
ghost use Rattle.tool_io.specs.Causes.{Rose, AppendsFront};
ghost use Rattle.tool_io.specs.Feed.{piece_at, count_of, next, Feeds};

use crate::ends::{Fault, Sink, Source};
use std::alloc::Global;
use std::marker::Model;

// How often an end was called, the calls that fail, and how many did.
#[derive(Drop)]
struct Turns {
    fails: Vec<u64>,
    calls: u64,
    faults: u64,
}

impl Turns {
    fn new(fails: Vec<u64>) -> Turns
        ensures { result ≡ record { fails = fails; calls = 0; faults = 0 } }
    {
        Turns {
            fails,
            calls: 0,
            faults: 0,
        }
    }

    // Counts a call, and tells its number if it doesn't fail.
    fn next(&mut self) -> Result<u64, Fault>
        ensures fails { IsErr result ↔ Contains self.old.fails.items self.old.calls }
        ensures later { self.old.faults ≤ self.new.faults }
        ensures ok { IfOk result (λ k. (k ≡ self.old.calls) × (self.new ≡ record self.old { calls = next self.old.calls })) }
        ensures err { IfErr result (λ e. (e ≡ Fault.Failed) × (self.new ≡ record self.old { calls = next self.old.calls; faults = next self.old.faults })) }
    {
        let call = self.calls;
        self.calls = self.calls.saturating_add(1);
        if self.fails.contains(&call) {
            self.faults = self.faults.saturating_add(1);
            return Err(Fault::Failed);
        }
        Ok(call)
    }
}

/// A source over memory, which gives its bytes in pieces as they are asked for, and fails where it is told to.
#[derive(Drop)]
pub struct MemSource {
    bytes: Vec<u8>,
    at: usize,
    pieces: Vec<usize>,
    turns: Turns,
}

impl Model for MemSource {
    ghost use Rattle.std.specs.Prelude.{◌≤◌, All, length, drop};
    ghost use Rattle.tool_io.specs.Feed.{Feed};

    ghost Value = { Feed };

    ghost view = { λ s. record { left = drop s.at s.bytes.items; pieces = s.pieces.items; fails = s.turns.fails.items; calls = s.turns.calls; faults = s.turns.faults } };

    ghost invariant = { λ s. (s.at ≤ length s.bytes.items) × All (λ n. 1 ≤ n) s.pieces.items };
}

// The most that the call of this number gives, if there is a bound.
fn piece(pieces: &[usize], call: u64) -> Option<usize>
    ensures value { result ≡ piece_at pieces.now call }
    ensures positive { All (λ n. 1 ≤ n) pieces.now → IfSome result (λ n. 1 ≤ n) }
{
    let at = (call as usize).min(pieces.len().saturating_sub(1));
    pieces.get(at).copied()
}

fn count(room: usize, left: usize, most: Option<usize>) -> usize
    ensures value { result ≡ count_of room left most }
    ensures within { (result ≤ room) × (result ≤ left) }
    ensures positive { IfSome most (λ n. 1 ≤ n) → 0 < room → 0 < left → 0 < result }
{
    room.min(left).min(most.unwrap_or(usize::MAX))
}

impl MemSource {
    /// Call k, counted from 0, gives at most `pieces[k]` bytes. Behind the list's end its last number holds, and an empty list sets
    /// no bound. Exactly the calls whose numbers stand in `fails` fail.
    pub fn new(bytes: Vec<u8>, pieces: Vec<usize>, fails: Vec<u64>) -> MemSource
        requires { All (λ n. 1 ≤ n) pieces.items }
        ensures { result ≡ record { left = bytes.items; pieces = pieces.items; fails = fails.items; calls = 0; faults = 0 } }
    {
        MemSource {
            bytes,
            at: 0,
            pieces,
            turns: Turns::new(fails),
        }
    }

    /// The next read, which is also that of [`Source`]: whether it fails, and which bytes it gives.
    pub fn give(&mut self, buf: &mut [u8]) -> Result<usize, Fault>
        requires { 0 < length buf.old }
        ensures fails { IsErr result ↔ Contains self.old.fails self.old.calls }
        ensures err { IfErr result (λ e. (e ≡ Fault.Failed) × (self.new ≡ record self.old { calls = next self.old.calls; faults = next self.old.faults })) }
        ensures count { IfOk result (λ n. n ≡ count_of (length buf.old) (length self.old.left) (piece_at self.old.pieces self.old.calls)) }
        ensures bytes { IfOk result (λ n. Feeds self.old.left self.new.left n buf.new) }
        ensures later { self.old.faults ≤ self.new.faults }
        ensures rest { OnOk result (self.new ≡ record self.old { left = self.new.left; calls = next self.old.calls }) }
    {
        let call = self.turns.next()?;
        let most = piece(&self.pieces, call);
        let count = count(buf.len(), self.bytes.len() - self.at, most);
        buf[..count].copy_from_slice(&self.bytes[self.at..self.at + count]);
        self.at += count;
        Ok(count)
    }
}

impl Source for MemSource {
    ghost use Rattle.std.specs.Prelude.{Some};

    ghost end = { λ s. record { bytes = Some s.left; faults = s.faults } };

    fn read(&mut self, buf: &mut [u8]) -> Result<usize, Fault> {
        self.give(buf)
    }
}

/// A sink over memory, which keeps what is written, and fails where it is told to.
#[derive(Drop)]
pub struct MemSink {
    bytes: Vec<u8>,
    turns: Turns,
}

impl Model for MemSink {
    ghost use Rattle.tool_io.specs.Feed.{Store};

    ghost Value = { Store };

    ghost view = { λ s. record { written = s.bytes.items; fails = s.turns.fails.items; calls = s.turns.calls; faults = s.turns.faults } };
}

impl MemSink {
    /// Exactly the calls whose numbers, counted from 0, stand in `fails` fail.
    pub fn new(alloc: Global, fails: Vec<u64>) -> MemSink
        ensures { result ≡ record { written = []; fails = fails.items; calls = 0; faults = 0 } }
    {
        MemSink {
            bytes: Vec::new(alloc),
            turns: Turns::new(fails),
        }
    }

    /// All that was written.
    pub fn written(&self) -> &[u8]
        ensures { result.now ≡ self.now.written }
    {
        &self.bytes
    }

    /// The next write, which is also that of [`Sink`]: whether it fails, and what is kept then. Where it doesn't fail and there is
    /// no memory, nothing was written.
    pub fn keep(&mut self, piece: &[u8]) -> Result<(), Fault>
        ensures fails { IsErrOf result Fault.Failed ↔ Contains self.old.fails self.old.calls }
        ensures ok { OnOk result (self.new ≡ record self.old { written = self.old.written ++ piece.now; calls = next self.old.calls }) }
        ensures failed { IsErrOf result Fault.Failed → self.new ≡ record self.old { calls = next self.old.calls; faults = next self.old.faults } }
        ensures later { self.old.faults ≤ self.new.faults }
        ensures no_memory { IsErrOf result Fault.NoMemory → self.new ≡ record self.old { calls = next self.old.calls } }
    {
        self.turns.next()?;
        self.bytes.extend_from_slice(piece)?;
        Ok(())
    }
}

impl Sink for MemSink {
    ghost use Rattle.std.specs.Prelude.{Some};

    ghost end = { λ s. record { bytes = Some s.written; faults = s.faults } };

    fn write(&mut self, piece: &[u8]) -> Result<(), Fault> {
        self.keep(piece)
    }
}
