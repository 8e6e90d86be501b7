//! An archive, from its first byte to its last.
ghost use Rattle.std.specs.Prelude.{◌≡◌, ◌⊎◌, ℕ, ◌^◌, false, ◌+◌, ◌-◌, ◌<◌, ◌≤◌, List, [], Bool, length, take, Option, Some, None, OnOk, OnErr, IsErrOf, IfErr, IfOk, IfSome, MatchOption, slice_get};
ghost use Rattle.std.specs.Io.KnownBytes.{Keeps};
ghost use Rattle.tool_io.specs.Causes.{Rose};
ghost use Rattle.archive_format.specs.Archive.{Taking, Seen as Entry, start, ending, open_of, limit, next, short};
ghost use Rattle.demux.specs.Steps.{stage_of, Closes};
ghost use Rattle.demux.specs.Told.{Stands, Turns, Tells};

use crate::fault::DemuxFault;
use crate::metas::Metas;
use crate::namespaces::Namespaces;
use crate::progress::Progress;
use crate::seen::Seen;
use crate::taker::DocTaker;
use crate::window::Window;
use archive_format::{FormatFault, Place};
use bson_check::MAX_DOCUMENT_BYTES;
use std::alloc::{AllocError, Global};
use tool_io::Source;

// The place of the first namespace that wasn't ended.
fn first_open(seen: &[Seen]) -> Option<usize>
    ensures { MatchOption result (open_of seen.now ≡ None) (λ i. (e : Entry) × (slice_get seen.now i ≡ Some e) × (open_of seen.now ≡ Some (FormatFault.NotEnded e.ns))) }
{
    let mut i = 0;
    'entries: while i < seen.len() {
        if !seen[i].has_ended() {
            return Some(i);
        }
        i += 1;
    }
    None
}

/// How an input ends that isn't beyond the limit.
#[tactic(auto, unfolding(archive_format::specs::Archive::ending))]
fn ending(progress: &mut Progress, at: u64, held: &[u8]) -> Result<(), FormatFault>
    requires { at + length held.now < 2 ^ 64 }
    ensures { Closes result (ending false (stage_of progress.old) at held.now) }
{
    if held.is_empty() && matches!(progress.place, Place::Blocks) {
        return match first_open(progress.seen.as_slice()) {
            None => Ok(()),
            Some(i) => Err(FormatFault::NotEnded {
                ns: progress.seen.take_name(i),
            }),
        };
    }
    Err(FormatFault::Truncated {
        at: at + held.len() as u64,
    })
}

// The most bytes of an archive.
const LIMIT: u64 = 281474976710656;

// What is held of the window, as far as the limit.
fn within(held: &[u8], room: u64) -> &[u8]
    ensures { result.now ≡ take room held.now }
{
    if room < held.len() as u64 {
        &held[..room as usize]
    } else {
        held
    }
}

// No item is held whole: bytes are read behind what is held. The place where it goes on; none at the end. The taker isn't called.
fn more<S: Source, T: DocTaker>(
    window: &mut Window,
    progress: &mut Progress,
    at: u64,
    source: &mut S,
    _taker: &T,
) -> Result<Option<u64>, DemuxFault>
    requires within { at ≤ limit }
    requires size { window.old.size ≡ 16793600 }
    requires room { length window.old.bytes ≤ 16793600 }
    requires short { next (stage_of progress.old) at (take (limit - at) window.old.bytes) ≡ short }
    ensures room { OnOk result (length window.new.bytes ≤ 16793600) }
    ensures turns { (first : Option (List ℕ)) (adds : T.Known → Taking → T.Known) (why : Taking → Bool) (before known : Option T.Known) → Stands first (S.end source.old).bytes (stage_of progress.old) at window.old.bytes adds before known
        → Turns result first (S.end source.new).bytes (stage_of progress.new) window.new.bytes adds before known why ⊥ }
    ensures size { window.new.size ≡ window.old.size }
    ensures on { IfOk result (λ r. IfSome r (λ b. (b ≡ at) × (length window.old.bytes < length window.new.bytes))) }
    ensures read_fault { IsErrOf result DemuxFault.ReadFault → Rose (S.end source.old).faults (S.end source.new).faults }
    ensures still { OnErr result (Keeps (S.end source.old).bytes (S.end source.new).bytes) }
    ensures not_stopped { IsErrOf result DemuxFault.Stopped → ⊥ }
    ensures fed { IsErrOf result DemuxFault.NoMemory → ⊥ }
    ensures later { (S.end source.old).faults ≤ (S.end source.new).faults }
{
    let seen = window.held().len() as u64;
    if LIMIT - at < seen {
        return Err(DemuxFault::Format(FormatFault::TooLong));
    }
    match window.fill(source) {
        Err(_) => Err(DemuxFault::ReadFault),
        Ok(0) => match ending(progress, at, window.held()) {
            Ok(()) => Ok(None),
            Err(fault) => Err(DemuxFault::Format(fault)),
        },
        Ok(_) => Ok(Some(at)),
    }
}

// One turn: an item is taken, or bytes are read behind what is held. The place where it goes on; none at the end.
fn turn<S: Source, T: DocTaker>(
    window: &mut Window,
    progress: &mut Progress,
    at: u64,
    source: &mut S,
    taker: &mut T,
) -> Result<Option<u64>, DemuxFault>
    requires fresh { (T.stops taker.old ≡ 0) × (T.starved taker.old ≡ 0) }
    requires within { at ≤ limit }
    requires size { window.old.size ≡ 16793600 }
    requires room { length window.old.bytes ≤ 16793600 }
    ensures room { OnOk result (length window.new.bytes ≤ 16793600) }
    ensures turns { (first : Option (List ℕ)) (before : Option T.Known) → Stands first (S.end source.old).bytes (stage_of progress.old) at window.old.bytes (T.adds taker.old) before (T.known taker.old)
        → Turns result first (S.end source.new).bytes (stage_of progress.new) window.new.bytes (T.adds taker.old) before (T.known taker.new) (T.halted taker.new) (Rose (T.starved taker.old) (T.starved taker.new)) }
    ensures same { T.adds taker.new ≡ T.adds taker.old }
    ensures size { window.new.size ≡ window.old.size }
    ensures on { IfOk result (λ r. IfSome r (λ b. (b ≤ limit) × (at + (at + length window.old.bytes) < b + (b + length window.new.bytes)))) }
    ensures fresh { OnOk result ((T.stops taker.new ≡ 0) × (T.starved taker.new ≡ 0)) }
    ensures read_fault { IsErrOf result DemuxFault.ReadFault → Rose (S.end source.old).faults (S.end source.new).faults }
    ensures stopped { IsErrOf result DemuxFault.Stopped → Rose (T.stops taker.old) (T.stops taker.new) }
    ensures later { (S.end source.old).faults ≤ (S.end source.new).faults }
{
    match progress.item(at, within(window.held(), LIMIT - at), taker) {
        Err(fault) => Err(fault),
        Ok(Some(size)) => {
            window.skip(size);
            Ok(Some(at + size as u64))
        }
        Ok(None) => more(window, progress, at, source, taker),
    }
}

/// Takes one archive apart.
#[derive(Drop)]
pub struct Demux {
    window: Window,
    progress: Progress,
    ghost empty: { window ≡ record { bytes = []; size = 16793600 } },
    ghost front: { stage_of progress ≡ start },
}

impl Demux {
    /// Reserves the whole window, 16,793,600 bytes, and makes the table of checksums, 32 KiB. Nothing more is taken for
    /// reading, and of the window no more is written than documents need.
    pub fn new(alloc: Global) -> Result<Demux, AllocError> {
        Ok(Demux {
            window: Window::new(alloc, MAX_DOCUMENT_BYTES)?,
            progress: Progress {
                alloc,
                place: Place::Front,
                metas: Metas::new(alloc),
                seen: Namespaces::new(alloc)?,
            },
        })
    }

    /// Reads the input to its end, or to the first fault, and hands out what it has in order of the bytes.
    pub fn run<S: Source, T: DocTaker>(
        self,
        source: &mut S,
        taker: &mut T,
    ) -> Result<(), DemuxFault>
        requires fresh { (T.stops taker.old ≡ 0) × (T.starved taker.old ≡ 0) }
        ensures told { Tells result (S.end source.old).bytes (S.end source.new).bytes (T.adds taker.old) (T.known taker.old) (T.known taker.new) (T.halted taker.new) (Rose 0 (T.starved taker.new)) }
        ensures read_fault { IsErrOf result DemuxFault.ReadFault → Rose (S.end source.old).faults (S.end source.new).faults }
        ensures stopped { IsErrOf result DemuxFault.Stopped → Rose 0 (T.stops taker.new) }
        ensures fresh { OnOk result ((T.stops taker.new ≡ 0) × (T.starved taker.new ≡ 0)) }
        ensures same { T.adds taker.new ≡ T.adds taker.old }
        ensures later { (S.end source.old).faults ≤ (S.end source.new).faults }
    {
        let mut window = self.window;
        let mut progress = self.progress;
        let mut at = 0u64;
        'turns: loop {
            match turn(&mut window, &mut progress, at, source, taker) {
                Err(fault) => return Err(fault),
                Ok(None) => return Ok(()),
                Ok(Some(place)) => at = place,
            }
        }
    }
}
