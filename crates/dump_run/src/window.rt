//! The entries of a window, as the oplog has them.
ghost use Rattle.std.specs.Prelude.{◌≡◌, ◌≤◌, ◌++◌, false, take, drop, length, nat_le, OnOk, OnErr, IfOk, IfSome, IsErrOf};
ghost use Rattle.history_model.specs.Stages.{Oplog, Stage, turned};
ghost use Rattle.history_model.specs.Runs.{is_gone, oldest, renamed_since};
ghost use Rattle.store_core.specs.Stores.{StandsAt};
ghost use Rattle.dump_run.specs.Faults.{rolled_if, fault_at_mark, is_refusal};
ghost use Rattle.dump_run.specs.Rings.{until, bytes_of, sent_text};
ghost use Rattle.std.specs.Io.KnownBytes.{Appends};
ghost use Rattle.tool_io.specs.Causes.{Rose, AppendsFront};
ghost use Rattle.archive_format.specs.Written.{with_documents};
ghost use Rattle.dump_run.specs.Rings as rings;

use crate::fault::DumpFault;
use archive_blocks::BlockWriter;
use bson_value::{Bytes, List, Ts};
use capped_oplog::CappedOplog;
use dump_copies::write_read;
use std::alloc::{AllocError, Global};
use store_core::Store;
use tool_io::{Fault, Sink};

/// The place of the entry at a moment, where the oplog has one.
pub(crate) fn place_of(oplog: &CappedOplog, ts: Ts) -> Option<usize>
    ensures place { rings.StandsAt oplog.now.entries ts result }
    ensures few { length oplog.now.entries ≤ 1000000 }
{
    let _count = oplog.len();
    let Some(at) = oplog.place_of(ts) else {
        return None;
    };
    match oplog.entry(at) {
        Some((found, _)) => {
            found.is_ordered_by_number(ts);
            Some(at)
        }
        None => unreachable!(),
    }
}

/// The oldest entry's moment; where there is none, the one that is given.
pub(crate) fn oldest_of(oplog: &CappedOplog, start: Ts) -> Ts
    ensures { (es : Oplog) → oplog.now.entries ≡ turned es → result ≡ oldest start es }
{
    oplog.oldest().unwrap_or(start)
}

fn rolled(oplog: &CappedOplog, start: Ts) -> Option<DumpFault>
    ensures rolled { (es : Oplog) → oplog.now.entries ≡ turned es → result ≡ rolled_if (is_gone start es) start es }
    ensures cause { IfSome result (λ fault. fault ≡ DumpFault.WriteFault → ⊥) }
    ensures kind { IfSome result (λ fault. is_refusal fault ≡ false) }
{
    match place_of(oplog, start) {
        Some(_) => None,
        None => {
            let oldest = oldest_of(oplog, start);
            Some(DumpFault::Rolled { start, oldest })
        }
    }
}

// The newest rename, where that isn't earlier than a moment.
fn renamed_since(store: &Store, start: Ts) -> Option<Ts>
    ensures { result ≡ renamed_since start store.now.log.renamed }
{
    match store.last_rename() {
        Some(ts) => { if ts < start { None } else { Some(ts) } }
        None => None,
    }
}

/// Why a dump that began at a moment fails at its mark.
pub(crate) fn fault_at_mark(store: &Store, start: Ts) -> Option<DumpFault>
    ensures fault { (st : Stage) → StandsAt store.now st → result ≡ fault_at_mark start st.renamed st.oplog }
    ensures cause { IfSome result (λ fault. fault ≡ DumpFault.WriteFault → ⊥) }
    ensures kind { IfSome result (λ fault. is_refusal fault ≡ false) }
{
    match renamed_since(store, start) {
        Some(ts) => Some(DumpFault::Renamed { ts }),
        None => rolled(store.oplog(), start),
    }
}

// Adds the entries from a place on that aren't later than a moment, at most n, and tells whether no other one follows.
fn add_entries(
    alloc: Global,
    oplog: &CappedOplog,
    first: usize,
    end: Ts,
    n: u32,
    out: &mut List<Bytes>,
) -> Result<bool, AllocError>
    ensures entries { OnOk result (out.new ≡ out.old ++ bytes_of (take n (until end (drop first oplog.now.entries)))) }
    ensures last { IfOk result (λ last. last ≡ nat_le (length (until end (drop first oplog.now.entries))) n) }
{
    // A ring has at most a million entries, so that `at` doesn't overflow.
    let _count = oplog.len();
    let mut at = first;
    let mut left = n;
    'entries: while let Some((ts, bytes)) = oplog.entry(at) {
        if end < ts {
            return Ok(true);
        }
        if left == 0 {
            return Ok(false);
        }
        out.push(Bytes::of(alloc, bytes)?)?;
        at += 1;
        left -= 1;
    }
    Ok(true)
}

/// Writes the entries from a place on that aren't later than a moment, at most n, as a block, and behind the last of them
/// the end of the oplog. Tells whether it was written. The entries stay in `block`.
pub(crate) fn send<K: Sink>(
    alloc: Global,
    oplog: &CappedOplog,
    first: usize,
    end: Ts,
    n: u32,
    writer: &mut BlockWriter,
    block: &mut List<Bytes>,
    sink: &mut K,
) -> Result<bool, Fault>
    ensures entries { OnOk result (block.new ≡ bytes_of (take n (until end (drop first oplog.now.entries)))) }
    ensures last { IfOk result (λ last. last ≡ nat_le (length (until end (drop first oplog.now.entries))) n) }
    ensures writer { OnOk result (writer.new ≡ with_documents writer.old (bytes_of (take n (until end (drop first oplog.now.entries))))) }
    ensures ok { OnOk result (Appends (K.end sink.old).bytes (K.end sink.new).bytes (sent_text writer.old end n (drop first oplog.now.entries))) }
    ensures err { OnErr result (AppendsFront (K.end sink.old).bytes (K.end sink.new).bytes (sent_text writer.old end n (drop first oplog.now.entries))) }
    ensures later { (K.end sink.old).faults ≤ (K.end sink.new).faults }
    ensures failed { IsErrOf result Fault.Failed → Rose (K.end sink.old).faults (K.end sink.new).faults }
{
    block.truncate(0);
    let last = match add_entries(alloc, oplog, first, end, n, block) {
        Ok(last) => last,
        Err(_) => return Err(Fault::NoMemory),
    };
    match write_read(writer, block, last, sink) {
        Ok(()) => Ok(last),
        Err(fault) => Err(fault),
    }
}
