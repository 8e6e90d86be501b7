//! The dump.
ghost use Rattle.std.specs.Prelude.{◌≡◌, ◌≤◌, ◌<◌, ◌+◌, true, false, [], ◌∷◌, Some, None, Ok, OnOk, OnErr, IfOk, IfErr, IsErrOf};
ghost use Rattle.std.specs.FinMap as map;
ghost use Rattle.std.specs.Io.KnownBytes.{Appends};
ghost use Rattle.tool_io.specs.Causes.{Rose, AppendsFront};
ghost use Rattle.archive_format.specs.Written.{prelude_text, begun};
ghost use Rattle.coll_state.specs.Rows.{state_of};
ghost use Rattle.schedule_model.specs.declared.line.Line.TheVariants as lines;
ghost use Rattle.history_model.specs.Stages.{Caps};
ghost use Rattle.history_model.specs.Invariants.{RunOk};
ghost use Rattle.history_model.specs.Runs.{Run, Done, started, on_line, copied_out, marked_out, tailed_out, finished};
ghost use Rattle.history_model.specs.Laws.{Whole};
ghost use Rattle.tool_io.specs.Ends.{End};
ghost use Rattle.dump_model.specs.Archives.{header, metas_of, oplog};
ghost use Rattle.store_core.specs.Stores.{StandsAt};
ghost use Rattle.dump_run.specs.Dumps.{Meets};
ghost use Rattle.dump_run.specs.Calls.{ComesTo, Marks, Does, Finishes};
ghost use Rattle.dump_run.specs.Reads.{Reads};
ghost use Rattle.dump_run.specs.Faults.{IsOfSink, is_refusal};
ghost use Rattle.dump_run.specs.declared.fault.DumpFault.{DumpFault as Cause};

use crate::fault::{DumpFault, DumpReport};
use crate::prelude::write_prelude;
use crate::window::{fault_at_mark, oldest_of, place_of, send};
use archive_blocks::BlockWriter;
use bson_value::{Bytes, List, NsName, Text, Ts};
use dump_copies::Copies;
use std::alloc::{AllocError, Global};
use std::marker::Model;
use store_core::Store;
use tool_io::Sink;

// The documents or entries of a step that is left at the end.
const LAST_STEP: u32 = 1000;

/// A dump of a store that goes on changing. In contracts it is its moments and cursors, the writers of its namespaces with
/// the sums of their documents, its counts, and the fault with which it failed. It keeps one block of documents at a time.
///
/// What several calls give together is said for one store that `Store::apply` alone has changed between them.
#[derive(Drop)]
pub struct Dump {
    alloc: Global,
    copies: Copies,
    oplog: BlockWriter,
    block: List<Bytes>,
    start: Ts,
    last_read: Ts,
    mark: Option<Ts>,
    sent: u64,
    closed: bool,
    documents: u64,
    entries: u64,
    failed: Option<DumpFault>,
}

impl Model for Dump {
    ghost use Rattle.dump_run.specs.Dumps.{Dumping, dumping_code};

    ghost Value = { Dumping };

    ghost coded = { dumping_code };

    ghost view = { λ d. record {
      state = record { start = d.start; cursors = d.copies.cursors; last_read = d.last_read; mark = d.mark; sent = d.sent; closed = d.closed };
      writers = d.copies.writers;
      oplog = d.oplog;
      documents = d.documents;
      entries = d.entries;
      failed = d.failed;
    } };
}

// A writer of the oplog's blocks.
fn oplog_writer(alloc: Global) -> Result<BlockWriter, AllocError>
    ensures { IfOk result (λ w. w ≡ begun oplog) }
{
    let ns = NsName {
        db: Text::new(alloc),
        coll: Text::of(alloc, "oplog")?,
    };
    Ok(BlockWriter::new(alloc, ns))
}

// A dump that begins, before it has written anything.
fn begin(alloc: Global, store: &Store) -> Result<Dump, AllocError>
    ensures { IfOk result (λ dump. (r : Run) → StandsAt store.now r.stage → r.steps ≡ [] → r.outcome ≡ Done → Meets dump (started r)) }
{
    let now = store.newest();
    Ok(Dump {
        alloc,
        copies: Copies::begin(alloc, store)?,
        oplog: oplog_writer(alloc)?,
        block: List::new(alloc),
        start: now,
        last_read: now,
        mark: None,
        sent: 0,
        closed: false,
        documents: 0,
        entries: 0,
        failed: None,
    })
}

impl Dump {
    /// Begins a dump: notes Start, begins a cursor on each collection, and writes the prelude of the state. The answer is
    /// want of memory too where a collection is named as the oplog, or where names or metadata are too long for a
    /// document; what commands make is neither.
    pub fn start<K: Sink>(alloc: Global, store: &Store, sink: &mut K) -> Result<Dump, DumpFault>
        ensures begun { IfOk result (λ dump. (r : Run) → StandsAt store.now r.stage → r.steps ≡ [] → r.outcome ≡ Done → Meets dump (started r)) }
        ensures ok { OnOk result (Appends (K.end sink.old).bytes (K.end sink.new).bytes (prelude_text header (metas_of (state_of store.now.rows)))) }
        ensures err { OnErr result (AppendsFront (K.end sink.old).bytes (K.end sink.new).bytes (prelude_text header (metas_of (state_of store.now.rows)))) }
        ensures faults { IfErr result IsOfSink }
        ensures later { (K.end sink.old).faults ≤ (K.end sink.new).faults }
        ensures cause { IsErrOf result DumpFault.WriteFault → Rose (K.end sink.old).faults (K.end sink.new).faults }
    {
        let dump = match begin(alloc, store) {
            Ok(dump) => dump,
            Err(_) => return Err(DumpFault::NoMemory),
        };
        match write_prelude(alloc, store.state(), sink) {
            Ok(()) => Ok(dump),
            Err(fault) => Err(DumpFault::from(fault)),
        }
    }

    /// The fault with which the dump failed. From then on each call answers it, and writes nothing.
    pub fn failed(&self) -> Option<DumpFault>
        ensures { result ≡ self.now.failed }
    {
        self.failed
    }

    /// Reads the next n documents of a collection and writes them as one block; where its cursor ended, at once the end of
    /// their namespace.
    pub fn copy<K: Sink>(
        &mut self,
        store: &Store,
        ns: &NsName,
        n: u32,
        sink: &mut K,
    ) -> Result<(), DumpFault>
        ensures comes { (r : Run) → StandsAt store.now r.stage → Meets self.old r → ComesTo result (on_line (lines.Copy ns.now n) r) r self.old self.new (K.end sink.old) (K.end sink.new) }
        ensures repeats { (f : Cause) → self.old.failed ≡ Some f → (result ≡ Err f) × (self.new ≡ self.old) × (K.end sink.new ≡ K.end sink.old) }
        ensures going { OnOk result (self.new.failed ≡ None) }
        ensures reads { OnOk result (Reads ns.now n (map.get store.now.rows.tables ns.now) self.old.state.cursors self.new.state.cursors) }
        ensures names { map.keys self.new.state.cursors ≡ map.keys self.old.state.cursors }
        ensures same { IfErr result (λ fault. is_refusal fault ≡ true → self.new ≡ self.old) }
        ensures later { (K.end sink.old).faults ≤ (K.end sink.new).faults }
        ensures cause { self.old.failed ≡ None → IsErrOf result DumpFault.WriteFault → Rose (K.end sink.old).faults (K.end sink.new).faults }
    {
        if let Some(fault) = self.failed {
            return Err(fault);
        }
        match self.copies.step(store, ns, n, &mut self.block, sink) {
            Ok(Some(count)) => {
                self.documents = self.documents.saturating_add(count as u64);
                if self.copies.have_ended() {
                    self.last_read = store.newest();
                }
                Ok(())
            }
            Ok(None) => Err(DumpFault::NoCursor),
            Err(fault) => {
                let fault = DumpFault::from(fault);
                self.failed = Some(fault);
                Err(fault)
            }
        }
    }

    /// Notes End, once each cursor has ended. It fails where a collection was renamed since Start, and where the oplog
    /// doesn't go back to Start any more.
    pub fn mark(&mut self, store: &Store) -> Result<(), DumpFault>
        ensures marks { (r : Run) → StandsAt store.now r.stage → Meets self.old r → Marks result (on_line lines.Mark r) self.old self.new }
        ensures repeats { (f : Cause) → self.old.failed ≡ Some f → (result ≡ Err f) × (self.new ≡ self.old) }
        ensures going { OnOk result (self.new.failed ≡ None) }
        ensures same { IfErr result (λ fault. is_refusal fault ≡ true → self.new ≡ self.old) }
        ensures cause { self.old.failed ≡ None → IsErrOf result DumpFault.WriteFault → ⊥ }
    {
        if let Some(fault) = self.failed {
            return Err(fault);
        }
        if self.mark.is_some() || !self.copies.have_ended() {
            return Err(DumpFault::NotNow);
        }
        match fault_at_mark(store, self.start) {
            Some(fault) => {
                self.failed = Some(fault);
                Err(fault)
            }
            None => {
                self.mark = Some(store.newest());
                Ok(())
            }
        }
    }

    /// Writes the next n entries of the window as one block, and behind the entry at End the end of the oplog. It fails
    /// where the oplog doesn't go back to Start any more.
    pub fn tail<K: Sink>(&mut self, store: &Store, n: u32, sink: &mut K) -> Result<(), DumpFault>
        ensures comes { (c : Caps) (r : Run) → RunOk c r → StandsAt store.now r.stage → Meets self.old r → ComesTo result (on_line (lines.Tail n) r) r self.old self.new (K.end sink.old) (K.end sink.new) }
        ensures repeats { (f : Cause) → self.old.failed ≡ Some f → (result ≡ Err f) × (self.new ≡ self.old) × (K.end sink.new ≡ K.end sink.old) }
        ensures going { OnOk result (self.new.failed ≡ None) }
        ensures same { IfErr result (λ fault. is_refusal fault ≡ true → self.new ≡ self.old) }
        ensures sends { OnOk result ((self.old.state.closed ≡ false) × (self.new.state.closed ≡ false → (self.new.state.sent ≡ self.old.state.sent + n) × (self.new.state.sent ≤ 1000000))) }
        ensures later { (K.end sink.old).faults ≤ (K.end sink.new).faults }
        ensures cause { self.old.failed ≡ None → IsErrOf result DumpFault.WriteFault → Rose (K.end sink.old).faults (K.end sink.new).faults }
    {
        if let Some(fault) = self.failed {
            return Err(fault);
        }
        let Some(end) = self.mark else {
            return Err(DumpFault::NotNow);
        };
        if self.closed {
            return Err(DumpFault::NotNow);
        }
        let Some(place) = place_of(store.oplog(), self.start) else {
            let oldest = oldest_of(store.oplog(), self.start);
            let fault = DumpFault::Rolled {
                start: self.start,
                oldest,
            };
            self.failed = Some(fault);
            return Err(fault);
        };
        let first = place.saturating_add(self.sent as usize);
        match send(
            self.alloc,
            store.oplog(),
            first,
            end,
            n,
            &mut self.oplog,
            &mut self.block,
            sink,
        ) {
            Ok(last) => {
                self.entries = self.entries.saturating_add(self.block.len() as u64);
                self.sent = self.sent.saturating_add(u64::from(n));
                self.closed = last;
                Ok(())
            }
            Err(fault) => {
                let fault = DumpFault::from(fault);
                self.failed = Some(fault);
                Err(fault)
            }
        }
    }
    // Copy steps of a collection until its cursor has ended.
    fn copy_rest<K: Sink>(
        &mut self,
        store: &Store,
        ns: &NsName,
        sink: &mut K,
    ) -> Result<(), DumpFault>
        ensures does { (c : Caps) (r : Run) → RunOk c r → StandsAt store.now r.stage → Meets self.old r → Does result r (copied_out (ns.now ∷ []) r) self.new (K.end sink.old) (K.end sink.new) }
        ensures going { self.old.failed ≡ None → OnOk result (self.new.failed ≡ None) }
        ensures names { map.keys self.new.state.cursors ≡ map.keys self.old.state.cursors }
        ensures later { (K.end sink.old).faults ≤ (K.end sink.new).faults }
        ensures cause { self.old.failed ≡ None → IsErrOf result DumpFault.WriteFault → Rose (K.end sink.old).faults (K.end sink.new).faults }
    {
        'steps: loop {
            match self.copy(store, ns, LAST_STEP, sink) {
                Ok(()) => {}
                Err(fault) => return if fault.is_refusal() {
                    Ok(())
                } else {
                    Err(fault)
                },
            }
        }
    }

    // The same of a name that isn't needed any more.
    fn copy_named<K: Sink>(
        &mut self,
        store: &Store,
        ns: NsName,
        sink: &mut K,
    ) -> Result<(), DumpFault>
        ensures does { (c : Caps) (r : Run) → RunOk c r → StandsAt store.now r.stage → Meets self.old r → Does result r (copied_out (ns ∷ []) r) self.new (K.end sink.old) (K.end sink.new) }
        ensures going { self.old.failed ≡ None → OnOk result (self.new.failed ≡ None) }
        ensures names { map.keys self.new.state.cursors ≡ map.keys self.old.state.cursors }
        ensures later { (K.end sink.old).faults ≤ (K.end sink.new).faults }
        ensures cause { self.old.failed ≡ None → IsErrOf result DumpFault.WriteFault → Rose (K.end sink.old).faults (K.end sink.new).faults }
    {
        self.copy_rest(store, &ns, sink)
    }

    // The copy steps that are left, in the order of names.
    fn copy_all<K: Sink>(&mut self, store: &Store, sink: &mut K) -> Result<(), DumpFault>
        ensures does { (c : Caps) (r : Run) → RunOk c r → StandsAt store.now r.stage → Meets self.old r → Does result r (copied_out (map.keys self.old.state.cursors) r) self.new (K.end sink.old) (K.end sink.new) }
        ensures going { self.old.failed ≡ None → OnOk result (self.new.failed ≡ None) }
        ensures later { (K.end sink.old).faults ≤ (K.end sink.new).faults }
        ensures cause { self.old.failed ≡ None → IsErrOf result DumpFault.WriteFault → Rose (K.end sink.old).faults (K.end sink.new).faults }
    {
        let mut at = 0;
        'names: loop {
            match self.copies.name(self.alloc, at) {
                Ok(Some(ns)) => match self.copy_named(store, ns, sink) {
                    Ok(()) => at += 1,
                    Err(fault) => return Err(fault),
                },
                Ok(None) => return Ok(()),
                Err(_) => {
                    self.failed = Some(DumpFault::NoMemory);
                    return Err(DumpFault::NoMemory);
                }
            }
        }
    }

    // The mark, where it isn't there yet.
    fn mark_rest(&mut self, store: &Store) -> Result<(), DumpFault>
        ensures does { (r : Run) (e : End) → StandsAt store.now r.stage → Meets self.old r → Does result r (marked_out r) self.new e e }
        ensures going { self.old.failed ≡ None → OnOk result (self.new.failed ≡ None) }
        ensures cause { self.old.failed ≡ None → IsErrOf result DumpFault.WriteFault → ⊥ }
    {
        match self.mark(store) {
            Ok(()) => Ok(()),
            Err(fault) => if fault.is_refusal() {
                Ok(())
            } else {
                Err(fault)
            },
        }
    }

    // Tail steps until the end of the oplog is written.
    fn tail_rest<K: Sink>(&mut self, store: &Store, sink: &mut K) -> Result<(), DumpFault>
        ensures does { (c : Caps) (r : Run) → RunOk c r → StandsAt store.now r.stage → Meets self.old r → ((tailed_out r).outcome ≡ Done → Whole (tailed_out r)) → Does result r (tailed_out r) self.new (K.end sink.old) (K.end sink.new) }
        ensures later { (K.end sink.old).faults ≤ (K.end sink.new).faults }
        ensures cause { self.old.failed ≡ None → IsErrOf result DumpFault.WriteFault → Rose (K.end sink.old).faults (K.end sink.new).faults }
    {
        'steps: loop {
            match self.tail(store, LAST_STEP, sink) {
                Ok(()) => {}
                Err(fault) => return if fault.is_refusal() {
                    Ok(())
                } else {
                    Err(fault)
                },
            }
        }
    }

    // All that is left.
    fn rest<K: Sink>(&mut self, store: &Store, sink: &mut K) -> Result<(), DumpFault>
        ensures does { (c : Caps) (r : Run) → RunOk c r → StandsAt store.now r.stage → Meets self.old r → Does result r (finished r) self.new (K.end sink.old) (K.end sink.new) }
        ensures later { (K.end sink.old).faults ≤ (K.end sink.new).faults }
        ensures cause { self.old.failed ≡ None → IsErrOf result DumpFault.WriteFault → Rose (K.end sink.old).faults (K.end sink.new).faults }
    {
        match self.copy_all(store, sink) {
            Ok(()) => match self.mark_rest(store) {
                Ok(()) => self.tail_rest(store, sink),
                Err(fault) => Err(fault),
            },
            Err(fault) => Err(fault),
        }
    }

    /// Does what is left: for each collection in the order of names copy steps of 1,000 until its cursor has ended, the
    /// mark, and tail steps of 1,000. Tells the moments, and how much the whole dump wrote.
    pub fn finish<K: Sink>(&mut self, store: &Store, sink: &mut K) -> Result<DumpReport, DumpFault>
        ensures finishes { (c : Caps) (r : Run) → RunOk c r → StandsAt store.now r.stage → Meets self.old r → Finishes result r (finished r) self.new (K.end sink.old) (K.end sink.new) }
        ensures repeats { (f : Cause) → self.old.failed ≡ Some f → (result ≡ Err f) × (self.new ≡ self.old) × (K.end sink.new ≡ K.end sink.old) }
        ensures later { (K.end sink.old).faults ≤ (K.end sink.new).faults }
        ensures cause { self.old.failed ≡ None → IsErrOf result DumpFault.WriteFault → Rose (K.end sink.old).faults (K.end sink.new).faults }
    {
        if let Some(fault) = self.failed {
            return Err(fault);
        }
        match self.rest(store, sink) {
            Ok(()) => match self.mark {
                Some(end) => Ok(DumpReport {
                    start: self.start,
                    last_read: self.last_read,
                    end,
                    documents: self.documents,
                    entries: self.entries,
                }),
                None => Err(DumpFault::NotNow),
            },
            Err(fault) => Err(fault),
        }
    }
}
