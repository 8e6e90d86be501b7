//! What the store records: the oplog, and what the next entry depends on.
ghost use Rattle.std.specs.Prelude.{◌≡◌, ◌+◌, ◌<◌, [], Some};
ghost use Rattle.capped_oplog.specs.Ring.{IsLater, trimmed_down};
ghost use Rattle.store_log.specs.Logged.{next_ts, with_entry, logged, first_log, IsKept};

use bson_value::{Bytes, Ts};
use capped_oplog::CappedOplog;
use doc_path::Form;
use std::marker::Model;

/// No more entries are recorded behind the first one.
pub const MOST_ENTRIES: u64 = 4_000_000_001;

/// The oplog, with the clock, the form of later updates, and the timestamps of the newest entry and of the
/// newest rename.
#[derive(Drop)]
pub struct Log {
    clock: u32,
    form: Form,
    newest: Ts,
    renamed: Option<Ts>,
    oplog: CappedOplog,
    recorded: u64,
}

impl Model for Log {
    ghost use Rattle.store_log.specs.Logged.{Logged, IsKept};

    ghost Value = { Logged };

    ghost view = { λ l. record { clock = l.clock; form = l.form; newest = l.newest; renamed = l.renamed; ring = l.oplog; recorded = l.recorded } };

    ghost invariant = { λ l. IsKept l.newest l.oplog l.recorded };
}

// Takes entries out from the oldest on, until the caps allow the others.
fn trim_all(oplog: &mut CappedOplog)
    ensures { oplog.new ≡ record oplog.old { entries = trimmed_down oplog.old.limit oplog.old.entries } }
{
    'trims: while let Some(_) = oplog.trim() {}
}

// Adds the newest entry.
fn put_entry(oplog: &mut CappedOplog, ts: Ts, bytes: Bytes)
    requires { IsLater oplog.old.entries ts }
    ensures { oplog.new ≡ with_entry oplog.old (ts, bytes) }
{
    let _ = oplog.push(ts, bytes);
    trim_all(oplog);
}

/// The timestamp behind the newest one: the clock's second where that is later, else the next ordinal.
pub fn next_ts(clock: u32, newest: Ts) -> Ts
    requires { newest.inc < 4294967295 }
    ensures { result ≡ next_ts clock newest }
{
    if newest.secs < clock {
        Ts {
            secs: clock,
            inc: 1,
        }
    } else {
        Ts {
            secs: newest.secs,
            inc: newest.inc + 1,
        }
    }
}

impl Log {
    /// The clock at 1, and one entry at 1:1. Updates are recorded in the second form.
    pub fn new(oplog: CappedOplog, first: Bytes) -> Log
        requires empty { oplog.entries ≡ [] }
        requires room { 0 < oplog.cap }
        ensures { result ≡ first_log oplog first }
    {
        let mut oplog = oplog;
        let newest = Ts { secs: 1, inc: 1 };
        let _ = oplog.push(newest, first);
        let _count = oplog.len();
        Log {
            clock: 1,
            form: Form::V2,
            newest,
            renamed: None,
            oplog,
            recorded: 0,
        }
    }

    /// The clock, in seconds since 1970.
    pub fn clock(&self) -> u32
        ensures { result ≡ self.now.clock }
    {
        self.clock
    }

    /// Sets the clock.
    pub fn set_clock(&mut self, secs: u32)
        ensures { self.new ≡ record self.old { clock = secs } }
    {
        self.clock = secs;
    }

    /// The form in which updates are recorded.
    pub fn form(&self) -> Form
        ensures { result ≡ self.now.form }
    {
        self.form
    }

    /// Updates are recorded in this form from now on.
    pub fn set_form(&mut self, form: Form)
        ensures { self.new ≡ record self.old { form = form } }
    {
        self.form = form;
    }

    /// The timestamp of the newest entry.
    pub fn newest(&self) -> Ts
        ensures { result ≡ self.now.newest }
    {
        self.newest
    }

    /// The timestamp of the newest rename.
    pub fn renamed(&self) -> Option<Ts>
        ensures { result ≡ self.now.renamed }
    {
        self.renamed
    }

    /// The entries that are kept.
    pub fn oplog(&self) -> &CappedOplog
        ensures { result.now ≡ self.now.ring }
    {
        &self.oplog
    }

    /// The timestamp of the next entry.
    pub fn next_ts(&self) -> Ts
        requires { self.now.recorded < 4000000001 }
        ensures { result ≡ next_ts self.now.clock self.now.newest }
    {
        next_ts(self.clock, self.newest)
    }

    /// Records an entry with these bytes, at the next timestamp. It takes no memory.
    pub fn add(&mut self, bytes: Bytes)
        requires { self.old.recorded < 4000000001 }
        ensures { self.new ≡ logged bytes self.old }
    {
        let _before = self.oplog.len();
        let ts = next_ts(self.clock, self.newest);
        put_entry(&mut self.oplog, ts, bytes);
        self.newest = ts;
        self.recorded += 1;
    }

    /// How many entries were recorded behind the first one.
    pub fn recorded(&self) -> u64
        ensures { result ≡ self.now.recorded }
    {
        self.recorded
    }

    /// Does nothing. Its caller learns what holds at each moment.
    pub fn is_kept(&self)
        ensures { IsKept self.now.newest self.now.ring self.now.recorded }
    {
        let _ = &self.newest;
    }

    /// Notes that the newest entry is of a rename.
    pub fn note_rename(&mut self)
        ensures { self.new ≡ record self.old { renamed = Some self.old.newest } }
    {
        self.renamed = Some(self.newest);
    }
}
