//! A store, and what is seen of it.
ghost use Rattle.std.specs.Prelude.{◌≡◌, ◌≤◌, IfOk};
ghost use Rattle.history_model.specs.Entries.{entry_bytes};
ghost use Rattle.history_model.specs.Indexes.{IndexesHold};
ghost use Rattle.history_model.specs.Runs.{first_entry, first_stage};
ghost use Rattle.store_log.specs.Logged.{next_ts};
ghost use Rattle.store_core.specs.Stores.{StandsAt, AreShort};

use crate::entries::spelled;
use bson_value::{Bytes, NsName, Text, Ts};
use capped_oplog::CappedOplog;
use coll_state::State;
use entry_model::Action;
use kept_indexes::KeptIndexes;
use std::alloc::{AllocError, Global};
use std::marker::Model;
use store_log::{Log, next_ts};

/// Collections, and the oplog of what was done to them. In contracts it is the collections and the log.
#[derive(Drop)]
pub struct Store {
    pub(crate) alloc: Global,
    pub(crate) state: State,
    pub(crate) log: Log,
    /// The built indexes of those collections that were written to since they were last made, renamed or dropped, their
    /// definitions changed, or a transaction that names them was too large or found no memory.
    pub(crate) indexes: KeptIndexes,
}

impl Model for Store {
    ghost use Rattle.store_core.specs.Stores.{Stored, IsSoundStore};
    ghost use Rattle.store_core.specs.Codes.{stored_code};

    ghost Value = { Stored };

    ghost coded = { stored_code };

    ghost view = { λ s. record { rows = s.state; log = s.log } };

    ghost invariant = { λ s. IsSoundStore s.state s.log s.indexes };
}

// The bytes of the first entry, which stands at 1:1 and is of no write.
fn first_entry(alloc: Global) -> Result<Bytes, AllocError>
    ensures { IfOk result (λ bytes. bytes ≡ entry_bytes first_entry) }
{
    let first = Ts { secs: 1, inc: 1 };
    let ns = NsName {
        db: Text::new(alloc),
        coll: Text::new(alloc),
    };
    spelled(alloc, first, ns, Action::Nothing)
}

impl Store {
    /// No collection, the clock at 1, updates recorded in the second form, and one entry, of no write, at 1:1. The oplog
    /// keeps at most `cap` entries, whose places it takes at once, and, as long as there is more than one, at most `bytes` bytes of
    /// them.
    pub fn new(alloc: Global, cap: usize, bytes: Option<u64>) -> Result<Store, AllocError>
        requires least { 1 ≤ cap }
        requires most { cap ≤ 1000000 }
        ensures { IfOk result (λ store. StandsAt store (first_stage (record { entries = cap; bytes = bytes }))) }
    {
        let oplog = CappedOplog::new(alloc, cap, bytes)?;
        let first = first_entry(alloc)?;
        Ok(Store {
            alloc,
            state: State::new(alloc),
            log: Log::new(oplog, first),
            indexes: KeptIndexes::new(alloc),
        })
    }

    /// The collections. Each of their documents is kept as its spelling, with its `_id` first.
    pub fn state(&self) -> &State
        ensures { result.now ≡ self.now.rows }
    {
        &self.state
    }

    /// The entries that the caps allow.
    pub fn oplog(&self) -> &CappedOplog
        ensures { result.now ≡ self.now.log.ring }
    {
        self.log.oplog()
    }

    /// The timestamp of the newest entry.
    pub fn newest(&self) -> Ts
        ensures { result ≡ self.now.log.newest }
    {
        self.log.newest()
    }

    /// The timestamp of the next entry: the clock's second where that is later, else the newest one's next ordinal.
    pub fn next_ts(&self) -> Ts
        ensures { result ≡ next_ts self.now.log.clock self.now.log.newest }
    {
        self.log.is_kept();
        next_ts(self.log.clock(), self.log.newest())
    }

    /// The timestamp of the newest entry that renames a collection.
    pub fn last_rename(&self) -> Option<Ts>
        ensures { result ≡ self.now.log.renamed }
    {
        self.log.renamed()
    }

    /// Does nothing. Its caller learns that each document that stands has at most 16,777,216 bytes and 100 levels.
    pub fn is_short(&self)
        ensures { AreShort self.now.rows }
    {
        let _ = &self.state;
    }

    /// Does nothing. Its caller learns that the indexes hold: a built unique one has no key of two documents, and no
    /// document has two fields of a built one that meet an array.
    pub fn indexes_hold(&self)
        ensures { IndexesHold self.now.rows }
    {
        let _ = &self.state;
    }

    /// How many entries were recorded behind the first one.
    pub fn recorded(&self) -> u64
        ensures { result ≡ self.now.log.recorded }
    {
        self.log.recorded()
    }
}
