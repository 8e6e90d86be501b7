//! Entries that are replayed as they come.
//!
//! An entry that changes one document of a namespace that was ended meets nothing of what the archive still has, where no namespace
//! gets the name of another and no entry waits before it. So it needn't be kept. The others wait for the end.
ghost use Rattle.std.specs.Prelude.{◌≡◌, OnOk, OnErr, IfOk};
ghost use Rattle.std.specs.FinMap as map;
ghost use Rattle.std.specs.BTreeSet.{insert_key};
ghost use Rattle.bson_value.specs.NamespaceOrder.{namespace_cmp};
ghost use Rattle.coll_state.specs.Rows.{state_of};
ghost use Rattle.restore_plan.specs.Taken.{contents_of, is_ripe, with_entry, plays_early};

use crate::plan::Plan;
use crate::restore::Restore;
use bson_value::NsName;
use entry_model::Entry;
use restore_entries::{changes_document, replay_document};
use std::alloc::{AllocError, Global};
use std::collections::BTreeSet;

impl Plan {
    /// Whether entries may be replayed before the end of the archive.
    pub(crate) fn plays_early(&self) -> bool
        ensures { result ≡ plays_early self.now }
    {
        self.replaying && !self.filter.is_renaming()
    }
}

/// The namespace among those that were ended. Where there is no memory, they are as before.
pub(crate) fn note_end(
    alloc: Global,
    ended: &mut BTreeSet<NsName>,
    ns: &NsName,
) -> Result<(), AllocError>
    ensures ok { OnOk result (ended.new.keys ≡ insert_key namespace_cmp ended.old.keys ns.now) }
    ensures err { OnErr result (ended.new.keys ≡ ended.old.keys) }
{
    let name = ns.copy(alloc)?;
    match ended.insert(name) {
        Ok(_) => Ok(()),
        Err(_) => Err(AllocError),
    }
}

impl Restore {
    fn is_ripe(&self, entry: &Entry) -> bool
        ensures { result ≡ is_ripe (contents_of self.now) entry.now }
    {
        self.entries.is_empty() && changes_document(&entry.action) && self.ended.contains(&entry.ns)
    }

    /// An entry, which is replayed where it is ripe, and waits else.
    pub(crate) fn take_entry(&mut self, entry: Entry) -> Result<(), AllocError>
        ensures ok { OnOk result (contents_of self.new ≡ with_entry (contents_of self.old) entry) }
        ensures err { OnErr result (contents_of self.new ≡ contents_of self.old) }
        ensures plan { self.new.plan ≡ self.old.plan }
        ensures fault { self.new.fault ≡ self.old.fault }
        ensures starved { self.new.starved ≡ self.old.starved }
    {
        if !self.is_ripe(&entry) {
            return self.entries.push(entry);
        }
        let played = replay_document(self.alloc, &mut self.state, &entry);
        drop(entry);
        played
    }
}
