//! The restore of an archive, as its takings come.
ghost use Rattle.std.specs.Prelude.{◌≡◌, ◌++◌, IfOk, IfErr, OnOk, OnErr, IsOk, IsErr, Some, None, true, IsSome};
ghost use Rattle.restore_plan.specs.Taken.{contents_of, Contents, nothing, stops_of, starved_of};

use crate::collections::has_id;
use crate::early::note_end;
use crate::fault::RestoreFault;
use crate::plan::Plan;
use crate::taking::{take_document, take_end, take_metadata};
use archive_format::is_oplog;
use bson_value::{List, NsName, Ts};
use coll_state::State;
use demux::{DocTaker, Halt};
use entry_model::Entry;
use metadata_text::{MetaFault, metadata_of};
use restore_entries::EntryReading;
use restore_filter::Filter;
use std::alloc::{AllocError, Global};
use std::collections::BTreeSet;
use std::mem;

/// Makes a state of what an archive holds, a taking at a time. An entry of the oplog that changes one document is replayed as it comes
/// where the plan changes no names, no entry waits before it, and its namespace was ended and has a collection; any other waits for the
/// end. It stops at the first taking that it refuses.
#[derive(Drop)]
pub struct Restore {
    pub(crate) alloc: Global,
    pub(crate) plan: Plan,
    pub(crate) state: State,
    pub(crate) entries: List<Entry>,
    pub(crate) ended: BTreeSet<NsName>,
    pub(crate) fault: Option<RestoreFault>,
    pub(crate) starved: bool,
}

impl Restore {
    /// A restore of which nothing was taken yet. Entries act on the names that they have, also beside pairs that rename.
    pub fn new(alloc: Global, filter: Filter, replaying: bool, limit: Option<Ts>) -> Restore
        ensures plan { result.plan ≡ record { filter = filter; replaying = replaying; limit = limit } }
        ensures contents { contents_of result ≡ nothing }
        ensures stops { stops_of result ≡ 0 }
        ensures starved { starved_of result ≡ 0 }
    {
        Restore {
            alloc,
            plan: Plan {
                filter,
                replaying,
                limit,
            },
            state: State::new(alloc),
            entries: List::new(alloc),
            ended: BTreeSet::new(alloc),
            fault: None,
            starved: false,
        }
    }

    fn starve(&mut self) -> Halt
        ensures halt { result ≡ Halt.NoMemory }
        ensures after { self.new ≡ record self.old { starved = true } }
    {
        self.starved = true;
        Halt::NoMemory
    }

    // That a taking was taken, if there was memory for it.
    fn told(&mut self, taken: Result<(), AllocError>) -> Result<(), Halt>
        ensures ok { OnOk result (self.new ≡ self.old) }
        ensures taken { OnOk result (IsOk taken) }
        ensures only { IfErr result (λ e. (e ≡ Halt.NoMemory) × (self.new ≡ record self.old { starved = true })) }
        ensures starved { OnErr result (IsErr taken) }
    {
        match taken {
            Ok(()) => Ok(()),
            Err(_) => Err(self.starve()),
        }
    }

    // Stops for this reason.
    fn stop(&mut self, fault: RestoreFault) -> Halt
        ensures halt { result ≡ Halt.Stopped }
        ensures after { self.new ≡ record self.old { fault = Some fault } }
    {
        let before = mem::replace(&mut self.fault, Some(fault));
        drop(before);
        Halt::Stopped
    }

    // Stops at a text of this namespace that is no metadata.
    fn stop_at_metadata(&mut self, ns: &NsName, at: usize) -> Halt
        ensures stopped { result ≡ Halt.Stopped → self.new ≡ record self.old { fault = Some (RestoreFault.Metadata ns.now at) } }
        ensures starved { result ≡ Halt.NoMemory → self.new ≡ record self.old { starved = true } }
    {
        match ns.copy(self.alloc) {
            Err(_) => self.starve(),
            Ok(ns) => self.stop(RestoreFault::Metadata { ns, at }),
        }
    }

    // Stops at a document of this namespace that has no `_id`.
    fn stop_without_id(&mut self, ns: &NsName) -> Halt
        ensures stopped { result ≡ Halt.Stopped → self.new ≡ record self.old { fault = Some (RestoreFault.NoId ns.now) } }
        ensures starved { result ≡ Halt.NoMemory → self.new ≡ record self.old { starved = true } }
    {
        match ns.copy(self.alloc) {
            Err(_) => self.starve(),
            Ok(ns) => self.stop(RestoreFault::NoId { ns }),
        }
    }

    // Stops at a document of the oplog that is no entry.
    fn stop_at_entry(&mut self, ts: Option<Ts>) -> Halt
        ensures halt { result ≡ Halt.Stopped }
        ensures after { self.new ≡ record self.old { fault = Some (RestoreFault.Entry ts) } }
    {
        self.stop(RestoreFault::Entry { ts })
    }
}

impl DocTaker for Restore {
    ghost use Rattle.std.specs.Prelude.{Option, Some, option_map};
    ghost use Rattle.archive_format.specs.Archive.{Taking};
    ghost use Rattle.restore_plan.specs.Base.{bad_at};
    ghost use Rattle.restore_plan.specs.Taken.{Contents, contents_of, and_taking, stops_of, starved_of, same_fault};

    ghost Known = { Option Contents };

    ghost adds = { λ r. and_taking r.plan };

    ghost known = { λ r. Some (Some (contents_of r)) };

    ghost stops = { λ r. stops_of r };

    ghost starved = { λ r. starved_of r };

    ghost halted = { λ r t. same_fault r.fault (bad_at r.plan t) };

    fn meta(&mut self, ns: &NsName, text: &str) -> Result<(), Halt> {
        if is_oplog(ns) {
            return Ok(());
        }
        match metadata_of(self.alloc, text) {
            Err(MetaFault::NoMemory) => Err(self.starve()),
            Err(MetaFault::Bad { at }) => Err(self.stop_at_metadata(ns, at)),
            Ok((options, defs)) => {
                let filter = &self.plan.filter;
                let state = &mut self.state;
                let taken = take_metadata(self.alloc, filter, state, ns, options, defs.as_slice());
                self.told(taken)
            }
        }
    }

    fn doc(&mut self, ns: &NsName, bytes: &[u8]) -> Result<(), Halt> {
        if is_oplog(ns) {
            return match self.read_or_take(bytes) {
                Err(_) => Err(self.starve()),
                Ok(None) => Ok(()),
                Ok(Some(EntryReading::Passed)) => Ok(()),
                Ok(Some(EntryReading::Kept(entry))) => {
                    let taken = self.take_entry(entry);
                    self.told(taken)
                }
                Ok(Some(EntryReading::Unreadable(ts))) => Err(self.stop_at_entry(ts)),
            };
        }
        if !has_id(bytes) {
            return Err(self.stop_without_id(ns));
        }
        let taken = take_document(self.alloc, &self.plan.filter, &mut self.state, ns, bytes);
        self.told(taken)
    }

    fn end(&mut self, ns: &NsName) -> Result<(), Halt> {
        if is_oplog(ns) {
            return Ok(());
        }
        if self.plan.plays_early() && self.state.has(ns) {
            let noted = note_end(self.alloc, &mut self.ended, ns);
            return self.told(noted);
        }
        let taken = take_end(self.alloc, &self.plan.filter, &mut self.state, ns);
        self.told(taken)
    }
}
