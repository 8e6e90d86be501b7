//! The end of a restore: the entries are replayed, and the keys of indexes are counted.
ghost use Rattle.std.specs.Prelude.{◌≡◌, ◌<◌, ◌^◌, IfOk, IfErr, OnOk, None};
ghost use Rattle.coll_state.specs.Rows.{state_of};
ghost use Rattle.index_build.specs.Numbers.{counts as counts_of};
ghost use Rattle.restore_plan.specs.Faults.{IsFault};
ghost use Rattle.std.specs.Option.{option_copied};
ghost use Rattle.restore_plan.specs.Taken.{contents_of, finished, fault_of, stopped_for};

use crate::fault::{RestoreFault, of_indexes, of_replay};
use crate::restore::Restore;
use coll_state::State;
use index_build::{Counts, count_all};
use restore_entries::replay_entries;

/// A restored state counts less calls than this.
const STATE_LIMIT: u128 = 85070591730234615865843651857942052864;

impl Restore {
    /// Why it stopped, if it did.
    pub fn fault(&self) -> Option<&RestoreFault>
        ensures { option_copied result ≡ stopped_for self.now }
    {
        self.fault.as_ref()
    }

    pub(crate) fn into_fault(self) -> Option<RestoreFault>
        ensures { result ≡ self.fault }
    {
        self.fault
    }

    /// The state that all takings make, once the entries that waited were replayed in their order, and the numbers of its keys. The
    /// restore is spent. One that stopped answers what it stopped for. A state that counted 2^126 calls finds no memory.
    pub fn finish(self) -> Result<(State, Counts), RestoreFault>
        ensures ok { IfOk result (λ r. state_of r.0 ≡ finished (contents_of self)) }
        ensures counts { IfOk result (λ r. r.1 ≡ counts_of (state_of r.0)) }
        ensures count { IfOk result (λ r. r.0.count < 2 ^ 126) }
        ensures fine { OnOk result (fault_of self ≡ None) }
        ensures fault { IfErr result (λ e. IsFault e (fault_of self)) }
    {
        let Restore {
            alloc,
            plan: _,
            mut state,
            entries,
            ended: _,
            fault,
            starved,
        } = self;
        if let Some(fault) = fault {
            return Err(fault);
        }
        if starved {
            return Err(RestoreFault::NoMemory);
        }
        if let Err(fault) = replay_entries(alloc, &mut state, entries.as_slice()) {
            return Err(of_replay(fault));
        }
        if state.count() >= STATE_LIMIT {
            return Err(RestoreFault::NoMemory);
        }
        match count_all(alloc, &state) {
            Ok(counts) => Ok((state, counts)),
            Err(fault) => Err(of_indexes(fault)),
        }
    }
}
