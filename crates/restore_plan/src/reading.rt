//! An archive is restored from a source.
ghost use Rattle.std.specs.Prelude.{◌≡◌, ◌≤◌, ◌⊎◌, Some, None, [], IfOk, IfNone, IsErrOf};
ghost use Rattle.tool_io.specs.Causes.{Rose};
ghost use Rattle.coll_state.specs.Rows.{state_of};
ghost use Rattle.index_build.specs.Numbers.{counts as counts_of};
ghost use Rattle.restore_plan.specs.Laws.{DefinitionsStand};
ghost use Rattle.restore_plan.specs.Taken.{contents_of};
ghost use Rattle.restore_plan.specs.Outcome.{IsOutcome, restores, TakesAll, IsReadTo, IsRefused, IsUnsettled, OnInput, OneOutcome, RefusedIsOutcome, refuses, fails, IsMet};

use crate::fault::RestoreFault;
use crate::plan::Plan;
use crate::restore::Restore;
use archive_format::FormatFault;
use coll_state::State;
use demux::{Demux, DemuxFault};
use index_build::Counts;
use std::alloc::Global;
use tool_io::Source;

/// Why an input isn't restored.
#[derive(Drop)]
pub enum ArchiveFault {
    /// It is no archive.
    Format(FormatFault),
    /// It is one that can't be restored.
    Restore(RestoreFault),
    ReadFault,
    NoMemory,
}

// What a restore that fails at its end is told as.
fn at_end(fault: RestoreFault) -> ArchiveFault
    ensures failure { (f : RestoreFault) → result ≡ ArchiveFault.Restore f → (fault ≡ f) × (f ≡ RestoreFault.NoMemory → ⊥) }
    ensures format { (f : FormatFault) → result ≡ ArchiveFault.Format f → ⊥ }
    ensures read_fault { result ≡ ArchiveFault.ReadFault → ⊥ }
{
    match fault {
        RestoreFault::NoMemory => ArchiveFault::NoMemory,
        fault => ArchiveFault::Restore(fault),
    }
}

// Why a run failed, if it isn't that a taking was refused.
fn outer_fault(fault: DemuxFault) -> Option<ArchiveFault>
    ensures none { IfNone result (fault ≡ DemuxFault.Stopped) }
    ensures format { (f : FormatFault) → result ≡ Some (ArchiveFault.Format f) → fault ≡ DemuxFault.Format f }
    ensures restore { (f : RestoreFault) → result ≡ Some (ArchiveFault.Restore f) → ⊥ }
    ensures read_fault { result ≡ Some ArchiveFault.ReadFault → fault ≡ DemuxFault.ReadFault }
    ensures no_memory { result ≡ Some ArchiveFault.NoMemory → fault ≡ DemuxFault.NoMemory }
{
    match fault {
        DemuxFault::Format(fault) => Some(ArchiveFault::Format(fault)),
        DemuxFault::ReadFault => Some(ArchiveFault::ReadFault),
        DemuxFault::NoMemory => Some(ArchiveFault::NoMemory),
        DemuxFault::Stopped => None,
    }
}

// Takes all that the source has left.
fn take_all<S: Source>(alloc: Global, plan: Plan, source: &mut S) -> Result<Restore, ArchiveFault>
    ensures taken { IfOk result (λ r. OnInput (S.end source.old).bytes (λ all. ((S.end source.new).bytes ≡ Some []) × TakesAll plan all (contents_of r))) }
    ensures fine { IfOk result (λ r. r.fault ≡ None) }
    ensures format { (f : FormatFault) → IsErrOf result (ArchiveFault.Format f) → OnInput (S.end source.old).bytes (λ all. IsRefused plan all (S.end source.new).bytes (refuses f)) }
    ensures stopped { (f : RestoreFault) → IsErrOf result (ArchiveFault.Restore f) → OnInput (S.end source.old).bytes (λ all. IsRefused plan all (S.end source.new).bytes (fails f)) }
    ensures read_fault { IsErrOf result ArchiveFault.ReadFault → Rose (S.end source.old).faults (S.end source.new).faults }
    ensures unsettled { IsErrOf result ArchiveFault.ReadFault → OnInput (S.end source.old).bytes (λ all. IsUnsettled plan all (S.end source.new).bytes) }
    ensures no_memory { IsErrOf result ArchiveFault.NoMemory → OnInput (S.end source.old).bytes (λ all. IsReadTo plan all (S.end source.new).bytes) }
    ensures later { (S.end source.old).faults ≤ (S.end source.new).faults }
{
    let Ok(demux) = Demux::new(alloc) else {
        return Err(ArchiveFault::NoMemory);
    };
    let Plan {
        filter,
        replaying,
        limit,
    } = plan;
    let mut restore = Restore::new(alloc, filter, replaying, limit);
    let Err(fault) = demux.run(source, &mut restore) else {
        return Ok(restore);
    };
    if let Some(fault) = outer_fault(fault) {
        drop(restore);
        return Err(fault);
    }
    match restore.into_fault() {
        Some(fault) => Err(ArchiveFault::Restore(fault)),
        None => unreachable!(),
    }
}

/// The state that the archive restores to which the source has left, and the numbers of the keys of its indexes. It takes memory for
/// the state, the entries that wait to be replayed, the names of ended namespaces, and for a window of 16,793,600 bytes.
pub fn restore_archive<S: Source>(
    alloc: Global,
    plan: Plan,
    source: &mut S,
) -> Result<(State, Counts), ArchiveFault>
    ensures restored { IfOk result (λ r. OnInput (S.end source.old).bytes (λ all. ((S.end source.new).bytes ≡ Some []) × IsOutcome plan all (restores (state_of r.0)))) }
    ensures counts { IfOk result (λ r. r.1 ≡ counts_of (state_of r.0)) }
    ensures format { (f : FormatFault) → IsErrOf result (ArchiveFault.Format f) → OnInput (S.end source.old).bytes (λ all. IsRefused plan all (S.end source.new).bytes (refuses f)) }
    ensures fails { (f : RestoreFault) → IsErrOf result (ArchiveFault.Restore f) → OnInput (S.end source.old).bytes (λ all. IsMet plan all (S.end source.new).bytes f) }
    ensures read_fault { IsErrOf result ArchiveFault.ReadFault → Rose (S.end source.old).faults (S.end source.new).faults }
    ensures unsettled { IsErrOf result ArchiveFault.ReadFault → OnInput (S.end source.old).bytes (λ all. IsUnsettled plan all (S.end source.new).bytes) }
    ensures no_memory { IsErrOf result ArchiveFault.NoMemory → OnInput (S.end source.old).bytes (λ all. ((S.end source.new).bytes ≡ Some []) ⊎ IsReadTo plan all (S.end source.new).bytes) }
    ensures later { (S.end source.old).faults ≤ (S.end source.new).faults }
{
    let restore = match take_all(alloc, plan, source) {
        Ok(restore) => restore,
        Err(fault) => return Err(fault),
    };
    match restore.finish() {
        Ok(made) => Ok(made),
        Err(fault) => Err(at_end(fault)),
    }
}

/// Each input has one outcome.
pub fn one_outcome()
    ensures { OneOutcome }
{}

/// An input that is refused has that outcome, whatever was read of it.
pub fn refused_is_outcome()
    ensures { RefusedIsOutcome }
{}

/// The definitions of a metadata text, in normal form, stand in a state in the order of the text.
pub fn definitions_stand()
    ensures { DefinitionsStand }
{}
