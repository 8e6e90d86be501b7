//! A drill from its text to its line.
ghost use Rattle.std.specs.Prelude.{◌≡◌, ◌≤◌, None, length, codes, IfOk, OnOk, OnErr, IsErrOf, string_bytes};
ghost use Rattle.std.specs.FinMap as map;
ghost use Rattle.std.specs.Io.KnownBytes.{Appends};
ghost use Rattle.tool_io.specs.Causes.{Rose, AppendsFront};
ghost use Rattle.document_lines.specs.declared.form.ListForm.TheVariants.{Hex};
ghost use Rattle.coll_state.specs.Rows.{state_of};
ghost use Rattle.index_build.specs.Numbers.{counts as counts_of};
ghost use Rattle.state_listing.specs.Listing.{listing};
ghost use Rattle.history_model.specs.Runs.{Done};
ghost use Rattle.history_model.specs.Histories.{outcome};
ghost use Rattle.dump_model.specs.Archives.{written};
ghost use Rattle.schedule_report.specs.Schedules.{schedule_in};
ghost use Rattle.schedule_dump.specs.Outcomes.{IsReport, IsSource};
ghost use Rattle.restore_plan.specs.Outcome.{restores, IsOutcome};
ghost use Rattle.drill_schedule.specs.Drills.{drill};
ghost use Rattle.drill_run.specs.Drills.{drill_line};
ghost use Rattle.drill_run.specs.Restores.{whole_plan, Restores, IsListed};

use crate::laws::drills_heal;
use crate::line::{Counts, counts_line};
use crate::memory::{Buffer, Discard, SliceSource};
use bson_value::List;
use coll_state::State;
use document_lines::ListForm;
use drill_schedule::drills_are_schedules;
use dump_run::DumpReport;
use index_build::Counts as KeyCounts;
use restore_filter::Filter;
use restore_plan::{ArchiveFault, Plan, one_outcome, refused_is_outcome, restore_archive};
use schedule_dump::{RunFault, dump};
use schedule_text::{LineFault, Schedule};
use state_listing::list;
use std::alloc::{AllocError, Global};
use store_core::Store;
use store_listing::list_store;
use tool_io::{Fault, Sink};

// The schedule of a drill.
fn read_drill(alloc: Global, n: u32) -> Result<Schedule, AllocError>
    requires least { 1 ≤ n }
    requires most { n ≤ 100000 }
    ensures { IfOk result (λ s. s ≡ drill n) }
{
    drills_are_schedules();
    let text = schedule_text::drill(alloc, n)?;
    match Schedule::read(alloc, text.as_slice()) {
        Ok(schedule) => Ok(schedule),
        Err(LineFault::NoMemory) => Err(AllocError),
        Err(LineFault::Bad { .. }) => unreachable!(),
    }
}

// A dump that is done.
#[derive(Drop)]
struct DoneDump {
    report: DumpReport,
    archive: Buffer,
    // The store as all lines of the schedule left it.
    store: Store,
}

fn dump_into_memory(alloc: Global, schedule: Schedule) -> Result<DoneDump, AllocError>
    requires least { 1 ≤ schedule.cap }
    requires most { schedule.cap ≤ 1000000 }
    requires done { outcome (schedule_in schedule) ≡ Done }
    ensures report { IfOk result (λ d. IsReport d.report (schedule_in schedule)) }
    ensures archive { IfOk result (λ d. d.archive ≡ written (schedule_in schedule)) }
    ensures store { IfOk result (λ d. IsSource d.store (schedule_in schedule)) }
{
    let mut archive = Buffer::new(alloc);
    match dump(alloc, schedule, &mut archive, &mut Discard) {
        Ok((report, store)) => Ok(DoneDump {
            report,
            archive,
            store,
        }),
        Err(RunFault::NoMemory) => Err(AllocError),
        Err(RunFault::Renamed { .. }) => unreachable!(),
        Err(RunFault::Rolled { .. }) => unreachable!(),
        Err(RunFault::OutputFault) => unreachable!(),
        Err(RunFault::ReportFault) => unreachable!(),
    }
}

// The plan of a restore that replays all entries on all collections.
fn whole_plan(alloc: Global) -> Plan
    ensures { result ≡ whole_plan }
{
    Plan {
        filter: Filter::new(List::new(alloc), List::new(alloc), List::new(alloc)),
        replaying: true,
        limit: None,
    }
}

// The state that an archive restores to which has one.
fn restore_from_memory(alloc: Global, archive: &[u8]) -> Result<(State, KeyCounts), AllocError>
    requires { Restores archive.now }
    ensures state { IfOk result (λ r. IsOutcome whole_plan archive.now (restores (state_of r.0))) }
    ensures counts { IfOk result (λ r. r.1 ≡ counts_of (state_of r.0)) }
{
    one_outcome();
    refused_is_outcome();
    let mut source = SliceSource::new(archive);
    match restore_archive(alloc, whole_plan(alloc), &mut source) {
        Ok(made) => Ok(made),
        Err(ArchiveFault::NoMemory) => Err(AllocError),
        Err(ArchiveFault::ReadFault) => unreachable!(),
        Err(ArchiveFault::Format(_)) => unreachable!(),
        Err(ArchiveFault::Restore(_)) => unreachable!(),
    }
}

// Its listing.
fn list_restored(alloc: Global, archive: &[u8]) -> Result<Buffer, AllocError>
    requires { Restores archive.now }
    ensures { IfOk result (λ text. IsListed archive.now text) }
{
    let (state, counts) = restore_from_memory(alloc, archive)?;
    let mut text = Buffer::new(alloc);
    match list(alloc, &state, &counts, ListForm::Hex, &mut text) {
        Ok(()) => Ok(text),
        Err(Fault::NoMemory) => Err(AllocError),
        Err(Fault::Failed) => unreachable!(),
    }
}

// The listing of a store.
fn list_store_into_memory(alloc: Global, store: &Store) -> Result<Buffer, AllocError>
    ensures { IfOk result (λ text. text ≡ listing Hex (state_of store.now.rows)) }
{
    let mut text = Buffer::new(alloc);
    match list_store(alloc, store, ListForm::Hex, &mut text) {
        Ok(()) => Ok(text),
        Err(Fault::NoMemory) => Err(AllocError),
        Err(Fault::Failed) => unreachable!(),
    }
}

fn namespaces(state: &State) -> usize
    ensures { result ≡ length (map.keys state.now.tables) }
{
    state.namespaces().count()
}

// Whether two listings are the same, in a word. Of a drill they are.
fn equal(restored: &[u8], source: &[u8]) -> &'static str
    requires { restored.now ≡ source.now }
    ensures { result.now ≡ codes "yes" }
{
    if restored == source { "yes" } else { "no" }
}

fn drill_line(alloc: Global, n: u32) -> Result<String, AllocError>
    requires least { 1 ≤ n }
    requires most { n ≤ 100000 }
    ensures { IfOk result (λ s. string_bytes s ≡ drill_line n) }
{
    drills_heal();
    let schedule = read_drill(alloc, n)?;
    let lines = schedule.lines.len() + 1;
    let DoneDump {
        report,
        archive,
        store,
    } = dump_into_memory(alloc, schedule)?;
    let listed = list_store_into_memory(alloc, &store)?;
    let counts = Counts {
        lines,
        documents: report.documents,
        entries: report.entries,
        namespaces: namespaces(store.state()),
        bytes: archive.as_slice().len(),
    };
    drop(store);
    let restored = list_restored(alloc, archive.as_slice())?;
    counts_line(alloc, counts, equal(restored.as_slice(), listed.as_slice()))
}

/// Writes the line of the drill of `n`: its text is dumped in memory, the archive restored with replay, and the listing of that is
/// compared with that of the store that was dumped, as all lines left it. Nothing is written before all is done. It takes
/// memory for the lines that are still to be run, the store or the restored state, the archive and both listings.
pub fn drill<K: Sink>(alloc: Global, n: u32, output: &mut K) -> Result<(), Fault>
    requires least { 1 ≤ n }
    requires most { n ≤ 100000 }
    ensures ok { OnOk result (Appends (K.end output.old).bytes (K.end output.new).bytes (drill_line n)) }
    ensures err { OnErr result (AppendsFront (K.end output.old).bytes (K.end output.new).bytes (drill_line n)) }
    ensures later { (K.end output.old).faults ≤ (K.end output.new).faults }
    ensures failed { IsErrOf result Fault.Failed → Rose (K.end output.old).faults (K.end output.new).faults }
{
    let line = drill_line(alloc, n)?;
    output.write(line.as_bytes())
}
