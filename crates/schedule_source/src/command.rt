//! A command, as far as its entries are before a limit.
ghost use Rattle.std.specs.Prelude.{◌≡◌, ◌<◌, OnOk, IfErr};
ghost use Rattle.history_model.specs.Stages.{Stage};
ghost use Rattle.history_model.specs.Histories.{is_before};
ghost use Rattle.store_core.specs.Stores.{StandsAt};
ghost use Rattle.schedule_source.specs.Commands.{RunsBefore, CreatesAlone, second};

use bson_value::Ts;
use schedule_model::{Command, DocumentCommand};
use store_core::{Store, StoreFault};

// The store records no more entries than this.
const MOST_ENTRIES: u64 = 4_000_000_000;

fn is_before(limit: Option<Ts>, ts: Ts) -> bool
    ensures { result ≡ is_before limit ts }
{
    match limit {
        None => true,
        Some(limit) => ts.secs < limit.secs || (ts.secs == limit.secs && ts.inc < limit.inc),
    }
}

// Whether the moment behind this one is before the limit.
fn next_is_before(limit: Option<Ts>, first: Ts) -> bool
    ensures { result ≡ is_before limit (second first) }
{
    match limit {
        None => true,
        Some(limit) => {
            first.secs < limit.secs
                || (first.secs == limit.secs && first.inc < limit.inc && limit.inc - first.inc > 1)
        }
    }
}

// The creation alone, of an insert that makes its collection. No other command records two entries.
fn create_alone(store: &mut Store, cmd: &Command) -> Result<(), StoreFault>
    requires few { store.old.log.recorded < 4000000000 }
    ensures ok { OnOk result (CreatesAlone cmd.now store.old store.new) }
    ensures err { IfErr result (λ f. f ≡ StoreFault.NoMemory) }
{
    let state = store.state();
    state.is_sound();
    match cmd {
        Command::Document(change) => match change {
            DocumentCommand::Insert { ns, .. } if !state.has(ns) => Ok(store.make_collection(ns)?),
            _ => Err(StoreFault::NoMemory),
        },
        _ => Err(StoreFault::NoMemory),
    }
}

/// Applies a command as far as its entries are before the limit: whole, or not at all, or of an insert that makes its collection
/// the creation alone. Answers whether all of its entries are before the limit.
pub fn run_before(store: &mut Store, cmd: &Command, limit: Option<Ts>) -> Result<bool, StoreFault>
    ensures { (st : Stage) → StandsAt store.old st → RunsBefore limit cmd.now st store.old result store.new }
{
    if store.recorded() >= MOST_ENTRIES {
        return Err(StoreFault::NoMemory);
    }
    let state = store.state();
    state.is_sound();
    let first = store.next_ts();
    if next_is_before(limit, first) {
        store.apply(cmd)?;
        return Ok(true);
    }
    let count = store.check(cmd)?;
    if count == 0 {
        store.apply(cmd)?;
        return Ok(true);
    }
    if !is_before(limit, first) {
        return Ok(false);
    }
    if count == 1 {
        store.apply(cmd)?;
        return Ok(true);
    }
    create_alone(store, cmd)?;
    Ok(false)
}
