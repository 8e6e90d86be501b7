//! Which entries aren't replayed.
ghost use Rattle.std.specs.Prelude.{◌≡◌, map};
ghost use Rattle.replay.specs.declared.fault.ReplayFault.TheVariants.{NoMemory, OtherCommand};
ghost use Rattle.replay.specs.Moves.{is_config};
ghost use Rattle.replay.specs.Refusals.{first, first_refused, Answers, IsFault};

use crate::fault::ReplayFault;
use bson_value::{NsName, Text, Ts};
use entry_model::{Action, Entry};
use std::alloc::Global;

/// Whether the database is `config`, whose entries do nothing.
pub fn is_config(ns: &NsName) -> bool
    ensures { result ≡ is_config ns.now }
{
    ns.db.as_str() == "config"
}

fn other_command(alloc: Global, ts: Ts, name: &Text) -> ReplayFault
    ensures { IsFault result (OtherCommand ts name.now) }
{
    match name.copy(alloc) {
        Ok(name) => ReplayFault::OtherCommand { ts, name },
        Err(_) => ReplayFault::NoMemory,
    }
}

/// Looks for the first action that isn't replayed.
#[cycle(refusals)]
pub(crate) fn check(alloc: Global, entry: &Entry) -> Result<(), ReplayFault>
    ensures { Answers result (first_refused entry.now) }
{
    if is_config(&entry.ns) {
        return Ok(());
    }
    match &entry.action {
        Action::Rename { .. } => Err(ReplayFault::Rename { ts: entry.ts }),
        Action::Other { name } => Err(other_command(alloc, entry.ts, name)),
        Action::Group { entries } => check_all(alloc, entries.as_slice()),
        _ => Ok(()),
    }
}

#[cycle(refusals)]
fn check_all(alloc: Global, entries: &[Entry]) -> Result<(), ReplayFault>
    ensures { Answers result (first (map first_refused entries.now)) }
{
    for entry in entries {
        check(alloc, entry)?;
    }
    Ok(())
}
