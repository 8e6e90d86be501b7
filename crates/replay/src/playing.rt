//! Entries, replayed.
ghost use Rattle.std.specs.Prelude.{◌≡◌, ◌+◌, ◌<◌, ◌≤◌, ◌^◌, OnOk, OnErr, IfErr, map};
ghost use Rattle.state_model.specs.Replay.{replay_all};
ghost use Rattle.coll_state.specs.Rows.{state_of};
ghost use Rattle.entry_model.specs.Edits.{gathered};
ghost use Rattle.replay.specs.Moves.{steps_of, moves_of, item_count, total};
ghost use Rattle.replay.specs.Refusals.{first_refused, Answers};
ghost use Rattle.replay.specs.Steps.{Made, Stopped, Leaves};

use crate::actions::play_action;
use crate::fault::ReplayFault;
use crate::indexes::add_indexes;
use crate::refusals::{check, is_config};
use coll_state::State;
use entry_model::{Action, Entry};
use std::alloc::{AllocError, Global};

/// Makes the steps of an entry, but for what isn't replayed.
#[cycle(playing)]
fn play(alloc: Global, state: &mut State, entry: &Entry) -> Result<(), AllocError>
    requires { state.old.count + item_count entry.now < 2 ^ 127 }
    ensures ok { OnOk result (Made (steps_of entry.now) state.old state.new) }
    ensures err { OnErr result (Stopped (steps_of entry.now) state.old state.new) }
    ensures count { state.new.count ≤ state.old.count + item_count entry.now }
{
    if is_config(&entry.ns) {
        return Ok(());
    }
    match &entry.action {
        Action::Group { entries } => play_all(alloc, state, entries.as_slice()),
        Action::AddIndexes { defs } => add_indexes(alloc, state, &entry.ns, defs.as_slice()),
        _ => play_action(alloc, state, &entry.ns, &entry.action),
    }
}

#[cycle(playing)]
fn play_all(alloc: Global, state: &mut State, entries: &[Entry]) -> Result<(), AllocError>
    requires { state.old.count + total (map item_count entries.now) < 2 ^ 127 }
    ensures ok { OnOk result (Made (gathered steps_of entries.now) state.old state.new) }
    ensures err { OnErr result (Stopped (gathered steps_of entries.now) state.old state.new) }
    ensures count { state.new.count ≤ state.old.count + total (map item_count entries.now) }
{
    for entry in entries {
        play(alloc, state, entry)?;
    }
    Ok(())
}

/// Replays an entry, also a group's items. A rename or an unknown command refuses it before anything
/// is done. An entry of the database `config` does nothing and is never refused. Where memory runs out
/// within a group or several definitions, those before the refused one are in place.
///
/// A delta that sets one field copies the bytes of its document, where that is kept as its spelling. One
/// whose touches all lie within a field that is there, and don't take it out, decodes and encodes that field
/// alone. Any other one decodes and encodes its document once. A put copies its document.
pub fn replay(alloc: Global, state: &mut State, entry: &Entry) -> Result<(), ReplayFault>
    requires { state.old.count + item_count entry.now < 2 ^ 127 }
    ensures answer { Answers result (first_refused entry.now) }
    ensures moves { OnOk result (state_of state.new ≡ replay_all (moves_of entry.now) (state_of state.old)) }
    ensures steps { OnOk result (Made (steps_of entry.now) state.old state.new) }
    ensures err { IfErr result (λ e. Leaves e (steps_of entry.now) state.old state.new) }
    ensures count { state.new.count ≤ state.old.count + item_count entry.now }
{
    check(alloc, entry)?;
    play(alloc, state, entry)?;
    Ok(())
}
