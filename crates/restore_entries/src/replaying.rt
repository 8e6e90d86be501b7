//! The entries of an oplog, replayed one after the other.
ghost use Rattle.std.specs.Prelude.{◌≡◌, OnOk, OnErr, IfErr, map, true};
ghost use Rattle.state_model.specs.Replay.{replay_all};
ghost use Rattle.coll_state.specs.Rows.{state_of};
ghost use Rattle.replay.specs.Refusals.{first, first_refused, Answers};
ghost use Rattle.replay.specs.Moves.{steps_of, moves_of};
ghost use Rattle.replay.specs.Steps.{Leaves};
ghost use Rattle.entry_model.specs.Edits.{gathered};
ghost use Rattle.entry_model.specs.declared.entry.Action.{out-Action};
ghost use Rattle.restore_entries.specs.Documents.{is_of_document};

use coll_state::{COUNT_LIMIT, State};
use entry_model::{Action, Entry};
use replay::{ReplayFault, is_config, item_count, play_action, replay};
use std::alloc::{AllocError, Global};

// Replays an entry, where the count of the collections allows it.
fn replay_one(alloc: Global, state: &mut State, entry: &Entry) -> Result<(), ReplayFault>
    ensures answer { Answers result (first_refused entry.now) }
    ensures moves { OnOk result (state_of state.new ≡ replay_all (moves_of entry.now) (state_of state.old)) }
    ensures err { IfErr result (λ e. Leaves e (steps_of entry.now) state.old state.new) }
{
    let count = state.count();
    if count >= COUNT_LIMIT || item_count(entry) >= COUNT_LIMIT - count {
        return Err(ReplayFault::NoMemory);
    }
    replay(alloc, state, entry)
}

/// Whether the action changes one document of its collection.
pub fn changes_document(action: &Action) -> bool
    ensures { result ≡ is_of_document (out-Action action.now) }
{
    matches!(
        action,
        Action::Put { .. } | Action::Remove { .. } | Action::Whole { .. } | Action::Delta { .. }
    )
}

/// Replays an entry that changes one document. Where there is no memory, nothing has changed.
pub fn replay_document(alloc: Global, state: &mut State, entry: &Entry) -> Result<(), AllocError>
    requires { is_of_document (out-Action entry.now.action) ≡ true }
    ensures ok { OnOk result (state_of state.new ≡ replay_all (moves_of entry.now) (state_of state.old)) }
    ensures err { OnErr result (state.new ≡ state.old) }
{
    if is_config(&entry.ns) {
        return Ok(());
    }
    if state.count() >= COUNT_LIMIT {
        return Err(AllocError);
    }
    play_action(alloc, state, &entry.ns, &entry.action)
}

/// Replays entries in their order, up to the first that is refused. The collections are spent where it fails.
pub fn replay_entries(
    alloc: Global,
    state: &mut State,
    entries: &[Entry],
) -> Result<(), ReplayFault>
    ensures answer { Answers result (first (map first_refused entries.now)) }
    ensures moves { OnOk result (state_of state.new ≡ replay_all (gathered moves_of entries.now) (state_of state.old)) }
{
    for entry in entries {
        replay_one(alloc, state, entry)?;
    }
    Ok(())
}
