//! What is done at once: the actions of entries but for groups and definitions.
ghost use Rattle.std.specs.Prelude.{◌≡◌, ◌+◌, ◌<◌, ◌≤◌, ◌^◌, OnOk, OnErr, IfOk};
ghost use Rattle.bson_value.specs.declared.value.Value.{Object};
ghost use Rattle.bson_encode.specs.Key.{key_of};
ghost use Rattle.extjson.specs.Trees.{tree_of};
ghost use Rattle.state_model.specs.Replay.{replay, replay_all};
ghost use Rattle.state_model.specs.Moves as moves;
ghost use Rattle.coll_state.specs.Rows.{id_of, state_of};
ghost use Rattle.entry_model.specs.declared.entry.Action.{out-Action};
ghost use Rattle.replay.specs.Moves.{put_moves, with_id, deltas, options_of, moves_at};

use crate::splicing::spliced_own;
use bson_value::{Doc, List, NsName, Value};
use coll_state::State;
use delta_apply::play;
use doc_path::{Form, Touch};
use entry_model::Action;
use extjson::tree_of;
use json_tree::Tree;
use std::alloc::{AllocError, Global};

fn put(alloc: Global, state: &mut State, ns: &NsName, doc: &Doc) -> Result<(), AllocError>
    requires { state.old.count < 2 ^ 127 }
    ensures ok { OnOk result (state_of state.new ≡ replay_all (put_moves ns.now doc.now (id_of doc.now)) (state_of state.old)) }
    ensures err { OnErr result (state.new ≡ state.old) }
    ensures count { state.new.count ≤ state.old.count + 1 }
{
    if doc.get("_id").is_none() {
        return Ok(());
    }
    let doc = doc.copy(alloc)?;
    state.put(alloc, ns, doc)
}

fn remove(state: &mut State, ns: &NsName, id: &Value)
    ensures state { state_of state.new ≡ replay (moves.Remove ns.now (key_of id.now)) (state_of state.old) }
    ensures count { state.new.count ≡ state.old.count }
{
    state.is_sound();
    let _ = state.remove(ns, id);
}

/// The document with this `_id`, in the place of its own, or last.
fn with_id(alloc: Global, id: &Value, doc: &Doc) -> Result<Doc, AllocError>
    ensures { IfOk result (λ d. d ≡ with_id id.now doc.now) }
{
    let mut doc = doc.copy(alloc)?;
    let id = id.copy(alloc)?;
    doc.set_by_name(alloc, "_id", id)?;
    Ok(doc)
}

fn put_whole(
    alloc: Global,
    state: &mut State,
    ns: &NsName,
    id: &Value,
    doc: &Doc,
) -> Result<(), AllocError>
    requires { state.old.count < 2 ^ 127 }
    ensures ok { OnOk result (state_of state.new ≡ replay (moves.Whole ns.now (key_of id.now) (Object (with_id id.now doc.now))) (state_of state.old)) }
    ensures err { OnErr result (state.new ≡ state.old) }
    ensures count { state.new.count ≤ state.old.count + 1 }
{
    if state.get(ns, id).is_none() {
        return Ok(());
    }
    let doc = with_id(alloc, id, doc)?;
    state.put(alloc, ns, doc)
}

fn play_built(
    alloc: Global,
    state: &mut State,
    ns: &NsName,
    id: &Value,
    form: Form,
    touches: &List<Touch>,
) -> Result<(), AllocError>
    requires { state.old.count < 2 ^ 127 }
    ensures ok { OnOk result (state_of state.new ≡ replay_all (deltas ns.now (key_of id.now) form touches.now) (state_of state.old)) }
    ensures err { OnErr result (state.new ≡ state.old) }
    ensures count { state.new.count ≤ state.old.count + 1 }
{
    let Some(mut doc) = state.copy_of(alloc, ns, id)? else {
        return Ok(());
    };
    play(&mut doc, touches, form)?;
    state.put(alloc, ns, doc)
}

fn play_touches(
    alloc: Global,
    state: &mut State,
    ns: &NsName,
    id: &Value,
    form: Form,
    touches: &List<Touch>,
) -> Result<(), AllocError>
    requires { state.old.count < 2 ^ 127 }
    ensures ok { OnOk result (state_of state.new ≡ replay_all (deltas ns.now (key_of id.now) form touches.now) (state_of state.old)) }
    ensures err { OnErr result (state.new ≡ state.old) }
    ensures count { state.new.count ≤ state.old.count + 1 }
{
    match spliced_own(alloc, state, ns, id, form, touches)? {
        Some((number, bytes)) => {
            state.replace_spelling(ns, number, bytes);
            Ok(())
        }
        None => play_built(alloc, state, ns, id, form, touches),
    }
}

/// The document as a tree of JSON.
pub(crate) fn document_tree(alloc: Global, doc: &Doc) -> Result<Tree, AllocError>
    ensures { IfOk result (λ t. t ≡ tree_of (Object doc.now)) }
{
    let value = Value::Object(doc.copy(alloc)?);
    tree_of(alloc, &value)
}

fn create(alloc: Global, state: &mut State, ns: &NsName, options: &Doc) -> Result<(), AllocError>
    requires { state.old.count < 2 ^ 127 }
    ensures ok { OnOk result (state_of state.new ≡ replay (moves.Create ns.now (options_of options.now)) (state_of state.old)) }
    ensures err { OnErr result (state.new ≡ state.old) }
    ensures count { state.new.count ≤ state.old.count + 1 }
{
    let options = document_tree(alloc, options)?;
    state.create(alloc, ns, options)
}

fn drop_collection(state: &mut State, ns: &NsName)
    ensures state { state_of state.new ≡ replay (moves.DropColl ns.now) (state_of state.old) }
    ensures count { state.new.count ≡ state.old.count }
{
    let _ = state.drop_ns(ns);
}

fn drop_database(state: &mut State, db: &str)
    ensures state { state_of state.new ≡ replay (moves.DropDb db.now) (state_of state.old) }
    ensures count { state.new.count ≡ state.old.count }
{
    let _ = state.drop_db(db);
}

fn drop_index(state: &mut State, ns: &NsName, name: &str)
    ensures state { state_of state.new ≡ replay (moves.DropIndex ns.now name.now) (state_of state.old) }
    ensures count { state.new.count ≡ state.old.count }
{
    let _ = state.drop_index(ns, name);
}

/// Plays an action that is no group, has no definitions and isn't refused. Any other does nothing. Where memory runs out
/// nothing has changed.
pub fn play_action(
    alloc: Global,
    state: &mut State,
    ns: &NsName,
    action: &Action,
) -> Result<(), AllocError>
    requires { state.old.count < 2 ^ 127 }
    ensures ok { OnOk result (state_of state.new ≡ replay_all (moves_at ns.now (out-Action action.now)) (state_of state.old)) }
    ensures err { OnErr result (state.new ≡ state.old) }
    ensures count { state.new.count ≤ state.old.count + 1 }
{
    match action {
        Action::Put { doc } => put(alloc, state, ns, doc),
        Action::Remove { id } => {
            remove(state, ns, id);
            Ok(())
        }
        Action::Whole { id, doc } => put_whole(alloc, state, ns, id, doc),
        Action::Delta { id, form, touches } => play_touches(alloc, state, ns, id, *form, touches),
        Action::Create { options } => create(alloc, state, ns, options),
        Action::DropColl => {
            drop_collection(state, ns);
            Ok(())
        }
        Action::DropDb => {
            drop_database(state, ns.db.as_str());
            Ok(())
        }
        Action::DropIndex { name } => {
            drop_index(state, ns, name.as_str());
            Ok(())
        }
        Action::Nothing
        | Action::AddIndexes { .. }
        | Action::Rename { .. }
        | Action::Group { .. }
        | Action::Other { .. } => Ok(()),
    }
}
