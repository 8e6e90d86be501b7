//! Definitions that an entry adds.
ghost use Rattle.std.specs.Prelude.{◌≡◌, OnOk, OnErr, Some, map};
ghost use Rattle.state_model.specs.Replay.{replay_all};
ghost use Rattle.coll_state.specs.Rows.{state_of};
ghost use Rattle.replay.specs.Moves.{definition_moves, normal_of};
ghost use Rattle.replay.specs.Steps.{Made, Stopped};

use crate::actions::document_tree;
use bson_value::{Doc, NsName};
use coll_state::{State, name_of};
use index_keys::normal;
use json_tree::Tree;
use std::alloc::{AllocError, Global};

/// A definition in normal form, but not that of the `_id`.
fn add_normal(state: &mut State, ns: &NsName, def: Tree) -> Result<(), AllocError>
    ensures ok { OnOk result (state_of state.new ≡ replay_all (definition_moves ns.now (Some def)) (state_of state.old)) }
    ensures err { OnErr result (state.new ≡ state.old) }
    ensures count { state.new.count ≡ state.old.count }
{
    if name_of(&def) == "_id_" {
        return Ok(());
    }
    state.add_index(ns, def)
}

/// The normal form of a definition.
fn add_index(alloc: Global, state: &mut State, ns: &NsName, def: &Doc) -> Result<(), AllocError>
    ensures ok { OnOk result (state_of state.new ≡ replay_all (definition_moves ns.now (normal_of def.now)) (state_of state.old)) }
    ensures err { OnErr result (state.new ≡ state.old) }
    ensures count { state.new.count ≡ state.old.count }
{
    let tree = document_tree(alloc, def)?;
    match normal(alloc, &tree)? {
        Some(def) => add_normal(state, ns, def),
        None => Ok(()),
    }
}

/// The definitions, one after the other.
pub(crate) fn add_indexes(
    alloc: Global,
    state: &mut State,
    ns: &NsName,
    defs: &[Doc],
) -> Result<(), AllocError>
    ensures ok { OnOk result (Made (map (λ d. definition_moves ns.now (normal_of d)) defs.now) state.old state.new) }
    ensures err { OnErr result (Stopped (map (λ d. definition_moves ns.now (normal_of d)) defs.now) state.old state.new) }
    ensures count { state.new.count ≡ state.old.count }
{
    for def in defs {
        add_index(alloc, state, ns, def)?;
    }
    Ok(())
}
