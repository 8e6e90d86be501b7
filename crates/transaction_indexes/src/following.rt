//! Indexes that follow the changes of a transaction.
ghost use Rattle.std.specs.Prelude.{◌≡◌, [], ◌∷◌, List, OnOk, IfOk, false};
ghost use Rattle.bson_value.specs.declared.namespace.NsName.{NsName as Name};
ghost use Rattle.state_model.specs.Keys.{same_ns};
ghost use Rattle.coll_state.specs.ChangeAll.{HasId, change_one};
ghost use Rattle.coll_state.specs.Rows.{Rows, AreSound};
ghost use Rattle.history_model.specs.Indexes.{IndexesHold};
ghost use Rattle.kept_indexes.specs.Kept.{kept_at, AreKept, HasIndexes};
ghost use Rattle.command_refusals.specs.Keyed.{AreKeyed};
ghost use Rattle.history_model.specs.Refusals.{namespace_of};
ghost use Rattle.transaction_indexes.specs.Following.{StayKept, HaveIndexes, OthersStay, AreForgotten, Passes, tested_by};

use bson_value::NsName;
use coll_state::{Change, State};
use kept_indexes::KeptIndexes;
use schedule_model::{DocumentCommand, Refused};
use std::alloc::{AllocError, Global};

// The namespace of a command.
fn namespace_of(command: &DocumentCommand) -> &NsName
    ensures { result.now ≡ namespace_of command.now }
{
    match command {
        DocumentCommand::Insert { ns, .. } => ns,
        DocumentCommand::Replace { ns, .. } => ns,
        DocumentCommand::Update { ns, .. } => ns,
        DocumentCommand::Delete { ns, .. } => ns,
    }
}

/// Has the indexes of all collections that the commands name, built where they aren't kept yet.
pub fn keep_all(
    alloc: Global,
    state: &State,
    indexes: &mut KeptIndexes,
    commands: &[DocumentCommand],
) -> Result<(), AllocError>
    requires keyed { AreKeyed state.now }
    requires hold { IndexesHold state.now }
    requires kept { AreKept indexes.old state.now }
    ensures kept { AreKept indexes.new state.now }
    ensures taken { OnOk result (HaveIndexes commands.now indexes.new state.now) }
    ensures others { OthersStay commands.now indexes.old indexes.new }
{
    for command in commands {
        indexes.keep(alloc, state, namespace_of(command))?;
    }
    Ok(())
}

// Why the indexes refuse a change.
fn refusal(
    alloc: Global,
    indexes: &KeptIndexes,
    change: &Change,
) -> Result<Option<Refused>, AllocError>
    ensures { (r : Rows) → AreKept indexes.now r → HasIndexes indexes.now change.now.ns r → IfOk result (λ o. o ≡ tested_by change.now r) }
{
    match &change.doc {
        Some(doc) => indexes.kept_refusal(alloc, &change.ns, &change.id, doc),
        None => Ok(None),
    }
}

// Follows a change.
fn follow(alloc: Global, indexes: &mut KeptIndexes, change: &Change) -> Result<(), AllocError>
    requires { HasId change.now.id change.now.doc }
    ensures kept { (r : Rows) → AreKept indexes.old r → AreSound r → IndexesHold (change_one change.now r) → AreKept indexes.new (change_one change.now r) }
    ensures stay { OnOk result (StayKept indexes.old indexes.new) }
    ensures others { (n : Name) → same_ns change.now.ns n ≡ false → kept_at indexes.new n ≡ kept_at indexes.old n }
{
    match &change.doc {
        Some(doc) => indexes.put(alloc, &change.ns, doc),
        None => indexes.remove(alloc, &change.ns, &change.id),
    }
}

/// Why the indexes refuse a change; where they don't, they follow it. It takes a search for each index of the collection and
/// each key of the document.
pub fn pass(
    alloc: Global,
    indexes: &mut KeptIndexes,
    change: &Change,
) -> Result<Option<Refused>, AllocError>
    requires { HasId change.now.id change.now.doc }
    ensures passes { IfOk result (λ o. Passes change.now indexes.old o indexes.new) }
    ensures others { (n : Name) → same_ns change.now.ns n ≡ false → kept_at indexes.new n ≡ kept_at indexes.old n }
{
    match refusal(alloc, indexes, change)? {
        Some(refused) => Ok(Some(refused)),
        None => {
            follow(alloc, indexes, change)?;
            Ok(None)
        }
    }
}

/// Lets go of the indexes of all collections that the commands name. The others stay as they are.
pub fn forget_all(indexes: &mut KeptIndexes, commands: &[DocumentCommand])
    ensures forgotten { AreForgotten commands.now indexes.old indexes.new }
    ensures others { OthersStay commands.now indexes.old indexes.new }
{
    for command in commands {
        indexes.forget(namespace_of(command));
    }
}
