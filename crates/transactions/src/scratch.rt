//! Collections on which a transaction is tried.
ghost use Rattle.std.specs.Prelude.{◌≡◌, [], IfOk, OnOk};
ghost use Rattle.std.specs.Option.{option_copied};
ghost use Rattle.bson_view.specs.Held.{held_document};
ghost use Rattle.state_model.specs.States.{no_options};
ghost use Rattle.bson_encode.specs.Key.{key_of};
ghost use Rattle.coll_state.specs.Changes.{describe, document_at, put};
ghost use Rattle.coll_state.specs.Kept.{look, look_of};
ghost use Rattle.command_refusals.specs.Keyed.{AreKeyed};
ghost use Rattle.transaction_indexes.specs.Shown.{id_in};
ghost use Rattle.transactions.specs.Shown.{ShowAll};
ghost use Rattle.transactions.specs.Scratch.{HaveNoIndexes, IsPart, IsShown, MayAdd, with_collection};

use crate::step::namespace_of;
use bson_check::faultless_if_spelled;
use bson_value::{NsName, Value};
use bson_view::{DocumentBytes, Held};
use coll_state::{COUNT_LIMIT, State};
use containers::List as JList;
use json_tree::{Fields, Tree};
use schedule_model::DocumentCommand;
use std::alloc::{AllocError, Global};

// A collection without options and definitions, which was missing.
fn create(alloc: Global, part: &mut State, ns: &NsName) -> Result<(), AllocError>
    ensures { OnOk result (part.new ≡ describe ns.now no_options [] part.old) }
{
    if part.count() >= COUNT_LIMIT {
        return Err(AllocError);
    }
    let options = Tree::Object(Fields::new(alloc));
    part.describe(alloc, ns, options, JList::new(alloc))
}

// The same where the collection isn't there.
fn have_collection(alloc: Global, part: &mut State, ns: &NsName) -> Result<(), AllocError>
    ensures { OnOk result (part.new ≡ with_collection ns.now part.old) }
{
    if part.has(ns) {
        return Ok(());
    }
    create(alloc, part, ns)
}

// A copy of a document that stands, without building it where it is kept as its spelling. Each one has an `_id`.
fn put_copy(alloc: Global, part: &mut State, ns: &NsName, held: Held<'_>) -> Result<(), AllocError>
    requires { look_of held ≡ look (held_document held) }
    ensures { OnOk result (part.new ≡ put ns.now (held_document held.entry) part.old) }
{
    if held.field("_id").is_none() || part.count() >= COUNT_LIMIT {
        return Err(AllocError);
    }
    match held {
        Held::Spelled(view) => {
            faultless_if_spelled();
            let bytes = DocumentBytes::of(alloc, view.bytes())?;
            part.put_bytes(alloc, ns, bytes)
        }
        Held::Built(doc) => part.put(alloc, ns, doc.copy(alloc)?),
    }
}

// The `_id` that a command names.
fn id_in(command: &DocumentCommand) -> Option<&Value>
    ensures { option_copied result ≡ id_in command.now }
{
    match command {
        DocumentCommand::Insert { doc, .. } => doc.get("_id"),
        DocumentCommand::Replace { doc, .. } => doc.get("_id"),
        DocumentCommand::Update { id, .. } => Some(id),
        DocumentCommand::Delete { id, .. } => Some(id),
    }
}

// The document of an `_id`, if there is one.
fn add_document(
    alloc: Global,
    state: &State,
    part: &mut State,
    ns: &NsName,
    id: &Value,
) -> Result<(), AllocError>
    ensures { OnOk result (MayAdd ns.now (document_at ns.now (key_of id.now) state.now.tables) part.old part.new) }
{
    match state.get(ns, id) {
        Some(held) => put_copy(alloc, part, ns, held),
        None => Ok(()),
    }
}

// Adds what a command looks at.
fn show(
    alloc: Global,
    state: &State,
    part: &mut State,
    command: &DocumentCommand,
) -> Result<(), AllocError>
    requires keyed { AreKeyed state.now }
    requires part { IsPart part.old state.now }
    ensures { OnOk result (IsShown command.now part.old part.new state.now) }
{
    let ns = namespace_of(command);
    if !state.has(ns) {
        return Ok(());
    }
    have_collection(alloc, part, ns)?;
    match id_in(command) {
        Some(id) => add_document(alloc, state, part, ns, id),
        None => Ok(()),
    }
}

/// What the commands look at: the documents that they name, in collections without options and definitions.
pub(crate) fn touched(
    alloc: Global,
    state: &State,
    commands: &[DocumentCommand],
) -> Result<State, AllocError>
    requires { AreKeyed state.now }
    ensures shows { IfOk result (λ part. ShowAll commands.now part state.now) }
    ensures plain { IfOk result (λ part. HaveNoIndexes part) }
    ensures keyed { IfOk result (λ part. AreKeyed part) }
{
    let mut part = State::new(alloc);
    for command in commands {
        show(alloc, state, &mut part, command)?;
    }
    Ok(part)
}
