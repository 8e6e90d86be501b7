//! What a transaction makes.
ghost use Rattle.std.specs.Prelude.{◌≡◌, ◌≤◌, ◌∷◌, List as Items, length, IfOk, OnOk, false};
ghost use Rattle.bson_value.specs.declared.namespace.NsName.{NsName as Name};
ghost use Rattle.schedule_model.specs.declared.command.DocumentCommand.{DocumentCommand as Named};
ghost use Rattle.state_model.specs.Keys.{same_ns};
ghost use Rattle.coll_state.specs.ChangeAll.{AreThere, HaveIds};
ghost use Rattle.coll_state.specs.Rows.{Rows};
ghost use Rattle.history_model.specs.Commands.{changes_together};
ghost use Rattle.history_model.specs.Entries.{entry_with};
ghost use Rattle.history_model.specs.Indexes.{IndexesHold};
ghost use Rattle.history_model.specs.Refusals.{namespace_of};
ghost use Rattle.command_refusals.specs.Keyed.{AreKeyed};
ghost use Rattle.kept_indexes.specs.Kept.{kept_at, AreKept};
ghost use Rattle.transaction_indexes.specs.Following.{HaveIndexes, OthersStay, StayKept};
ghost use Rattle.transactions.specs.Running.{Stands, NamesItsId, IsElsewhere, IsTested, Proceeds, Runs, settled};
ghost use Rattle.transactions.specs.Steps.{IsAppended};
ghost use Rattle.transactions.specs.Transactions.{Answers, AreGood, AreKeptBehind};

use crate::change_record::ChangeRecord;
use crate::scratch::touched;
use crate::step::{Answer, step};
use bson_value::{List, Ts};
use coll_state::{Change, State};
use doc_path::Form;
use entry_model::Entry;
use kept_indexes::KeptIndexes;
use schedule_model::{DocumentCommand, Refused};
use std::alloc::{AllocError, Global};
use transaction_indexes::{forget_all, keep_all, pass, take_back};

/// The changes of a transaction, and the entries that record them, both in the order of its commands. A command that
/// changes nothing has none.
#[derive(Drop)]
pub struct Transaction {
    pub changes: List<Change>,
    pub entries: List<Entry>,
}

// Why the indexes refuse the change of an answer; where they don't, they follow it.
fn tested(
    alloc: Global,
    indexes: &mut KeptIndexes,
    answer: &Answer,
) -> Result<Option<Refused>, AllocError>
    requires { NamesItsId answer.now }
    ensures tested { IfOk result (λ o. IsTested answer.now indexes.old o indexes.new) }
    ensures others { (n : Name) → IsElsewhere answer.now n → kept_at indexes.new n ≡ kept_at indexes.old n }
{
    match answer {
        Ok(Some(recorded)) => pass(alloc, indexes, &recorded.change),
        Ok(None) => Ok(None),
        Err(_) => Ok(None),
    }
}

// An answer, unless the indexes refuse its change.
fn settled(
    answer: Answer,
    refused: Result<Option<Refused>, AllocError>,
) -> Result<Answer, AllocError>
    ensures { result ≡ settled answer refused }
{
    match refused {
        Ok(None) => Ok(answer),
        Ok(Some(refused)) => {
            drop(answer);
            Ok(Err(refused))
        }
        Err(fault) => {
            drop(answer);
            Err(fault)
        }
    }
}

// Makes a command on rows that show it its document, unless it is refused there, or by the indexes, which follow its change.
fn proceed(
    alloc: Global,
    rows: &mut State,
    indexes: &mut KeptIndexes,
    form: Form,
    command: &DocumentCommand,
) -> Result<Answer, AllocError>
    requires { AreKeyed rows.old }
    ensures proceeds { IfOk result (λ a. (cs : Items Named) (r : Rows) → Stands (command.now ∷ cs) rows.old indexes.old r → Proceeds form command.now cs a rows.new indexes.new r) }
    ensures keyed { IfOk result (λ a. IfOk a (λ o. AreKeyed rows.new)) }
    ensures stay { IfOk result (λ a. StayKept indexes.old indexes.new) }
    ensures others { (n : Name) → same_ns (namespace_of command.now) n ≡ false → kept_at indexes.new n ≡ kept_at indexes.old n }
{
    let answer = step(alloc, rows, form, command)?;
    let refused = tested(alloc, indexes, &answer);
    settled(answer, refused)
}

// The entry of a change.
fn entry_of(alloc: Global, ts: Ts, recorded: ChangeRecord) -> Result<(Change, Entry), AllocError>
    ensures change { IfOk result (λ made. made.0 ≡ recorded.change) }
    ensures entry { IfOk result (λ made. made.1 ≡ entry_with ts recorded.change.ns recorded.action) }
{
    let ChangeRecord { change, action } = recorded;
    let ns = change.ns.copy(alloc)?;
    Ok((change, Entry { ts, ns, action }))
}

// Adds a change and its entry, if there is one.
fn add(
    alloc: Global,
    ts: Ts,
    recorded: Option<ChangeRecord>,
    changes: &mut List<Change>,
    entries: &mut List<Entry>,
) -> Result<(), AllocError>
    ensures { OnOk result (IsAppended ts recorded changes.old entries.old changes.new entries.new) }
{
    match recorded {
        Some(recorded) => {
            let (change, entry) = entry_of(alloc, ts, recorded)?;
            changes.push(change)?;
            entries.push(entry)
        }
        None => Ok(()),
    }
}

// Makes the commands one after the other, up to the first that is refused; then the changes are taken back from the indexes.
fn run(
    alloc: Global,
    state: &State,
    rows: &mut State,
    indexes: &mut KeptIndexes,
    ts: Ts,
    form: Form,
    commands: &[DocumentCommand],
) -> Result<Result<Transaction, Refused>, AllocError>
    requires keyed { AreKeyed rows.old }
    requires stands { Stands commands.now rows.old indexes.old state.now }
    ensures runs { IfOk result (λ a. Runs ts form commands.now a indexes.new state.now) }
    ensures stay { IfOk result (λ a. StayKept indexes.old indexes.new) }
    ensures others { OthersStay commands.now indexes.old indexes.new }
{
    let mut changes = List::new(alloc);
    let mut entries = List::new(alloc);
    for command in commands {
        match proceed(alloc, rows, indexes, form, command)? {
            Ok(recorded) => add(alloc, ts, recorded, &mut changes, &mut entries)?,
            Err(refused) => {
                take_back(alloc, state, indexes, changes.as_slice())?;
                return Ok(Err(refused));
            }
        }
    }
    Ok(Ok(Transaction { changes, entries }))
}

// The same from the collections alone. On an error the indexes may stand behind some of the changes.
fn trial(
    alloc: Global,
    state: &State,
    indexes: &mut KeptIndexes,
    ts: Ts,
    form: Form,
    commands: &[DocumentCommand],
) -> Result<Result<Transaction, Refused>, AllocError>
    requires keyed { AreKeyed state.now }
    requires hold { IndexesHold state.now }
    requires kept { AreKept indexes.old state.now }
    ensures runs { IfOk result (λ a. Runs ts form commands.now a indexes.new state.now) }
    ensures taken { IfOk result (λ a. HaveIndexes commands.now indexes.new state.now) }
    ensures others { OthersStay commands.now indexes.old indexes.new }
{
    keep_all(alloc, state, indexes, commands)?;
    let mut rows = touched(alloc, state, commands)?;
    rows.is_sound();
    state.is_sound();
    run(alloc, state, &mut rows, indexes, ts, form, commands)
}

/// What these commands make together, each on the collections after those before it; or why the first of them that is
/// refused is refused. The collections stay as they are. `ts` is the timestamp of the entries, and `form` that in which
/// updates are recorded.
///
/// The built indexes of the collections that the commands name are kept from then on, and follow the changes; behind a
/// refusal they are those of the collections as they stand. On an error they are let go.
///
/// The time is that of the documents that the commands name, and for each index of their collections of a search for each
/// key of a document that is put; where the indexes aren't kept yet, they are built first over all documents.
pub fn changes_together(
    alloc: Global,
    state: &State,
    indexes: &mut KeptIndexes,
    ts: Ts,
    form: Form,
    commands: &[DocumentCommand],
) -> Result<Result<Transaction, Refused>, AllocError>
    requires keyed { AreKeyed state.now }
    requires hold { IndexesHold state.now }
    requires kept { AreKept indexes.old state.now }
    ensures answer { IfOk result (λ a. Answers ts a (changes_together form commands.now state.now)) }
    ensures there { IfOk result (λ a. IfOk a (λ t. AreThere t.changes state.now.tables)) }
    ensures ids { IfOk result (λ a. IfOk a (λ t. HaveIds t.changes)) }
    ensures good { IfOk result (λ a. IfOk a (λ t. AreGood t.changes state.now.tables)) }
    ensures count { IfOk result (λ a. IfOk a (λ t. length t.changes ≤ length commands.now)) }
    ensures kept { AreKeptBehind result indexes.new state.now }
    ensures taken { IfOk result (λ a. HaveIndexes commands.now indexes.new state.now) }
    ensures others { OthersStay commands.now indexes.old indexes.new }
{
    let answer = trial(alloc, state, indexes, ts, form, commands);
    if answer.is_err() {
        forget_all(indexes, commands);
    }
    answer
}
