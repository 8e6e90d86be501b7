//! The bytes of the entries that are next.
ghost use Rattle.std.specs.Prelude.{◌≡◌, IfOk};
ghost use Rattle.bson_value.specs.Spelling.{document_text};
ghost use Rattle.entry_model.specs.Spelling.{entry_fields};
ghost use Rattle.history_model.specs.Entries.{entry_with, database};
ghost use Rattle.store_core.specs.Spellings.{IsSpellingOf};

use bson_value::{Bytes, Doc, NsName, Text, Ts, Value};
use bson_view::DocumentBytes;
use entry_model::{Action, Entry};
use entry_writer::{write, write_put, write_update};
use std::alloc::{AllocError, Global};

/// The bytes of an entry.
pub(crate) fn spelled(
    alloc: Global,
    ts: Ts,
    ns: NsName,
    action: Action,
) -> Result<Bytes, AllocError>
    ensures { IfOk result (λ bytes. bytes ≡ document_text (entry_fields (entry_with ts ns action))) }
{
    let entry = Entry { ts, ns, action };
    let bytes = write(alloc, &entry);
    drop(entry);
    bytes
}

/// The bytes of an entry that puts a document, which is given with its spelling.
pub(crate) fn spelled_put(
    alloc: Global,
    ts: Ts,
    ns: &NsName,
    doc: &Doc,
    spelling: &DocumentBytes,
) -> Result<Bytes, AllocError>
    requires { IsSpellingOf spelling.now doc.now }
    ensures { IfOk result (λ bytes. bytes ≡ document_text (entry_fields (entry_with ts ns.now (Action.Put doc.now)))) }
{
    write_put(alloc, ts, ns, spelling.as_slice())
}

/// The same of one that puts it whole in the place of the one with its `_id`.
pub(crate) fn spelled_whole(
    alloc: Global,
    ts: Ts,
    ns: &NsName,
    id: &Value,
    doc: &Doc,
    spelling: &DocumentBytes,
) -> Result<Bytes, AllocError>
    requires { IsSpellingOf spelling.now doc.now }
    ensures { IfOk result (λ bytes. bytes ≡ document_text (entry_fields (entry_with ts ns.now (Action.Whole id.now doc.now)))) }
{
    write_update(alloc, ts, ns, id, spelling.as_slice())
}

/// The bytes of an entry of a collection.
pub(crate) fn spelled_of(
    alloc: Global,
    ts: Ts,
    ns: &NsName,
    action: Action,
) -> Result<Bytes, AllocError>
    ensures { IfOk result (λ bytes. bytes ≡ document_text (entry_fields (entry_with ts ns.now action))) }
{
    match ns.copy(alloc) {
        Ok(ns) => spelled(alloc, ts, ns, action),
        Err(e) => {
            drop(action);
            Err(e)
        }
    }
}

/// The bytes of an entry of a database.
pub(crate) fn spelled_of_database(
    alloc: Global,
    ts: Ts,
    db: &str,
    action: Action,
) -> Result<Bytes, AllocError>
    ensures { IfOk result (λ bytes. bytes ≡ document_text (entry_fields (entry_with ts (database db.now) action))) }
{
    match Text::of(alloc, db) {
        Ok(db) => {
            let coll = Text::new(alloc);
            spelled(alloc, ts, NsName { db, coll }, action)
        }
        Err(e) => {
            drop(action);
            Err(e)
        }
    }
}
