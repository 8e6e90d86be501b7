//! What the commands of entries say.
ghost use Rattle.std.specs.Prelude.{◌≡◌, ◌||◌, [], ◌∷◌, codes, IfOk, IfErr, OnOk, Ok};
ghost use Rattle.std.specs.Str.{bytes_eq};
ghost use Rattle.containers.specs.Entries.{AreDistinct, names_of};
ghost use Rattle.entry_model.specs.Reading.{named, definition, definition_in, definitions, other, create_read, drop_read, create_indexes_read, commit_read, drop_index_read, rename_read, command, no_group};
ghost use Rattle.entry_model.specs.declared.entry.Action.TheVariants.{Nothing, DropDb};
ghost use Rattle.oplog_entry.specs.Answers.{Fails, Gives};
ghost use Rattle.oplog_entry.specs.Parts.{Begins, further};

use crate::fields::{array_field, bad, document_field, document_in, text_field, text_in};
use crate::names::{collection, database, whole_name};
use bson_value::{CText, Doc, Fields, List, NsName, Text, Value};
use entry_model::{Action, EntryFault};
use std::alloc::{AllocError, Global};

/// A document of these fields.
fn copy_fields(alloc: Global, fields: &[(CText, Value)]) -> Result<Doc, AllocError>
    requires { AreDistinct (names_of fields.now) }
    ensures { IfOk result (λ doc. doc ≡ fields.now) }
{
    let mut entries = Vec::new(alloc);
    for (name, value) in fields {
        let name = name.copy(alloc)?;
        let value = value.copy(alloc)?;
        entries.push((name, value))?;
    }
    Ok(Fields::of_distinct(entries))
}

/// The fields behind the first.
fn further(alloc: Global, o: &Doc) -> Result<Doc, AllocError>
    ensures { IfOk result (λ doc. doc ≡ further o.now) }
{
    match o.entries().split_first() {
        None => Ok(Doc::new(alloc)),
        Some((_, fields)) => copy_fields(alloc, fields),
    }
}

fn create(alloc: Global, db: &str, value: &Value, o: &Doc) -> Result<(NsName, Action), EntryFault>
    ensures { Gives result (create_read db.now value.now (further o.now)) }
{
    let ns = collection(alloc, db, "create", value)?;
    let mut options = further(alloc, o)?;
    let _ = options.remove("idIndex");
    Ok((ns, Action::Create { options }))
}

fn drop_collection(alloc: Global, db: &str, value: &Value) -> Result<(NsName, Action), EntryFault>
    ensures { Gives result (drop_read db.now value.now) }
{
    let ns = collection(alloc, db, "drop", value)?;
    Ok((ns, Action::DropColl))
}

fn drop_database(alloc: Global, db: &str) -> Result<(NsName, Action), EntryFault>
    ensures { Gives result (Ok (named db.now [], DropDb)) }
{
    let ns = database(alloc, db)?;
    Ok((ns, Action::DropDb))
}

/// Looks whether the document defines an index.
fn definition(alloc: Global, doc: &Doc) -> Result<(), EntryFault>
    ensures ok { OnOk result (definition doc.now ≡ Ok doc.now) }
    ensures err { IfErr result (λ e. Fails e (definition doc.now)) }
{
    document_field(alloc, doc, "key")?;
    text_field(alloc, doc, "name")?;
    Ok(())
}

fn create_indexes(
    alloc: Global,
    db: &str,
    value: &Value,
    o: &Doc,
) -> Result<(NsName, Action), EntryFault>
    ensures { Gives result (create_indexes_read db.now value.now (further o.now)) }
{
    let ns = collection(alloc, db, "createIndexes", value)?;
    let def = further(alloc, o)?;
    definition(alloc, &def)?;
    let mut defs = List::new(alloc);
    defs.push(def)?;
    Ok((ns, Action::AddIndexes { defs }))
}

fn definition_in(alloc: Global, item: &Value) -> Result<Doc, EntryFault>
    ensures { Gives result (definition_in (codes "indexes") item.now) }
{
    let Some(doc) = document_in(item) else {
        return Err(bad(alloc, "indexes"));
    };
    match definition(alloc, doc) {
        Ok(()) => Ok(doc.copy(alloc)?),
        Err(EntryFault::NoMemory) => Err(EntryFault::NoMemory),
        Err(_) => Err(bad(alloc, "indexes")),
    }
}

fn definitions(alloc: Global, items: &[Value]) -> Result<List<Doc>, EntryFault>
    ensures { Gives result (definitions (codes "indexes") items.now) }
{
    let mut defs = List::new(alloc);
    for item in items {
        defs.push(definition_in(alloc, item)?)?;
    }
    Ok(defs)
}

fn commit_index_build(
    alloc: Global,
    db: &str,
    value: &Value,
    o: &Doc,
) -> Result<(NsName, Action), EntryFault>
    requires { Begins (codes "commitIndexBuild") value.now o.now }
    ensures { Gives result (commit_read db.now value.now (further o.now)) }
{
    let ns = collection(alloc, db, "commitIndexBuild", value)?;
    let items = array_field(alloc, o, "indexes")?;
    let defs = definitions(alloc, items.as_slice())?;
    Ok((ns, Action::AddIndexes { defs }))
}

fn drop_index(
    alloc: Global,
    db: &str,
    value: &Value,
    o: &Doc,
) -> Result<(NsName, Action), EntryFault>
    requires { Begins (codes "dropIndexes") value.now o.now }
    ensures { Gives result (drop_index_read db.now value.now (further o.now)) }
{
    let ns = collection(alloc, db, "dropIndexes", value)?;
    let name = Text::of(alloc, text_field(alloc, o, "index")?)?;
    Ok((ns, Action::DropIndex { name }))
}

fn rename(alloc: Global, value: &Value, o: &Doc) -> Result<(NsName, Action), EntryFault>
    requires { Begins (codes "renameCollection") value.now o.now }
    ensures { Gives result (rename_read value.now (further o.now)) }
{
    let Some(text) = text_in(value) else {
        return Err(bad(alloc, "renameCollection"));
    };
    let from = whole_name(alloc, "renameCollection", text)?;
    let to = whole_name(alloc, "to", text_field(alloc, o, "to")?)?;
    let ns = from.copy(alloc)?;
    Ok((ns, Action::Rename { from, to }))
}

/// A command that isn't known.
pub(crate) fn other(
    alloc: Global,
    db: &str,
    name: &str,
    value: &Value,
) -> Result<(NsName, Action), AllocError>
    ensures { IfOk result (λ done. done ≡ other db.now name.now value.now) }
{
    let coll = match text_in(value) {
        Some(text) => text,
        None => "$cmd",
    };
    let ns = NsName {
        db: Text::of(alloc, db)?,
        coll: Text::of(alloc, coll)?,
    };
    let name = Text::of(alloc, name)?;
    Ok((ns, Action::Other { name }))
}

fn nothing(alloc: Global, db: &str) -> Result<(NsName, Action), AllocError>
    ensures { IfOk result (λ done. done ≡ (named db.now [], Nothing)) }
{
    let ns = database(alloc, db)?;
    Ok((ns, Action::Nothing))
}

/// What a command says, within a group.
pub(crate) fn command(alloc: Global, db: &str, o: &Doc) -> Result<(NsName, Action), EntryFault>
    ensures { Gives result (command no_group db.now o.now) }
{
    let Some((name, value)) = o.entries().first() else {
        return Err(bad(alloc, "o"));
    };
    match name.as_str() {
        "create" => create(alloc, db, value, o),
        "drop" => drop_collection(alloc, db, value),
        "dropDatabase" => drop_database(alloc, db),
        "createIndexes" => create_indexes(alloc, db, value, o),
        "commitIndexBuild" => commit_index_build(alloc, db, value, o),
        "startIndexBuild" | "abortIndexBuild" => Ok(nothing(alloc, db)?),
        "dropIndexes" => drop_index(alloc, db, value, o),
        "renameCollection" => rename(alloc, value, o),
        other_name => Ok(other(alloc, db, other_name, value)?),
    }
}
