//! Several changes at once.
ghost use Rattle.std.specs.Prelude.{◌≡◌, ◌+◌, ◌≤◌, ◌<◌, ◌^◌, OnOk, OnErr, IfOk, length, true};
ghost use Rattle.std.specs.FinMap as map;
ghost use Rattle.bson_encode.specs.Key.{key_of};
ghost use Rattle.coll_state.specs.Rows.{AreSound};
ghost use Rattle.coll_state.specs.ChangeAll.{change_one, change_all, HasId, HaveIds, AreThere};
ghost use Rattle.coll_state.specs.PreparedChange.{change_of, changes_of, HasRoom, RoomFor, AllGain, AllLose};
ghost use Rattle.coll_state.specs.Tables.{tables_in, stock_at};

use crate::kept::KeptDocument;
use crate::keys::key_of;
use crate::prepared_change::PreparedChange;
use crate::tables::Tables;
use bson_value::{Doc, List, NsName, Value};
use std::alloc::{AllocError, Global};

/// A document that is put under its `_id`, or taken out where there is none.
#[derive(Drop)]
pub struct Change {
    pub ns: NsName,
    pub id: Value,
    pub doc: Option<Doc>,
}

fn document_of(alloc: Global, doc: Option<Doc>) -> Result<Option<KeptDocument>, AllocError>
    ensures { IfOk result (λ document. document ≡ doc) }
{
    match doc {
        Some(doc) => Ok(Some(KeptDocument::of(alloc, doc)?)),
        None => Ok(None),
    }
}

fn prepare_one(alloc: Global, change: Change) -> Result<PreparedChange, AllocError>
    requires { HasId change.id change.doc }
    ensures { IfOk result (λ p. change_of p ≡ change) }
{
    let Change { ns, id, doc } = change;
    let key = key_of(alloc, &id)?;
    let document = document_of(alloc, doc)?;
    Ok(PreparedChange {
        ns,
        id,
        key,
        document,
    })
}

/// The changes, made ready.
pub(crate) fn prepare(
    alloc: Global,
    changes: List<Change>,
) -> Result<Vec<PreparedChange>, AllocError>
    requires { HaveIds changes }
    ensures { IfOk result (λ ps. changes_of ps.items ≡ changes) }
{
    let mut prepared = Vec::new(alloc);
    for change in changes.into_vec() {
        prepared.push(prepare_one(alloc, change)?)?;
    }
    Ok(prepared)
}

// Room for another document in a collection that is there.
fn reserve_one(tables: &mut Tables, ns: &NsName) -> Result<(), AllocError>
    requires { map.contains_key (tables_in tables.old) ns.now ≡ true }
    ensures tables { tables_in tables.new ≡ tables_in tables.old }
    ensures ok { OnOk result (AllGain ns.now tables.old tables.new) }
{
    match tables.get_mut(ns) {
        Some(collection) => {
            collection.reserve_another()?;
            Ok(())
        }
        None => unreachable!(),
    }
}

// Gives up the room in a collection.
fn give_up_one(tables: &mut Tables, ns: &NsName)
    ensures { tables_in tables.new ≡ tables_in tables.old }
{
    if let Some(collection) = tables.get_mut(ns) {
        collection.give_up_room();
    }
}

// The same of each collection that changes, so that room that wasn't taken is counted once.
fn give_up_room(tables: &mut Tables, changes: &[PreparedChange])
    ensures { tables_in tables.new ≡ tables_in tables.old }
{
    for change in changes {
        give_up_one(tables, &change.ns);
    }
}

/// Makes a change, where there is room for it, and counts a document that is put.
fn apply_one(tables: &mut Tables, count: u128, change: PreparedChange) -> u128
    requires room { HasRoom 1 (stock_at tables.old change.ns) }
    requires sound { AreSound (record { tables = tables_in tables.old; count = count }) }
    requires count { count < 2 ^ 127 }
    ensures rows { (record { tables = tables_in tables.new; count = result }) ≡ change_one (change_of change) (record { tables = tables_in tables.old; count = count }) }
    ensures keeps { AllLose change.ns tables.old tables.new }
{
    let PreparedChange {
        ns,
        id,
        key,
        document,
    } = change;
    let Some(collection) = tables.get_mut(&ns) else {
        unreachable!();
    };
    match document {
        Some(document) => {
            collection.put(key, document);
            count + 1
        }
        None => {
            let _ = collection.remove(&id);
            count
        }
    }
}

/// Room in each collection for as many documents as there are changes of it.
pub(crate) fn reserve(tables: &mut Tables, changes: &[PreparedChange]) -> Result<(), AllocError>
    requires { AreThere (changes_of changes.now) (tables_in tables.old) }
    ensures tables { tables_in tables.new ≡ tables_in tables.old }
    ensures ok { OnOk result (RoomFor changes.now tables.new) }
{
    give_up_room(tables, changes);
    for change in changes {
        reserve_one(tables, &change.ns)?;
    }
    Ok(())
}

/// Makes the changes, where there is room for them, and counts the documents that are put.
pub(crate) fn apply(tables: &mut Tables, count: u128, changes: Vec<PreparedChange>) -> u128
    requires room { RoomFor changes.items tables.old }
    requires sound { AreSound (record { tables = tables_in tables.old; count = count }) }
    requires count { count + length changes.items < 2 ^ 127 }
    ensures rows { (record { tables = tables_in tables.new; count = result }) ≡ change_all (changes_of changes.items) (record { tables = tables_in tables.old; count = count }) }
    ensures sound { AreSound (record { tables = tables_in tables.new; count = result }) }
{
    let mut count = count;
    for change in changes {
        count = apply_one(tables, count, change);
    }
    count
}
