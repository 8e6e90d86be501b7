//! Several changes at once.
ghost use Rattle.std.specs.Prelude.{◌≡◌, ◌↔◌, [], ◌∷◌, true, IsTrue, IfOk, OnOk, None, Some};
ghost use Rattle.std.specs.FinMap as map;
ghost use Rattle.coll_state.specs.ChangeAll.{HasId, change_all};
ghost use Rattle.coll_state.specs.Rows.{Document};
ghost use Rattle.row_script.specs.Jsons.{Write};

use anyhow::Result;
use bson_value::{List, NsName, Value};
use coll_state::{COUNT_LIMIT, Change, State};
use row_script::jsons::document;
use row_script::refused;
use std::alloc::{AllocError, Global};

// Whether a document has the `_id` that is named.
fn is_own(change: &Change) -> bool
    ensures { IsTrue result ↔ HasId change.now.id change.now.doc }
{
    match &change.doc {
        Some(doc) => match doc.get("_id") {
            Some(id) => id.same(&change.id),
            None => false,
        },
        None => true,
    }
}

// Whether a change can be made.
fn is_possible(state: &State, change: &Change) -> bool
    ensures own { IsTrue result → HasId change.now.id change.now.doc }
    ensures there { IsTrue result → map.contains_key state.now.tables change.now.ns ≡ true }
    ensures only { HasId change.now.id change.now.doc → map.contains_key state.now.tables change.now.ns ≡ true → IsTrue result }
{
    is_own(change) && state.has(&change.ns)
}

fn both(alloc: Global, first: Change, second: Change) -> Result<List<Change>, AllocError>
    ensures { IfOk result (λ changes. changes ≡ first ∷ second ∷ []) }
{
    let mut changes = List::new(alloc);
    changes.push(first)?;
    changes.push(second)?;
    Ok(changes)
}

// Makes two changes of collections that are there.
fn change(state: &mut State, alloc: Global, first: Change, second: Change) -> Result<()>
    ensures { OnOk result (state.new ≡ change_all (first ∷ second ∷ []) state.old) }
{
    if !is_possible(state, &first)
        || !is_possible(state, &second)
        || state.count() >= COUNT_LIMIT - 2
    {
        drop(first);
        drop(second);
        return refused("no such changes");
    }
    let changes = both(alloc, first, second)?;
    Ok(state.change(alloc, changes)?)
}

fn removal(alloc: Global, ns: &NsName, id: &Value) -> Result<Change, AllocError>
    ensures { IfOk result (λ change. change ≡ record { ns = ns.now; id = id.now; doc = None }) }
{
    let ns = ns.copy(alloc)?;
    let id = id.copy(alloc)?;
    Ok(Change { ns, id, doc: None })
}

fn putting(alloc: Global, ns: &NsName, id: &Value, json: &str) -> Result<Change>
    ensures { IfOk result (λ change. (doc : Document) × Write json.now doc × (change ≡ record { ns = ns.now; id = id.now; doc = Some doc })) }
{
    let mut change = removal(alloc, ns, id)?;
    let doc = document(alloc, json)?;
    change.doc = Some(doc);
    Ok(change)
}

/// Takes the document of an `_id` out, and puts the one that the text writes, at once.
pub fn replace(state: &mut State, alloc: Global, ns: &NsName, id: &Value, json: &str) -> Result<()>
    ensures { OnOk result ((doc : Document) × Write json.now doc
        × (state.new ≡ change_all (record { ns = ns.now; id = id.now; doc = None } ∷ record { ns = ns.now; id = id.now; doc = Some doc } ∷ []) state.old)) }
{
    let second = putting(alloc, ns, id, json)?;
    let first = removal(alloc, ns, id)?;
    change(state, alloc, first, second)
}
