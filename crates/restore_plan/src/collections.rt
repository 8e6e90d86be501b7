//! What takings of collections make of a state.
ghost use Rattle.std.specs.Prelude.{◌≡◌, IfOk, OnOk, OnErr, None, true};
ghost use Rattle.coll_state.specs.Rows.{state_of};
ghost use Rattle.archive_format.specs.Archive.{doc, end, fault_in};
ghost use Rattle.restore_plan.specs.Base.{named_step, described_in, document_taken, has_id, normal_forms};

use bson_value::NsName;
use bson_view::{DocumentBytes, View};
use coll_state::{COUNT_LIMIT, State, changes_are_moves};
use containers::List as JList;
use index_keys::normal;
use json_tree::{Fields, Tree};
use std::alloc::{AllocError, Global};

/// Whether the document has an `_id`.
#[tactic(auto, unfolding(archive_format::specs::Archive::fault_in, archive_format::specs::Archive::fields_of, bson_check::specs::Faults::first_fault))]
pub(crate) fn has_id(bytes: &[u8]) -> bool
    requires { fault_in bytes.now ≡ None }
    ensures { result ≡ has_id (document_taken bytes.now) }
{
    View::of(bytes).field("_id").is_some()
}

// The normal forms of definitions.
fn normal_forms(alloc: Global, defs: &[Tree]) -> Result<Vec<Tree>, AllocError>
    ensures { IfOk result (λ v. v.items ≡ normal_forms defs.now) }
{
    let mut forms = Vec::new(alloc);
    let mut left = defs;
    while let Some((def, rest)) = left.split_first() {
        if let Some(form) = normal(alloc, def)? {
            forms.push(form)?;
        }
        left = rest;
    }
    Ok(forms)
}

/// Puts the document in its place, over one with the same `_id`.
#[tactic(auto, unfolding(archive_format::specs::Archive::fault_in, archive_format::specs::Archive::fields_of, bson_check::specs::Faults::first_fault))]
pub(crate) fn put(
    alloc: Global,
    state: &mut State,
    ns: &NsName,
    bytes: &[u8],
) -> Result<(), AllocError>
    requires document { fault_in bytes.now ≡ None }
    requires id { has_id (document_taken bytes.now) ≡ true }
    ensures ok { OnOk result (state_of state.new ≡ named_step ns.now (state_of state.old) (doc ns.now bytes.now)) }
    ensures err { OnErr result (state.new ≡ state.old) }
{
    changes_are_moves();
    if state.count() >= COUNT_LIMIT {
        return Err(AllocError);
    }
    let document = DocumentBytes::of(alloc, bytes)?;
    state.put_bytes(alloc, ns, document)
}

/// Puts the options and the definitions in the place of those that are there.
pub(crate) fn describe(
    alloc: Global,
    state: &mut State,
    ns: &NsName,
    options: Tree,
    definitions: &[Tree],
) -> Result<(), AllocError>
    ensures ok { OnOk result (state_of state.new ≡ described_in (state_of state.old) ns.now options (normal_forms definitions.now)) }
    ensures err { OnErr result (state.new ≡ state.old) }
{
    changes_are_moves();
    if state.count() >= COUNT_LIMIT {
        return Err(AllocError);
    }
    let forms = normal_forms(alloc, definitions)?;
    state.describe(alloc, ns, options, JList::from_vec(forms))
}

/// Makes the collection, if it isn't there.
pub(crate) fn make(alloc: Global, state: &mut State, ns: &NsName) -> Result<(), AllocError>
    ensures ok { OnOk result (state_of state.new ≡ named_step ns.now (state_of state.old) (end ns.now)) }
    ensures err { OnErr result (state.new ≡ state.old) }
{
    changes_are_moves();
    if state.has(ns) {
        return Ok(());
    }
    if state.count() >= COUNT_LIMIT {
        return Err(AllocError);
    }
    state.create(alloc, ns, Tree::Object(Fields::new(alloc)))
}
