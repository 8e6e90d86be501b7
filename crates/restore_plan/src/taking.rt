//! Takings of collections, as a filter takes them and names them anew.
ghost use Rattle.std.specs.Prelude.{◌≡◌, IfOk, OnOk, OnErr, None, true, unwrap_or, if◌then◌else◌};
ghost use Rattle.coll_state.specs.Rows.{state_of};
ghost use Rattle.archive_format.specs.Archive.{doc, end, fault_in};
ghost use Rattle.restore_filter.specs.Names.{takes, new_name};
ghost use Rattle.restore_plan.specs.Base.{named_step, described_in, document_taken, has_id, normal_forms};

use crate::collections::{describe, make, put};
use bson_value::NsName;
use coll_state::State;
use json_tree::Tree;
use restore_filter::{Filter, names_stay};
use std::alloc::{AllocError, Global};

// The new name of a namespace, where the filter renames at all.
fn new_name(alloc: Global, filter: &Filter, ns: &NsName) -> Result<Option<NsName>, AllocError>
    ensures { IfOk result (λ o. unwrap_or o ns.now ≡ new_name filter.now ns.now) }
{
    names_stay();
    if filter.is_renaming() {
        Ok(Some(filter.new_name(alloc, ns)?))
    } else {
        Ok(None)
    }
}

/// Options and definitions of a namespace.
pub(crate) fn take_metadata(
    alloc: Global,
    filter: &Filter,
    state: &mut State,
    ns: &NsName,
    options: Tree,
    definitions: &[Tree],
) -> Result<(), AllocError>
    ensures ok { OnOk result (state_of state.new ≡ (if takes filter.now ns.now then described_in (state_of state.old) (new_name filter.now ns.now) options (normal_forms definitions.now) else state_of state.old)) }
    ensures err { OnErr result (state.new ≡ state.old) }
{
    if !filter.takes(ns) {
        return Ok(());
    }
    match new_name(alloc, filter, ns)? {
        Some(name) => describe(alloc, state, &name, options, definitions),
        None => describe(alloc, state, ns, options, definitions),
    }
}

/// A document of a namespace.
pub(crate) fn take_document(
    alloc: Global,
    filter: &Filter,
    state: &mut State,
    ns: &NsName,
    bytes: &[u8],
) -> Result<(), AllocError>
    requires document { fault_in bytes.now ≡ None }
    requires id { has_id (document_taken bytes.now) ≡ true }
    ensures ok { OnOk result (state_of state.new ≡ (if takes filter.now ns.now then named_step (new_name filter.now ns.now) (state_of state.old) (doc ns.now bytes.now) else state_of state.old)) }
    ensures err { OnErr result (state.new ≡ state.old) }
{
    if !filter.takes(ns) {
        return Ok(());
    }
    match new_name(alloc, filter, ns)? {
        Some(name) => put(alloc, state, &name, bytes),
        None => put(alloc, state, ns, bytes),
    }
}

/// The end of a namespace.
pub(crate) fn take_end(
    alloc: Global,
    filter: &Filter,
    state: &mut State,
    ns: &NsName,
) -> Result<(), AllocError>
    ensures ok { OnOk result (state_of state.new ≡ (if takes filter.now ns.now then named_step (new_name filter.now ns.now) (state_of state.old) (end ns.now) else state_of state.old)) }
    ensures err { OnErr result (state.new ≡ state.old) }
{
    if !filter.takes(ns) {
        return Ok(());
    }
    match new_name(alloc, filter, ns)? {
        Some(name) => make(alloc, state, &name),
        None => make(alloc, state, ns),
    }
}
