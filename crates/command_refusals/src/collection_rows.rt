//! Refusals of commands on collections and on indexes.
ghost use Rattle.std.specs.Prelude.{◌≡◌, ◌||◌, not, codes, IfOk, length};
ghost use Rattle.state_model.specs.Keys.{same_key};
ghost use Rattle.std.specs.Option.{option_copied};
ghost use Rattle.std.specs.FinMap as map;
ghost use Rattle.history_model.specs.Documents.{options_of, normal_of, is_bad_name};
ghost use Rattle.history_model.specs.Refusals.{in_database, rows_in, index_rows, first_of};
ghost use Rattle.command_refusals.specs.Collections.{create_row, rename_row, is_among, is_taken, form_refusal_if, index_row, drop_index_row};

use crate::after::all_documents;
use crate::clashes::test;
use crate::index_tests::refusal_by;
use bson_value::{Doc, NsName};
use coll_state::{State, name_of as definition_name};
use command_rules::{are_good_options, is_bad_name, is_good_definition, name_of};
use json_tree::Tree;
use schedule_model::Refused;
use std::alloc::{AllocError, Global};

/// A collection has at most so many indexes.
const MOST_INDEXES: usize = 63;

/// Why no collection is made. `tree` is what `options_of` makes of the options.
pub fn create_refusal(
    alloc: Global,
    state: &State,
    ns: &NsName,
    options: &Doc,
    tree: &Tree,
) -> Result<Option<Refused>, AllocError>
    requires { tree.now ≡ options_of options.now }
    ensures { IfOk result (λ o. o ≡ create_row ns.now options.now state.now) }
{
    if state.has(ns) {
        return Ok(Some(Refused::NamespaceExists));
    }
    if !are_good_options(alloc, options, tree)? {
        return Ok(Some(Refused::BadDocument));
    }
    if is_bad_name(ns) {
        return Ok(Some(Refused::BadName));
    }
    Ok(None)
}

/// Whether a database has a collection.
pub fn has_database(state: &State, db: &str) -> bool
    ensures { result ≡ in_database db.now state.now }
{
    let mut left = state.namespaces();
    'names: while let Some(name) = left.next() {
        if name.db.as_str() == db {
            return true;
        }
    }
    false
}

fn same_database(from: &NsName, to: &NsName) -> bool
    ensures { result ≡ same_key from.now.db to.now.db }
{
    from.db.as_str() == to.db.as_str()
}

// A name that a collection may not get: it breaks the rules, or is of another database.
fn is_no_target(from: &NsName, to: &NsName) -> bool
    ensures { result ≡ (is_bad_name to.now || not (same_key from.now.db to.now.db)) }
{
    if is_bad_name(to) {
        return true;
    }
    !same_database(from, to)
}

/// Why a collection isn't renamed.
pub fn rename_refusal(state: &State, from: &NsName, to: &NsName) -> Option<Refused>
    ensures { result ≡ rename_row from.now to.now state.now }
{
    if !state.has(from) {
        return Some(Refused::NoSuchNamespace);
    }
    if state.has(to) {
        return Some(Refused::NamespaceExists);
    }
    if is_no_target(from, to) {
        return Some(Refused::BadName);
    }
    None
}

// Whether one of the definitions has this name.
fn is_among(name: &str, defs: &[Tree]) -> bool
    ensures { result ≡ is_among name.now defs.now }
{
    let mut left = defs;
    'definitions: while let Some((def, rest)) = left.split_first() {
        if definition_name(def) == name {
            return true;
        }
        left = rest;
    }
    false
}

fn is_primary(name: &str) -> bool
    ensures { result ≡ same_key name.now (codes "_id_") }
{
    name == "_id_"
}

// Whether a definition of this name is there, or it is `_id_`.
fn is_taken(name: Option<&str>, defs: &[Tree]) -> bool
    ensures { result ≡ is_taken (option_copied name.entry) defs.now }
{
    match name {
        Some(name) => is_primary(name) || is_among(name, defs),
        None => false,
    }
}

// What the index of a definition refuses of the documents that are there, if it is a good one.
fn tested(
    alloc: Global,
    state: &State,
    ns: &NsName,
    good: bool,
    form: Option<&Tree>,
) -> Result<Option<Refused>, AllocError>
    ensures { IfOk result (λ o. o ≡ form_refusal_if good (option_copied form.entry) (rows_in (map.get state.now.tables ns.now))) }
{
    if !good {
        return Ok(None);
    }
    let Some(form) = form else {
        return Ok(None);
    };
    let docs = all_documents(alloc, state, ns)?;
    let tested = test(alloc, ns, form, docs.as_slice())?;
    Ok(refusal_by(tested.clash, tested.parallel))
}

fn index_row(
    tested: Option<Refused>,
    name: Option<&str>,
    defs: &[Tree],
    good: bool,
) -> Option<Refused>
    ensures { result ≡ index_row tested (is_taken (option_copied name.entry) defs.now) good (length defs.now) }
{
    if tested.is_some() {
        return tested;
    }
    if is_taken(name, defs) {
        return Some(Refused::IndexExists);
    }
    if !good {
        return Some(Refused::BadDocument);
    }
    if defs.len() >= MOST_INDEXES {
        return Some(Refused::TooManyIndexes);
    }
    None
}

/// Why an index definition isn't added. `form` is what `normal_of` makes of it. The time is that of testing
/// the index over all documents of the collection.
pub fn index_refusal(
    alloc: Global,
    state: &State,
    ns: &NsName,
    def: &Doc,
    form: Option<&Tree>,
) -> Result<Option<Refused>, AllocError>
    requires { option_copied form ≡ normal_of def.now }
    ensures { IfOk result (λ o. o ≡ first_of (index_rows ns.now def.now state.now)) }
{
    let Some(defs) = state.indexes(ns) else {
        return Ok(Some(Refused::NoSuchNamespace));
    };
    let good = is_good_definition(alloc, def, form)?;
    let tested = tested(alloc, state, ns, good, form)?;
    Ok(index_row(tested, name_of(def), defs.as_slice(), good))
}

/// Why an index isn't dropped.
pub fn drop_index_refusal(state: &State, ns: &NsName, name: &str) -> Option<Refused>
    ensures { result ≡ drop_index_row ns.now name.now state.now }
{
    let Some(defs) = state.indexes(ns) else {
        return Some(Refused::NoSuchNamespace);
    };
    if is_among(name, defs.as_slice()) {
        None
    } else {
        Some(Refused::NoSuchIndex)
    }
}
