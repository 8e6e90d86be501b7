//! The listing of a state, collection by collection.
ghost use Rattle.std.specs.Prelude.{◌≡◌, ◌≤◌, ◌++◌, length, OnOk, OnErr, IfSome, IsErrOf};
ghost use Rattle.std.specs.FinMap as map;
ghost use Rattle.std.specs.Io.KnownBytes.{Appends};
ghost use Rattle.tool_io.specs.Causes.{Rose, AppendsFront};
ghost use Rattle.bson_view.specs.Held.{held_document};
ghost use Rattle.coll_state.specs.Documents.{documents_by_key};
ghost use Rattle.coll_state.specs.Rows.{state_of};
ghost use Rattle.document_lines.specs.Lines.{document_line};
ghost use Rattle.state_listing.specs.Listing.{collection_text, listing};
ghost use Rattle.index_build.specs.Numbers.{counts as counts_of};
ghost use Rattle.state_listing.specs.Listed.{index_lines, document_lines};

use crate::lines::{write_head, write_index};
use bson_value::NsName;
use bson_view::Held;
use coll_state::{Documents, State, name_of};
use document_lines::{Lines, ListForm};
use index_build::Counts;
use json_tree::Tree;
use std::alloc::Global;
use tool_io::{Fault, Sink};

fn list_document<K: Sink>(
    document: Held<'_>,
    form: ListForm,
    lines: &mut Lines,
    sink: &mut K,
) -> Result<(), Fault>
    ensures ok { OnOk result (Appends (K.end sink.old).bytes (K.end sink.new).bytes (document_line form (held_document document.entry))) }
    ensures err { OnErr result (AppendsFront (K.end sink.old).bytes (K.end sink.new).bytes (document_line form (held_document document.entry))) }
    ensures later { (K.end sink.old).faults ≤ (K.end sink.new).faults }
    ensures cause { IsErrOf result Fault.Failed → Rose (K.end sink.old).faults (K.end sink.new).faults }
{
    match lines.line(document, form) {
        Ok(line) => sink.write(line),
        Err(_) => Err(Fault::NoMemory),
    }
}

fn list_documents<K: Sink>(
    alloc: Global,
    documents: Documents<'_>,
    form: ListForm,
    sink: &mut K,
) -> Result<(), Fault>
    ensures ok { OnOk result (Appends (K.end sink.old).bytes (K.end sink.new).bytes (document_lines form documents.entry)) }
    ensures err { OnErr result (AppendsFront (K.end sink.old).bytes (K.end sink.new).bytes (document_lines form documents.entry)) }
    ensures later { (K.end sink.old).faults ≤ (K.end sink.new).faults }
    ensures cause { IsErrOf result Fault.Failed → Rose (K.end sink.old).faults (K.end sink.new).faults }
{
    let mut lines = Lines::new(alloc);
    let mut left = documents;
    'documents: while let Some(document) = left.next() {
        match list_document(document, form, &mut lines, sink) {
            Ok(()) => {}
            Err(fault) => return Err(fault),
        }
    }
    Ok(())
}

// How many documents there are, if a `usize` holds that.
fn count(documents: Documents<'_>) -> Option<usize>
    ensures { IfSome result (λ n. n ≡ length documents.entry) }
{
    let mut left = documents;
    let mut count: usize = 0;
    'documents: while let Some(_) = left.next() {
        count = count.checked_add(1)?;
    }
    Some(count)
}

// The lines of a collection's indexes.
fn list_indexes<K: Sink>(
    alloc: Global,
    counts: &Counts,
    ns: &NsName,
    defs: &[Tree],
    sink: &mut K,
) -> Result<(), Fault>
    ensures ok { OnOk result (Appends (K.end sink.old).bytes (K.end sink.new).bytes (index_lines counts.now ns.now defs.now)) }
    ensures err { OnErr result (AppendsFront (K.end sink.old).bytes (K.end sink.new).bytes (index_lines counts.now ns.now defs.now)) }
    ensures later { (K.end sink.old).faults ≤ (K.end sink.new).faults }
    ensures cause { IsErrOf result Fault.Failed → Rose (K.end sink.old).faults (K.end sink.new).faults }
{
    let mut left = defs;
    'indexes: while let Some((def, rest)) = left.split_first() {
        let number = counts.get(ns, name_of(def));
        match write_index(alloc, number, def, sink) {
            Ok(()) => {}
            Err(fault) => return Err(fault),
        }
        left = rest;
    }
    Ok(())
}

// The lines of a collection behind the first two.
fn list_contents<K: Sink>(
    alloc: Global,
    state: &State,
    counts: &Counts,
    ns: &NsName,
    defs: &[Tree],
    form: ListForm,
    sink: &mut K,
) -> Result<(), Fault>
    ensures ok { OnOk result (Appends (K.end sink.old).bytes (K.end sink.new).bytes (index_lines counts.now ns.now defs.now ++ document_lines form (documents_by_key (map.get state.now.tables ns.now)))) }
    ensures err { OnErr result (AppendsFront (K.end sink.old).bytes (K.end sink.new).bytes (index_lines counts.now ns.now defs.now ++ document_lines form (documents_by_key (map.get state.now.tables ns.now)))) }
    ensures later { (K.end sink.old).faults ≤ (K.end sink.new).faults }
    ensures cause { IsErrOf result Fault.Failed → Rose (K.end sink.old).faults (K.end sink.new).faults }
{
    match list_indexes(alloc, counts, ns, defs, sink) {
        Ok(()) => list_documents(alloc, state.documents(ns), form, sink),
        Err(fault) => Err(fault),
    }
}

fn list_collection<K: Sink>(
    alloc: Global,
    state: &State,
    counts: &Counts,
    ns: &NsName,
    form: ListForm,
    sink: &mut K,
) -> Result<(), Fault>
    requires { counts.now ≡ counts_of (state_of state.now) }
    ensures ok { OnOk result (Appends (K.end sink.old).bytes (K.end sink.new).bytes (collection_text form ns.now (map.get (state_of state.now) ns.now))) }
    ensures err { OnErr result (AppendsFront (K.end sink.old).bytes (K.end sink.new).bytes (collection_text form ns.now (map.get (state_of state.now) ns.now))) }
    ensures later { (K.end sink.old).faults ≤ (K.end sink.new).faults }
    ensures cause { IsErrOf result Fault.Failed → Rose (K.end sink.old).faults (K.end sink.new).faults }
{
    let Some(defs) = state.indexes(ns) else {
        return Ok(());
    };
    let Some(options) = state.options(ns) else {
        unreachable!();
    };
    let Some(count) = count(state.documents(ns)) else {
        return Err(Fault::NoMemory);
    };
    match write_head(
        alloc,
        ns.db.as_str(),
        ns.coll.as_str(),
        count,
        options,
        sink,
    ) {
        Ok(()) => list_contents(alloc, state, counts, ns, defs.as_slice(), form, sink),
        Err(fault) => Err(fault),
    }
}

/// Writes the listing of a state, a piece for each line or two. It asks for the numbers of its indexes that were counted.
pub fn list<K: Sink>(
    alloc: Global,
    state: &State,
    counts: &Counts,
    form: ListForm,
    sink: &mut K,
) -> Result<(), Fault>
    requires { counts.now ≡ counts_of (state_of state.now) }
    ensures ok { OnOk result (Appends (K.end sink.old).bytes (K.end sink.new).bytes (listing form (state_of state.now))) }
    ensures err { OnErr result (AppendsFront (K.end sink.old).bytes (K.end sink.new).bytes (listing form (state_of state.now))) }
    ensures later { (K.end sink.old).faults ≤ (K.end sink.new).faults }
    ensures cause { IsErrOf result Fault.Failed → Rose (K.end sink.old).faults (K.end sink.new).faults }
{
    let mut left = state.namespaces();
    'collections: while let Some(ns) = left.next() {
        match list_collection(alloc, state, counts, ns, form, sink) {
            Ok(()) => {}
            Err(fault) => return Err(fault),
        }
    }
    Ok(())
}
