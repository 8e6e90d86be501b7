//! Which documents of an oplog a restore replays.
ghost use Rattle.std.specs.Prelude.{◌≡◌, IfOk, OnOk};
ghost use Rattle.std.specs.List.{before_first};
ghost use Rattle.bson_view.specs.Views.{document};
ghost use Rattle.entry_model.specs.Reading.{is_dot, namespace_of, entry_of};
ghost use Rattle.entry_reader.specs.Entries.{AreFieldsOf};
ghost use Rattle.restore_entries.specs.Oplog.{is_before, is_asked, is_command, matters, at_entry, at_fault, at_head, reading_of};

use crate::cut::{cut_entry, takes_entry};
use bson_value::{Doc, NsName, Ts, Value};
use bson_view::View;
use entry_model::{Entry, EntryFault};
use entry_reader::{EntryView, to_doc};
use oplog_entry::read;
use restore_filter::Filter;
use std::alloc::{AllocError, Global};

/// What a document of the oplog is to a restore.
#[derive(Drop)]
pub enum EntryReading {
    /// It isn't replayed.
    Passed,
    /// What is replayed of it.
    Kept(Entry),
    /// It isn't an entry, and was to be replayed. Its timestamp is told where that can be read.
    Unreadable(Option<Ts>),
}

/// What stands before the first dot, or all of it.
fn before_dot(text: &str) -> &str
    ensures { result.now ≡ before_first is_dot text.now }
{
    match text.split_once('.') {
        Some((db, _)) => db,
        None => text,
    }
}

fn is_before(limit: Option<Ts>, ts: Ts) -> bool
    ensures { result ≡ is_before limit ts }
{
    match limit {
        Some(limit) => ts.secs < limit.secs || (ts.secs == limit.secs && ts.inc < limit.inc),
        None => true,
    }
}

/// Whether an entry of this head is before the limit, and of another database than `config`.
pub(crate) fn is_asked(limit: Option<Ts>, ts: Ts, text: &str) -> bool
    ensures { result ≡ is_asked limit (ts, text.now) }
{
    is_before(limit, ts) && before_dot(text) != "config"
}

fn is_command(doc: &Doc) -> bool
    ensures { result ≡ is_command doc.now }
{
    match doc.get("op") {
        Some(Value::Str(op)) => op.as_str() == "c",
        _ => false,
    }
}

/// Whether an entry that can't be read was to be replayed.
fn matters(alloc: Global, rules: &Filter, doc: &Doc, text: &str) -> Result<bool, AllocError>
    ensures { IfOk result (λ b. b ≡ matters rules.now doc.now (namespace_of text.now)) }
{
    match NsName::split(alloc, text)? {
        Some(ns) => Ok(is_command(doc) || rules.takes(&ns)),
        None => Ok(true),
    }
}

fn at_fault(
    alloc: Global,
    rules: &Filter,
    doc: &Doc,
    ts: Ts,
    text: &str,
) -> Result<EntryReading, AllocError>
    ensures { IfOk result (λ r. r ≡ at_fault rules.now doc.now (ts, text.now)) }
{
    if matters(alloc, rules, doc, text)? {
        Ok(EntryReading::Unreadable(Some(ts)))
    } else {
        Ok(EntryReading::Passed)
    }
}

fn at_entry(rules: &Filter, entry: Entry) -> EntryReading
    ensures { result ≡ at_entry rules.now entry }
{
    if takes_entry(rules, &entry) {
        EntryReading::Kept(cut_entry(rules, entry))
    } else {
        EntryReading::Passed
    }
}

// A fault of the document, and not want of memory.
fn of_document(fault: EntryFault) -> Result<(), AllocError>
    ensures { OnOk result (fault ≡ EntryFault.NoMemory → ⊥) }
{
    match fault {
        EntryFault::NoMemory => Err(AllocError),
        _ => Ok(()),
    }
}

// What an entry is that is asked for, by its document.
fn read_built(
    alloc: Global,
    rules: &Filter,
    doc: &Doc,
    ts: Ts,
    text: &str,
) -> Result<EntryReading, AllocError>
    ensures { IfOk result (λ r. r ≡ at_head rules.now doc.now (ts, text.now) (entry_of doc.now)) }
{
    match read(alloc, doc) {
        Ok(entry) => Ok(at_entry(rules, entry)),
        Err(fault) => {
            of_document(fault)?;
            at_fault(alloc, rules, doc, ts, text)
        }
    }
}

// The same in its bytes, where it changes one document.
fn read_asked(
    alloc: Global,
    rules: &Filter,
    entry: &EntryView<'_>,
    view: &View<'_>,
    ts: Ts,
    text: &str,
) -> Result<EntryReading, AllocError>
    requires { AreFieldsOf entry.now (document view.now) }
    ensures { IfOk result (λ r. r ≡ at_head rules.now (document view.now) (ts, text.now) (entry_of (document view.now))) }
{
    match entry.change(alloc)? {
        Some(change) => Ok(at_entry(rules, change)),
        None => {
            let doc = to_doc(alloc, view)?;
            read_built(alloc, rules, &doc, ts, text)
        }
    }
}

/// What a document of the oplog is to a restore with this filter and this limit, by what is read of it. Where it isn't asked
/// for, only its head is looked at. The document is built as a whole only where it is no entry that changes one document, or
/// has a fault.
pub fn read_entry(
    alloc: Global,
    rules: &Filter,
    limit: Option<Ts>,
    entry: &EntryView<'_>,
    view: &View<'_>,
) -> Result<EntryReading, AllocError>
    requires { AreFieldsOf entry.now (document view.now) }
    ensures { IfOk result (λ r. r ≡ reading_of rules.now limit (document view.now)) }
{
    let Some((ts, text)) = entry.head() else {
        return Ok(EntryReading::Unreadable(None));
    };
    if is_asked(limit, ts, text) {
        read_asked(alloc, rules, entry, view, ts, text)
    } else {
        Ok(EntryReading::Passed)
    }
}
