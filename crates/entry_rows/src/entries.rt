//! The entries that documents are read as, and what they are written as.
ghost use Rattle.std.specs.Prelude.{◌≡◌, ◌↔◌, ◌++◌, Bool, IfOk, IsTrue, codes, if◌then◌else◌, string_bytes};
ghost use Rattle.std.specs.Fmt.{decimal};
ghost use Rattle.bson_value.specs.Spelling.{document_text};
ghost use Rattle.entry_model.specs.Spelling.{entry_fields};

use crate::faults::entry_fault;
use crate::shown::put_entry;
use anyhow::Result;
use bson_encode::encode;
use bson_value::{Doc, Ts};
use entry_model::{Entry, entry_reads_back, written_is_document, written_is_read};
use entry_writer::write;
use oplog_entry::{head, read};
use row_script::jsons::document;
use row_script::{answer, truth};
use std::alloc::Global;

fn entry_text(alloc: Global, entry: &Entry) -> Result<String> {
    let mut text = String::new(alloc);
    put_entry(alloc, &mut text, entry)?;
    Ok(text)
}

fn read_text(alloc: Global, doc: &Doc) -> Result<String> {
    match read(alloc, doc) {
        Ok(entry) => {
            let text = entry_text(alloc, &entry);
            drop(entry);
            text
        }
        Err(fault) => entry_fault(alloc, &fault),
    }
}

/// The entry that a document is, or the first fault.
pub fn read_as(alloc: Global, json: &str) -> Result<String> {
    let doc = document(alloc, json)?;
    read_text(alloc, &doc)
}

fn head_text(alloc: Global, ts: Ts, ns: &str) -> Result<String>
    ensures { IfOk result (λ text. string_bytes text ≡ decimal ts.secs ++ codes ":" ++ decimal ts.inc ++ codes " " ++ ns.now) }
{
    Ok(format!(in alloc; "{}:{} {ns}", ts.secs, ts.inc)?)
}

fn head_or_fault(alloc: Global, doc: &Doc) -> Result<String> {
    match head(alloc, doc) {
        Ok((ts, ns)) => head_text(alloc, ts, ns.as_str()),
        Err(fault) => entry_fault(alloc, &fault),
    }
}

/// The timestamp of an entry and the text of its namespace, or the first fault of both.
pub fn head_of(alloc: Global, json: &str) -> Result<String> {
    let doc = document(alloc, json)?;
    head_or_fault(alloc, &doc)
}

// Whether bytes are the spelling of a document.
fn is_spelling(alloc: Global, bytes: &[u8], doc: &Doc) -> Result<bool>
    ensures { IfOk result (λ is_so. IsTrue is_so ↔ (bytes.now ≡ document_text doc.now)) }
{
    let spelling = encode(alloc, doc)?;
    Ok(bytes == spelling.as_slice())
}

// Whether the document of an entry is this one.
fn is_written_so(alloc: Global, entry: &Entry, doc: &Doc) -> Result<bool>
    ensures { IfOk result (λ is_so. IsTrue is_so ↔ (document_text (entry_fields entry.now) ≡ document_text doc.now)) }
{
    let bytes = write(alloc, entry)?;
    is_spelling(alloc, bytes.as_slice(), doc)
}

// The answer whether the document of an entry is this one.
fn written_text(alloc: Global, entry: &Entry, doc: &Doc) -> Result<String>
    ensures { IfOk result (λ answer. (is_so : Bool) × (IsTrue is_so ↔ (document_text (entry_fields entry.now) ≡ document_text doc.now))
        × (string_bytes answer ≡ (if is_so then codes "yes" else codes "no"))) }
{
    let is_so = is_written_so(alloc, entry, doc)?;
    truth(alloc, is_so)
}

fn rewritten_text(alloc: Global, doc: &Doc) -> Result<String> {
    match read(alloc, doc) {
        Ok(entry) => {
            let text = written_text(alloc, &entry, doc);
            drop(entry);
            text
        }
        Err(fault) => entry_fault(alloc, &fault),
    }
}

/// Whether the entry that a document is read as is written as the document again.
pub fn written(alloc: Global, json: &str) -> Result<String> {
    let doc = document(alloc, json)?;
    rewritten_text(alloc, &doc)
}

/// The laws do nothing.
pub fn laws(alloc: Global) -> Result<String> {
    written_is_read();
    written_is_document();
    entry_reads_back();
    answer(alloc, "")
}
