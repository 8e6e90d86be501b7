//! The line of a document, from its bytes and from the built document.
use anyhow::Result;
use bson_encode::encode;
use bson_value::Doc;
use bson_view::{Held, View};
use document_lines::{Lines, ListForm};
use row_script::jsons::document;
use row_script::{answer, refused};
use std::alloc::Global;

// A line without its end.
fn ended(alloc: Global, line: &[u8]) -> Result<String> {
    let line = std::str::from_utf8(line)?;
    answer(alloc, line.strip_suffix('\n').unwrap_or("no end"))
}

fn line_by(alloc: Global, lines: &mut Lines, held: Held<'_>, form: ListForm) -> Result<String> {
    let line = lines.line(held, form)?;
    ended(alloc, line)
}

fn line_of(alloc: Global, held: Held<'_>, form: ListForm) -> Result<String> {
    let mut lines = Lines::new(alloc);
    line_by(alloc, &mut lines, held, form)
}

fn spelled_line(alloc: Global, bytes: &[u8], form: ListForm) -> Result<String> {
    match View::check(bytes, 1000, 100) {
        Ok(view) => line_of(alloc, Held::Spelled(view), form),
        Err(_) => refused("no document"),
    }
}

// The line of a document from its bytes.
fn line_again(alloc: Global, doc: &Doc, form: ListForm) -> Result<String> {
    let bytes = encode(alloc, doc)?;
    spelled_line(alloc, bytes.as_slice(), form)
}

// The line of a document, where that of its bytes is the same.
fn both(alloc: Global, doc: &Doc, form: ListForm) -> Result<String> {
    let built = line_of(alloc, Held::Built(doc), form)?;
    let spelled = line_again(alloc, doc, form)?;
    if spelled.as_str() == built.as_str() {
        return answer(alloc, built.as_str());
    }
    answer(alloc, "another line of its bytes")
}

fn both_forms(alloc: Global, doc: &Doc) -> Result<String> {
    let hex = both(alloc, doc, ListForm::Hex)?;
    if !hex.as_str().starts_with("doc ") {
        return Ok(hex);
    }
    both(alloc, doc, ListForm::Json)
}

/// The line of a document as JSON, where both ways to its lines of both forms tell the same.
pub fn line(alloc: Global, text: &str) -> Result<String> {
    let doc = document(alloc, text)?;
    both_forms(alloc, &doc)
}

/// The line of a document in hexadecimal digits.
pub fn hex_line(alloc: Global, text: &str) -> Result<String> {
    let doc = document(alloc, text)?;
    both(alloc, &doc, ListForm::Hex)
}
