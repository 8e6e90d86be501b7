//! Worked rows of BSON: the verbs that `stdin` asks by. Bytes stand in hexadecimal digits, and a value as the first field of a
//! document. `document` gives the document of which the rows below it ask, where they name none.
#![tactic(auto)]

mod documents;
mod edits;
mod held;
mod keys;
mod orders;
mod texts;
mod views;

use anyhow::Result;
use bson_value::Doc;
use row_script::{Respondent, refused};
use std::alloc::Global;
use std::io::BufWriter;

/// The document of which rows ask, and its bytes.
#[derive(Drop)]
struct BsonRows {
    bytes: Vec<u8>,
    doc: Doc,
}

impl BsonRows {
    fn put(&mut self, alloc: Global, text: &str) -> Result<String> {
        self.bytes = row_script::bytes(alloc, text)?;
        self.doc = texts::document(alloc, &self.bytes)?;
        Ok(String::new(alloc))
    }

    // Answers of the document as it is held.
    fn answer_held(&self, alloc: Global, verb: &str, text: &str) -> Result<String> {
        match verb {
            "walk" => held::walked(alloc, &self.bytes, &self.doc, text),
            "item" => held::item(alloc, &self.bytes, &self.doc, text),
            "value" => held::value(alloc, &self.bytes, &self.doc, text),
            "read" => held::read(alloc, &self.bytes, &self.doc, text),
            "inner" => held::inner(alloc, &self.bytes, &self.doc, text),
            "scoped" => held::scoped(alloc, &self.bytes, text),
            _ => answer_alone(alloc, verb, text),
        }
    }
}

// Answers that hang on the text alone.
fn answer_alone(alloc: Global, verb: &str, text: &str) -> Result<String> {
    match verb {
        "fault" => documents::fault(alloc, text),
        "decode" => documents::decoded(alloc, text),
        "ordered" => documents::ordered(alloc, text),
        "append" => documents::appended(alloc, text),
        "put_first" => edits::put_first(alloc, text),
        "set" => edits::set(alloc, text),
        "take" => edits::taken(alloc, text),
        "entries" => edits::entries(alloc, text),
        "kept" => views::kept(alloc, text),
        _ => answer_order(alloc, verb, text),
    }
}

// Answers of keys, and of what has an order.
fn answer_order(alloc: Global, verb: &str, text: &str) -> Result<String> {
    match verb {
        "key" => keys::key(alloc, text),
        "compare_key" => keys::compared_key(alloc, text),
        "compare_keys" => keys::compared_keys(alloc, text),
        "timestamps" => orders::timestamps(alloc, text),
        "namespaces" => orders::namespaces(alloc, text),
        "texts" => orders::texts(alloc, text),
        "index" => orders::index(alloc, text),
        "list" => orders::list(alloc),
        _ => refused("no verb"),
    }
}

impl Respondent for BsonRows {
    fn answer(&mut self, alloc: Global, verb: &str, text: &str) -> Result<String> {
        match verb {
            "document" => self.put(alloc, text),
            "check" => documents::checked(alloc, &self.bytes, text),
            "fits" => documents::fits(alloc, &self.doc, text),
            "length" => documents::length(alloc, &self.doc),
            "copy" => documents::copied(alloc, &self.doc),
            "element" => views::element(alloc, &self.bytes, text),
            "field" => views::field(alloc, &self.bytes, text),
            "path" => views::path(alloc, &self.bytes, &self.doc, text),
            _ => self.answer_held(alloc, verb, text),
        }
    }
}

fn main(rt: HostRuntime) -> Result<()> {
    let mut rows = BsonRows {
        bytes: Vec::new(rt.alloc()),
        doc: Doc::new(rt.alloc()),
    };
    let mut out = BufWriter::with_capacity(rt.alloc(), 4096, rt.stdout())?;
    row_script::run(rt.alloc(), &mut rt.stdin(), &mut out, &mut rows)
}
