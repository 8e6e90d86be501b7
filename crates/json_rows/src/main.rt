//! Worked rows of JSON, of Extended JSON, of metadata and of the lines of documents: the verbs that `stdin` asks by.
#![tactic(auto)]

mod jsons;
mod lines;
mod metadata;
mod trees;
mod values;

use anyhow::Result;
use row_script::{Respondent, refused};
use std::alloc::Global;
use std::io::BufWriter;

/// Nothing stands between rows.
#[derive(Clone, Copy)]
struct JsonRows;

impl Respondent for JsonRows {
    fn answer(&mut self, alloc: Global, verb: &str, text: &str) -> Result<String> {
        match verb {
            "parse" => jsons::parsed(alloc, text),
            "nested" => jsons::nested(alloc, text),
            "many" => jsons::many(alloc, text),
            "members" => trees::members(alloc),
            "value" => values::read(alloc, text),
            "decode" => values::decoded(alloc, text),
            "wrap" => values::wrapped(alloc, text),
            "metadata" => metadata::read(alloc, text),
            "write" => metadata::written(alloc, text),
            "deep" => metadata::deep(alloc, text),
            "line" => lines::line(alloc, text),
            "hex" => lines::hex_line(alloc, text),
            _ => refused("no verb"),
        }
    }
}

fn main(rt: HostRuntime) -> Result<()> {
    let mut out = BufWriter::with_capacity(rt.alloc(), 4096, rt.stdout())?;
    row_script::run(rt.alloc(), &mut rt.stdin(), &mut out, &mut JsonRows)
}
