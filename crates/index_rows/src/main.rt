//! Worked rows of index definitions, keys and indexes: the verbs that `stdin` asks by. Documents, options and definitions stand as JSON.
#![tactic(auto)]

mod collections;
mod definitions;
mod kept;
mod keys;
mod texts;

use crate::collections::Collections;
use crate::kept::Kept;
use anyhow::Result;
use row_script::Respondent;
use std::alloc::Global;
use std::io::BufWriter;

/// What stands between rows: collections, and an index.
#[derive(Drop)]
struct IndexRows {
    collections: Collections,
    kept: Kept,
}

impl Respondent for IndexRows {
    fn answer(&mut self, alloc: Global, verb: &str, text: &str) -> Result<String> {
        match verb {
            "normal" => definitions::form(alloc, text),
            "plan" => definitions::plan(alloc, text),
            "keys" => keys::told(alloc, text),
            "same" => keys::compared(alloc, text),
            "collections" => self.collections.begin(alloc),
            "create" => self.collections.create(alloc, text),
            "index" => self.collections.add_index(alloc, text),
            "doc" => self.collections.put(alloc, text),
            "drop" => self.collections.drop_index(alloc, text),
            "number" => self.collections.number(alloc, text),
            "fault" => self.collections.fault(alloc),
            "pairs" => collections::pairs(alloc, text),
            "kept" => self.kept.begin(alloc, text),
            _ => self.kept.call(alloc, verb, text),
        }
    }
}

fn main(rt: HostRuntime) -> Result<()> {
    let mut rows = IndexRows {
        collections: Collections::new(rt.alloc()),
        kept: Kept::new(rt.alloc()),
    };
    let mut out = BufWriter::with_capacity(rt.alloc(), 4096, rt.stdout())?;
    row_script::run(rt.alloc(), &mut rt.stdin(), &mut out, &mut rows)
}
