//! Worked rows of collections: the verbs that `stdin` asks by. Documents, `_id`s and definitions stand as JSON.
#![tactic(auto)]

mod changes;
mod collections;
mod levels;

use crate::collections::Collections;
use anyhow::Result;
use row_script::Respondent;
use std::alloc::Global;
use std::io::BufWriter;

/// The collections of which rows ask.
#[derive(Drop)]
struct StateRows {
    collections: Collections,
}

impl Respondent for StateRows {
    fn answer(&mut self, alloc: Global, verb: &str, text: &str) -> Result<String> {
        let collections = &mut self.collections;
        match verb {
            "state" => collections.begin(alloc),
            "put" => collections.put(alloc, text),
            "deep" => collections.put_deep(alloc, text),
            "replace" => collections.replace(alloc, text),
            "remove" => collections.remove(alloc, text),
            "get" => collections.get(alloc, text),
            "after" => collections.after(alloc, text),
            "create" => collections.create(alloc, text),
            "rename" => collections.rename(alloc, text),
            "drop" => collections.drop(alloc, text),
            "drop_database" => collections.drop_database(alloc, text),
            "has" => collections.has(alloc, text),
            "incarnation" => collections.incarnation(alloc, text),
            "names" => collections.names(alloc),
            "index" => collections.add_index(alloc, text),
            "drop_index" => collections.drop_index(alloc, text),
            _ => collections.definitions(alloc, text),
        }
    }
}

fn main(rt: HostRuntime) -> Result<()> {
    let mut rows = StateRows {
        collections: Collections::new(rt.alloc()),
    };
    let mut out = BufWriter::with_capacity(rt.alloc(), 4096, rt.stdout())?;
    row_script::run(rt.alloc(), &mut rt.stdin(), &mut out, &mut rows)
}
