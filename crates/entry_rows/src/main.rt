//! Worked rows of entries of the oplog, of operators and of updates: the verbs that `stdin` asks by. Documents stand as JSON.
#![tactic(auto)]

mod entries;
mod faults;
mod shown;
mod texts;
mod updates;

use anyhow::Result;
use row_script::{Respondent, refused};
use std::alloc::Global;
use std::io::BufWriter;

/// Nothing stands between rows.
#[derive(Clone, Copy)]
struct EntryRows;

impl Respondent for EntryRows {
    fn answer(&mut self, alloc: Global, verb: &str, text: &str) -> Result<String> {
        match verb {
            "read" => entries::read_as(alloc, text),
            "head" => entries::head_of(alloc, text),
            "write" => entries::written(alloc, text),
            "laws" => entries::laws(alloc),
            "operators" => updates::operators(alloc, text),
            "update" => updates::updated(alloc, text),
            "touches" => updates::touches(alloc, text),
            "record" => updates::recorded(alloc, text),
            _ => refused("no verb"),
        }
    }
}

fn main(rt: HostRuntime) -> Result<()> {
    let mut out = BufWriter::with_capacity(rt.alloc(), 4096, rt.stdout())?;
    row_script::run(rt.alloc(), &mut rt.stdin(), &mut out, &mut EntryRows)
}
