//! Worked rows of an archive's parts, of patterns, of the ring and of ends: the verbs that `stdin` asks by. Bytes stand in hexadecimal
//! digits. What is written is of the namespace `a.b`.
#![tactic(auto)]

mod blocks;
mod ends;
mod halting;
mod patterns;
mod prelude;
mod ring;
mod texts;

use crate::ring::Ring;
use anyhow::Result;
use row_script::{Respondent, refused};
use std::alloc::Global;
use std::io::BufWriter;

/// The ring of which rows ask.
#[derive(Drop)]
struct ArchiveRows {
    ring: Ring,
}

impl Respondent for ArchiveRows {
    fn answer(&mut self, alloc: Global, verb: &str, text: &str) -> Result<String> {
        match verb {
            "crc" => blocks::sum(alloc, text),
            "head" => blocks::head(alloc, text),
            "blocks" => blocks::blocks(alloc, text),
            "prelude" => prelude::prelude(alloc, text),
            "header" => prelude::header(alloc, text),
            "metadata" => prelude::metadata(alloc, text),
            "takes" => patterns::takes(alloc, text),
            "rename" => patterns::renamed(alloc, text),
            "left" => ring::left(alloc, text),
            "push" => self.ring.push(alloc, text),
            "ends" => self.ring.ends(alloc),
            "place" => self.ring.place(alloc, text),
            "entry" => self.ring.entry(alloc, text),
            "source" => ends::source(alloc, text),
            "standard_source" => ends::standard_source(alloc, text),
            "sink" => ends::sink(alloc, text),
            "standard_sink" => ends::standard_sink(alloc, text),
            "full_sink" => ends::full_sink(alloc, text),
            _ => refused("no verb"),
        }
    }
}

fn main(rt: HostRuntime) -> Result<()> {
    let mut rows = ArchiveRows {
        ring: Ring::new(rt.alloc())?,
    };
    let mut out = BufWriter::with_capacity(rt.alloc(), 4096, rt.stdout())?;
    row_script::run(rt.alloc(), &mut rt.stdin(), &mut out, &mut rows)
}
