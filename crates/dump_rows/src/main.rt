//! Worked rows of a store and of a dump, call by call: the verbs that `stdin` asks by.
#![tactic(auto)]

mod answers;
mod calls;

use crate::calls::Calls;
use anyhow::Result;
use std::io::BufWriter;

fn main(rt: HostRuntime) -> Result<()> {
    let mut calls = Calls::new(rt.alloc())?;
    let mut out = BufWriter::with_capacity(rt.alloc(), 4096, rt.stdout())?;
    row_script::run(rt.alloc(), &mut rt.stdin(), &mut out, &mut calls)
}
