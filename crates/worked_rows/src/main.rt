//! Worked rows of the whole program. Standard input is a script of calls, with what each must answer; standard output tells which
//! differ, and how many calls there were.
#![tactic(auto)]

mod call;
mod script;
mod wanted;

use crate::script::Script;
use anyhow::{Result, bail};
use std::io::{BufWriter, Read, Write};

fn main(rt: HostRuntime) -> Result<()> {
    let mut text = String::new(rt.alloc());
    rt.stdin().read_to_string(&mut text)?;
    let mut out = BufWriter::with_capacity(rt.alloc(), 4096, rt.stdout())?;
    let mut script = Script::new(rt.alloc());
    for line in text.lines() {
        script.line(rt.alloc(), line, &mut out)?;
    }
    script.settle(rt.alloc(), &mut out)?;
    let calls = script.calls;
    let differ = script.differ;
    writeln!(out, "{calls} calls, {differ} differ")?;
    out.flush()?;
    if differ > 0 {
        bail!("not all calls answer what is wanted");
    }
    Ok(())
}
