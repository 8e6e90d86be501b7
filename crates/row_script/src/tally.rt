//! How many rows there were, and how many differ.
ghost use Rattle.std.specs.Prelude.{◌≡◌, ◌↔◌, IsOk, OnOk};
ghost use Rattle.std.specs.Io.KnownBytes.{Appends};
ghost use Rattle.row_script.specs.Tallies.{no_rows, with_row, last_line};

use anyhow::{Result, bail};
use std::io::{self, Write};

/// How many rows a run had, and how many of them differ. Each number stays at the last one of 32 bits.
#[derive(Clone, Copy)]
pub(crate) struct Tally {
    pub rows: u32,
    pub differ: u32,
}

impl Tally {
    pub fn new() -> Tally
        ensures { result ≡ no_rows }
    {
        Tally { rows: 0, differ: 0 }
    }

    pub fn with_row(self, differs: bool) -> Tally
        ensures { result ≡ with_row self differs }
    {
        Tally {
            rows: self.rows.saturating_add(1),
            differ: if differs {
                self.differ.saturating_add(1)
            } else {
                self.differ
            },
        }
    }

    /// Writes the last line.
    pub fn tell<W: Write>(self, out: &mut W) -> io::Result<()>
        ensures { OnOk result (Appends (W.contents out.old) (W.contents out.new) (last_line self)) }
    {
        let (rows, differ) = (self.rows, self.differ);
        writeln!(out, "{rows} rows, {differ} differ")?;
        out.flush()
    }

    /// What a program ends with: Ok is exit status 0, and an error 1.
    pub fn status(self) -> Result<()>
        ensures { IsOk result ↔ (self.differ ≡ 0) }
    {
        if self.differ > 0 {
            bail!("not all rows are answered as they should be");
        }
        Ok(())
    }
}
