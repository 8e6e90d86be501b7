//! Scripts of worked rows. Each line asks for an answer by a verb and a text, and tells behind ` = ` which answer is wanted:
//! `VERB TEXT = ANSWER`. A line without ` = ` wants the empty answer. Empty lines and lines that begin with `#` are passed over.
//!
//! Beside the run of a script stands what several programs of rows ask by and show: words and answers, names of collections, documents
//! as JSON (`jsons`) and as digits (`spellings`), and ends in memory (`ends`).
#![tactic(auto)]

ghost use Rattle.std.specs.Prelude.{◌≡◌, ℕ, List, ⊤, string_bytes, IfOk, OnOk};
ghost use Rattle.row_script.specs.Runs.{Asks, Takes, Runs, Tells};
ghost use Rattle.row_script.specs.Tallies.{no_rows};
ghost use Rattle.row_script.specs.declared.tally.Tally.{Tally};

pub mod ends;
pub mod jsons;
mod names;
mod rows;
pub mod spellings;
mod tally;
mod texts;

use crate::tally::Tally;
use anyhow::{Context, Result};
pub use names::namespace;
use std::alloc::Global;
use std::io::{Read, Write};
pub use texts::{all_words, answer, bytes, digits, number, refused, truth, words};

/// What answers the rows of a script.
pub trait Respondent {
    // `gives old verb text answer new`: this answer may be given, and leaves this behind. The default says nothing.
    ghost gives: { Self → List ℕ → List ℕ → List ℕ → Self → Type 0 } = { λ _ _ _ _ _. ⊤ };

    fn answer(&mut self, alloc: Global, verb: &str, text: &str) -> Result<String>
        ensures { IfOk result (λ answer. gives self.old verb.now text.now (string_bytes answer) self.new) };
}

/// Asks for each row of a script, and writes a line for each whose answer isn't the wanted one, and the numbers of rows. Ok, which is exit
/// status 0, comes only where no row differs. An error comes where one does, and else from reading, from writing, from what answers or
/// for want of memory, of which no clause tells when.
pub fn run<A: Respondent, R: Read, W: Write>(
    alloc: Global,
    script: &mut R,
    out: &mut W,
    respondent: &mut A,
) -> Result<()>
    ensures { OnOk result ((tally : Tally) × (tally.differ ≡ 0) × Tells A.gives respondent.old (R.remaining script.old)
        (W.contents out.old) tally respondent.new (W.contents out.new)) }
{
    tell(alloc, script, out, respondent)?.status()
}

// Runs a script, and writes the last line.
fn tell<A: Respondent, R: Read, W: Write>(
    alloc: Global,
    script: &mut R,
    out: &mut W,
    respondent: &mut A,
) -> Result<Tally>
    ensures { IfOk result (λ tally. Tells A.gives respondent.old (R.remaining script.old)
        (W.contents out.old) tally respondent.new (W.contents out.new)) }
{
    let mut text = String::new(alloc);
    script.read_to_string(&mut text)?;
    let tally = tally_of(alloc, text.as_str(), out, respondent)?;
    tally.tell(out)?;
    Ok(tally)
}

// Takes each line of a script.
fn tally_of<A: Respondent, W: Write>(
    alloc: Global,
    script: &str,
    out: &mut W,
    respondent: &mut A,
) -> Result<Tally>
    ensures { IfOk result (λ tally. Runs A.gives
        (record { respondent = respondent.old; tally = no_rows; written = W.contents out.old }) script.now
        (record { respondent = respondent.new; tally = tally; written = W.contents out.new })) }
{
    let mut tally = Tally::new();
    for line in script.lines() {
        tally = take(alloc, line, out, respondent, tally)?;
    }
    Ok(tally)
}

// Asks for the row of a line, where it is one.
fn take<A: Respondent, W: Write>(
    alloc: Global,
    line: &str,
    out: &mut W,
    respondent: &mut A,
    tally: Tally,
) -> Result<Tally>
    ensures { IfOk result (λ new. Takes A.gives
        (record { respondent = respondent.old; tally = tally; written = W.contents out.old }) line.now
        (record { respondent = respondent.new; tally = new; written = W.contents out.new })) }
{
    if rows::is_passed_over(line) {
        return Ok(tally);
    }
    ask(alloc, line, out, respondent, tally)
}

// Asks for a row, and tells of it where it differs.
fn ask<A: Respondent, W: Write>(
    alloc: Global,
    line: &str,
    out: &mut W,
    respondent: &mut A,
    tally: Tally,
) -> Result<Tally>
    ensures { IfOk result (λ new. Asks A.gives
        (record { respondent = respondent.old; tally = tally; written = W.contents out.old }) line.now
        (record { respondent = respondent.new; tally = new; written = W.contents out.new })) }
{
    let (asked, wanted) = rows::parted(line);
    let (verb, text) = rows::worded(asked);
    let answer = respondent
        .answer(alloc, verb, text)
        .context(format_args!("{asked}"))?;
    let differs = rows::compare(out, asked, wanted, answer.as_str())?;
    Ok(tally.with_row(differs))
}
