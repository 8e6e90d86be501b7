//! The parts of a row, and the line that tells of one that differs.
ghost use Rattle.std.specs.Prelude.{◌≡◌, ◌≢◌, ◌↔◌, [], IsTrue, IfOk, OnOk};
ghost use Rattle.std.specs.Io.KnownBytes.{Appends};
ghost use Rattle.row_script.specs.Rows.{is_passed_over, IsRow, before_blank, behind_blank, differs, told};

use std::io::{self, Write};

pub(crate) fn is_passed_over(line: &str) -> bool
    ensures { result ≡ is_passed_over line.now }
{
    line.is_empty() || line.starts_with('#')
}

// What a row asks, and the answer that it wants.
pub(crate) fn parted(line: &str) -> (&str, &str)
    ensures { IsRow line.now (record { asked = result.0.now; wanted = result.1.now }) }
{
    match line.split_once(" = ") {
        Some(parts) => parts,
        None => (line, ""),
    }
}

// The verb of what is asked, and its text.
pub(crate) fn worded(asked: &str) -> (&str, &str)
    ensures verb { result.0.now ≡ before_blank asked.now }
    ensures text { result.1.now ≡ behind_blank asked.now }
{
    match asked.split_once(' ') {
        Some(parts) => parts,
        None => (asked, ""),
    }
}

fn differs(wanted: &str, answer: &str) -> bool
    ensures value { result ≡ differs (record { asked = []; wanted = wanted.now }) answer.now }
    ensures is { IsTrue result ↔ (answer.now ≢ wanted.now) }
{
    answer != wanted
}

// Tells of a row that differs, and nothing of another one. Whether it differs.
pub(crate) fn compare<W: Write>(
    out: &mut W,
    asked: &str,
    wanted: &str,
    answer: &str,
) -> io::Result<bool>
    ensures differs { IfOk result (λ is_so. is_so ≡ differs (record { asked = asked.now; wanted = wanted.now }) answer.now) }
    ensures told { OnOk result (Appends (W.contents out.old) (W.contents out.new)
        (told (record { asked = asked.now; wanted = wanted.now }) answer.now)) }
{
    let differs = differs(wanted, answer);
    if differs {
        writeln!(out, "{asked} = {answer}, not {wanted}")?;
    }
    Ok(differs)
}
