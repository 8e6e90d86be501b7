//! That the documents of lines are well-formed, as their types have it.
ghost use Rattle.std.specs.Prelude.{map as each};
ghost use Rattle.history_model.specs.WellFormed.{IsWellFormedChange, AreWellFormedChanges, IsWellFormedCommand, IsWellFormedLine, AreWellFormedLines};
ghost use Rattle.schedule_report.specs.Schedules.{numbered};

use schedule_model::{Command, DocumentCommand, Line};
use schedule_text::NumberedLine;

fn change_is_well_formed(change: &DocumentCommand)
    ensures { IsWellFormedChange change.now }
{
    match change {
        DocumentCommand::Insert { doc, .. } | DocumentCommand::Replace { doc, .. } =>
            doc.is_well_formed(),
        DocumentCommand::Update { ops, .. } => ops.is_well_formed(),
        DocumentCommand::Delete { .. } => {}
    }
}

fn changes_are_well_formed(changes: &[DocumentCommand])
    ensures { AreWellFormedChanges changes.now }
{
    let mut left = changes;
    'changes: while let Some((change, rest)) = left.split_first() {
        change_is_well_formed(change);
        left = rest;
    }
}

fn line_is_well_formed(line: &Line)
    ensures { IsWellFormedLine line.now }
{
    match line {
        Line::Cmd(Command::Document(change)) => change_is_well_formed(change),
        Line::Cmd(Command::Txn { commands }) => changes_are_well_formed(commands.as_slice()),
        _ => {}
    }
}

/// Does nothing, in time linear in the number of values. Its caller learns that the documents of these lines are well-formed.
pub fn lines_are_well_formed(lines: &[NumberedLine])
    ensures { AreWellFormedLines (each numbered lines.now) }
{
    let mut left = lines;
    'lines: while let Some((line, rest)) = left.split_first() {
        line_is_well_formed(&line.line);
        left = rest;
    }
}
