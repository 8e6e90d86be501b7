//! What a line says.
ghost use Rattle.std.specs.Prelude.{◌≡◌};
ghost use Rattle.schedule_text.specs.Operands.{Gives, listed};
ghost use Rattle.schedule_text.specs.Statements.{bare, with_one, with_two, statement_of};
ghost use Rattle.schedule_text.specs.Reading.{text_in, said};

use crate::fault::{LineKind, StatementFault};
use crate::operands::{alone, document, identified, name, number};
use crate::verb::{Context, Verb};
use crate::words::{Operands, form, words};
use bson_value::{Doc, Text};
use schedule_model::{Command, DocumentCommand, Line};
use std::alloc::Global;
use std::str::from_utf8;

/// What a line says.
#[derive(Drop)]
pub(crate) enum Statement {
    /// The most entries that the oplog keeps, and bytes, where that is bounded.
    Cap { entries: usize, bytes: Option<u64> },
    Document(DocumentCommand),
    /// Another command, or a step of the dump.
    Line(Line),
    Begin,
    Commit,
    Abort,
}

fn command(command: Command) -> Statement
    ensures { result ≡ Statement.Line (Line.Cmd command) }
{
    Statement::Line(Line::Cmd(command))
}

fn bare(verb: Verb) -> Result<Statement, StatementFault>
    ensures { Gives (λ s. s) result (bare verb) }
{
    match verb {
        Verb::Dump => Ok(Statement::Line(Line::Dump)),
        Verb::Mark => Ok(Statement::Line(Line::Mark)),
        Verb::Begin => Ok(Statement::Begin),
        Verb::Commit => Ok(Statement::Commit),
        Verb::Abort => Ok(Statement::Abort),
        _ => Err(StatementFault::Bad(LineKind::Words)),
    }
}

fn recording(word: &str) -> Result<Statement, StatementFault>
    ensures { Gives (λ s. s) result (with_one Verb.Record word.now) }
{
    match form(word) {
        Some(form) => Ok(command(Command::Recording(form))),
        None => Err(StatementFault::Bad(LineKind::Words)),
    }
}

fn with_one(alloc: Global, verb: Verb, word: &str) -> Result<Statement, StatementFault>
    ensures { Gives (λ s. s) result (with_one verb word.now) }
{
    match verb {
        Verb::Oplog => Ok(Statement::Cap {
            entries: number(1, 1000000, word)? as usize,
            bytes: None,
        }),
        Verb::Record => recording(word),
        Verb::At => Ok(command(Command::At(number(0, u32::MAX, word)?))),
        Verb::Create => Ok(command(Command::Create {
            ns: name(alloc, word)?,
            options: Doc::new(alloc),
        })),
        Verb::DropColl => Ok(command(Command::DropColl {
            ns: name(alloc, word)?,
        })),
        Verb::DropDatabase => Ok(command(Command::DropDatabase {
            db: Text::of(alloc, word)?,
        })),
        Verb::Tail => Ok(Statement::Line(Line::Tail {
            n: number(1, 1000000, word)?,
        })),
        _ => Err(StatementFault::Bad(LineKind::Words)),
    }
}

fn cap(entries: &str, bytes: &str) -> Result<Statement, StatementFault>
    ensures { Gives (λ s. s) result (with_two Verb.Oplog entries.now bytes.now) }
{
    let entries = number(1, 1000000, entries)?;
    let bytes = number(1, 1073741824, bytes)?;
    Ok(Statement::Cap {
        entries: entries as usize,
        bytes: Some(u64::from(bytes)),
    })
}

fn rename(alloc: Global, from: &str, to: &str) -> Result<Statement, StatementFault>
    ensures { Gives (λ s. s) result (with_two Verb.Rename from.now to.now) }
{
    let from = name(alloc, from)?;
    let to = name(alloc, to)?;
    Ok(command(Command::Rename { from, to }))
}

fn drop_index(alloc: Global, ns: &str, index: &str) -> Result<Statement, StatementFault>
    ensures { Gives (λ s. s) result (with_two Verb.DropIndex ns.now index.now) }
{
    let ns = name(alloc, ns)?;
    let name = Text::of(alloc, index)?;
    Ok(command(Command::DropIndex { ns, name }))
}

fn copy(alloc: Global, ns: &str, n: &str) -> Result<Statement, StatementFault>
    ensures { Gives (λ s. s) result (with_two Verb.Copy ns.now n.now) }
{
    let n = number(1, 1000000, n)?;
    let ns = name(alloc, ns)?;
    Ok(Statement::Line(Line::Copy { ns, n }))
}

fn update(alloc: Global, ns: &str, text: &str) -> Result<Statement, StatementFault>
    ensures { Gives (λ s. s) result (with_two Verb.Update ns.now text.now) }
{
    let ns = name(alloc, ns)?;
    let doc = document(alloc, text)?;
    let (id, ops) = identified(doc)?;
    Ok(Statement::Document(DocumentCommand::Update { ns, id, ops }))
}

fn delete(alloc: Global, ns: &str, text: &str) -> Result<Statement, StatementFault>
    ensures { Gives (λ s. s) result (with_two Verb.Delete ns.now text.now) }
{
    let ns = name(alloc, ns)?;
    let doc = document(alloc, text)?;
    let (id, others) = identified(doc)?;
    let id = alone(id, others)?;
    Ok(Statement::Document(DocumentCommand::Delete { ns, id }))
}

fn create(alloc: Global, ns: &str, text: &str) -> Result<Statement, StatementFault>
    ensures { Gives (λ s. s) result (with_two Verb.Create ns.now text.now) }
{
    let ns = name(alloc, ns)?;
    let options = document(alloc, text)?;
    Ok(command(Command::Create { ns, options }))
}

fn create_index(alloc: Global, ns: &str, text: &str) -> Result<Statement, StatementFault>
    ensures { Gives (λ s. s) result (with_two Verb.CreateIndex ns.now text.now) }
{
    let ns = name(alloc, ns)?;
    let def = document(alloc, text)?;
    Ok(command(Command::CreateIndex { ns, def }))
}

fn insert(alloc: Global, ns: &str, text: &str) -> Result<Statement, StatementFault>
    ensures { Gives (λ s. s) result (with_two Verb.Insert ns.now text.now) }
{
    let ns = name(alloc, ns)?;
    let doc = document(alloc, text)?;
    Ok(Statement::Document(DocumentCommand::Insert { ns, doc }))
}

fn replace(alloc: Global, ns: &str, text: &str) -> Result<Statement, StatementFault>
    ensures { Gives (λ s. s) result (with_two Verb.Replace ns.now text.now) }
{
    let ns = name(alloc, ns)?;
    let doc = document(alloc, text)?;
    Ok(Statement::Document(DocumentCommand::Replace { ns, doc }))
}

fn with_two(
    alloc: Global,
    verb: Verb,
    first: &str,
    second: &str,
) -> Result<Statement, StatementFault>
    ensures { Gives (λ s. s) result (with_two verb first.now second.now) }
{
    match verb {
        Verb::Oplog => cap(first, second),
        Verb::Rename => rename(alloc, first, second),
        Verb::DropIndex => drop_index(alloc, first, second),
        Verb::Copy => copy(alloc, first, second),
        Verb::Update => update(alloc, first, second),
        Verb::Delete => delete(alloc, first, second),
        Verb::Create => create(alloc, first, second),
        Verb::CreateIndex => create_index(alloc, first, second),
        Verb::Insert => insert(alloc, first, second),
        Verb::Replace => replace(alloc, first, second),
        _ => Err(StatementFault::Bad(LineKind::Words)),
    }
}

#[tactic(auto, unfolding(crate::specs::Statements::statement_of))]
fn statement_of(
    alloc: Global,
    verb: Verb,
    operands: Operands<'_>,
) -> Result<Statement, StatementFault>
    ensures { Gives (λ s. s) result (statement_of verb (listed operands.entry)) }
{
    match operands {
        Operands::None => bare(verb),
        Operands::One(word) => with_one(alloc, verb, word),
        Operands::Two(first, second) => with_two(alloc, verb, first, second),
    }
}

fn text(line: &[u8]) -> Result<&str, StatementFault>
    ensures { Gives (λ t. t.now) result (text_in line.now) }
{
    match from_utf8(line) {
        Ok(text) => Ok(text),
        Err(_) => Err(StatementFault::Bad(LineKind::Utf8)),
    }
}

/// What a line says that stands there.
#[tactic(auto, unfolding(crate::specs::Reading::said))]
pub(crate) fn said(
    alloc: Global,
    context: Context,
    line: &[u8],
) -> Result<Statement, StatementFault>
    ensures { Gives (λ s. s) result (said context line.now) }
{
    let text = text(line)?;
    let (verb, operands) = words(context, text)?;
    statement_of(alloc, verb, operands)
}
