//! Reading a schedule line by line.
ghost use Rattle.std.specs.Prelude.{◌≡◌, ◌≤◌, [], true, Ok, IfOk, OnOk, IsSome};
ghost use Rattle.schedule_text.specs.Reading.{at_start, context_of, with_document, behind, says, said, after_line, with_lines, added, KeepsCap, Gives};

use crate::fault::{LineFault, LineKind, StatementFault};
use crate::lines::{content, is_passed};
use crate::schedule::NumberedLine;
use crate::statement::{Statement, said};
use crate::verb::Context;
use bson_value::List;
use json_text::read_is_json;
use schedule_model::{Command, DocumentCommand, Line};
use std::alloc::Global;

/// The most bytes of a schedule.
const BYTES_LIMIT: usize = 67108864;

/// The most lines of a schedule.
const LINES_LIMIT: u32 = 1048576;

/// Reads the lines of a text one after the other, and keeps none of them: of what it was given it holds the cap, and the commands
/// of a transaction that isn't committed yet.
#[derive(Drop)]
pub struct LineReader {
    /// A line was read that isn't passed over.
    pub begun: bool,
    /// The most entries that the oplog keeps.
    pub cap: usize,
    /// The most bytes of its entries, where that is bounded.
    pub bytes: Option<u64>,
    /// The commands of the open transaction.
    pub transaction: Option<List<DocumentCommand>>,
}

impl LineReader {
    /// A reader of the first line.
    pub fn new() -> LineReader
        ensures { with_lines result [] ≡ at_start }
    {
        LineReader {
            begun: false,
            cap: 1000,
            bytes: None,
            transaction: None,
        }
    }

    fn context(&self) -> Context
        ensures { result ≡ context_of (with_lines self.now []) }
    {
        if !self.begun {
            return Context::Start;
        }
        match self.transaction {
            Some(_) => Context::Inside,
            None => Context::Outside,
        }
    }

    fn take_document(
        &mut self,
        number: u32,
        command: DocumentCommand,
    ) -> Result<Option<NumberedLine>, LineFault>
        ensures { Gives (λ line. with_lines self.new (added line)) result (Ok (with_document (with_lines self.old []) number command self.old.transaction)) }
    {
        match &mut self.transaction {
            Some(commands) => {
                commands.push(command)?;
                Ok(None)
            }
            None => Ok(Some(NumberedLine {
                number,
                line: Line::Cmd(Command::Document(command)),
            })),
        }
    }

    fn commit(&mut self, alloc: Global, number: u32) -> NumberedLine
        ensures { with_lines self.new (added (Some result)) ≡ behind (with_lines self.old []) number Statement.Commit }
    {
        let commands = match self.transaction.take() {
            Some(commands) => commands,
            None => List::new(alloc),
        };
        NumberedLine {
            number,
            line: Line::Cmd(Command::Txn { commands }),
        }
    }

    // What a line of this number says.
    fn take(
        &mut self,
        alloc: Global,
        number: u32,
        statement: Statement,
    ) -> Result<Option<NumberedLine>, LineFault>
        ensures { Gives (λ line. with_lines self.new (added line)) result (Ok (behind (with_lines self.old []) number statement)) }
    {
        match statement {
            Statement::Cap { entries, bytes } => {
                self.cap = entries;
                self.bytes = bytes;
            }
            Statement::Document(command) => return self.take_document(number, command),
            Statement::Line(line) => return Ok(Some(NumberedLine { number, line })),
            Statement::Begin => self.transaction = Some(List::new(alloc)),
            Statement::Commit => return Ok(Some(self.commit(alloc, number))),
            Statement::Abort => self.transaction = None,
        }
        Ok(None)
    }

    // Reads a line that says something.
    fn say(
        &mut self,
        alloc: Global,
        number: u32,
        line: &[u8],
    ) -> Result<Option<NumberedLine>, LineFault>
        ensures { Gives (λ line. with_lines self.new (added line)) result (says (with_lines self.old []) number (said (context_of (with_lines self.old [])) line.now)) }
    {
        match said(alloc, self.context(), line) {
            Ok(statement) => {
                self.begun = true;
                self.take(alloc, number, statement)
            }
            Err(StatementFault::NoMemory) => Err(LineFault::NoMemory),
            Err(StatementFault::Bad(kind)) => Err(LineFault::Bad { line: number, kind }),
        }
    }

    /// Reads the next line, of this number, which ends at `end` in the text. Tells the line of the schedule that it is, where it is
    /// one: a transaction is one with its `commit`. Behind an error the reader is of no use.
    #[tactic(auto, unfolding(crate::specs::Reading::after_line))]
    pub fn line(
        &mut self,
        alloc: Global,
        number: u32,
        end: usize,
        line: &[u8],
    ) -> Result<Option<NumberedLine>, LineFault>
        ensures gives { Gives (λ line. with_lines self.new (added line)) result (after_line (with_lines self.old []) number end line.now) }
        ensures few_bytes { OnOk result (end ≤ 67108864) }
        ensures few_lines { OnOk result (number ≤ 1048576) }
        ensures keeps { OnOk result (KeepsCap self.old self.new) }
        ensures begun { IfOk result (λ line. IsSome line → self.new.begun ≡ true) }
    {
        if end > BYTES_LIMIT || number > LINES_LIMIT {
            return Err(LineFault::Bad {
                line: number,
                kind: LineKind::Limit,
            });
        }
        let line = content(line);
        if is_passed(line) {
            return Ok(None);
        }
        read_is_json();
        self.say(alloc, number, line)
    }
}
