//! The lines of a schedule, as they are read from an input.
ghost use Rattle.std.specs.Prelude.{◌≡◌, ◌≤◌, ◌<◌, ◌⊎◌, [], length, IfOk, IfErr, OnOk};
ghost use Rattle.schedule_text.specs.Lines.{EndsAt};
ghost use Rattle.schedule_text.specs.Reading.{added, at_start, with_lines, KeepsCap};
ghost use Rattle.schedule_input.specs.Inputs.{Gives, IsFound, IsLast, Leads, Fails, GoesOn, NextIsFurther};

use crate::fault::InputFault;
use crate::piece::{MOST_BYTES, fault_behind, read_line};
use crate::unread::Unread;
use schedule_text::{LineReader, NumberedLine};
use std::alloc::{AllocError, Global};
use std::marker::Model;
use tool_io::Source;

/// So many bytes are read at once.
const PIECE: usize = 65_536;

/// The lines of a schedule that is read from an input, one after the other. What is held is the longest line so far, or a piece of
/// 65,536 bytes, and the commands of a transaction that isn't committed yet.
#[derive(Drop)]
pub struct InputLines {
    reader: LineReader,
    number: u32,
    /// The bytes of the lines that were read.
    end: usize,
    unread: Unread,
    /// Serves again at each read.
    piece: Vec<u8>,
}

impl Model for InputLines {
    ghost use Rattle.std.specs.Prelude.{◌+◌, ◌≤◌, ◌<◌, length};
    ghost use Rattle.schedule_input.specs.Places.{Place, place_code};

    ghost Value = { Place };

    ghost coded = { place_code };

    ghost view = { λ s. record { reader = s.reader; number = s.number; end = s.end; left = s.unread } };

    ghost invariant = { λ s. (s.number ≤ 1048577) × (s.end ≤ 67108864) × (s.end + length s.unread ≤ 67108865) × (0 < length s.piece.items) };
}

// So many zeros.
fn zeros(alloc: Global, count: usize) -> Result<Vec<u8>, AllocError>
    ensures { IfOk result (λ v. length v.items ≡ count) }
{
    vec![in alloc; 0u8; count]
}

impl InputLines {
    /// All lines of an input that was not read yet.
    pub fn new(alloc: Global) -> Result<InputLines, AllocError>
        ensures reader { IfOk result (λ lines. with_lines lines.reader [] ≡ at_start) }
        ensures number { IfOk result (λ lines. lines.number ≡ 1) }
        ensures end { IfOk result (λ lines. lines.end ≡ 0) }
        ensures left { IfOk result (λ lines. lines.left ≡ []) }
    {
        Ok(InputLines {
            reader: LineReader::new(),
            number: 1,
            end: 0,
            unread: Unread::new(alloc),
            piece: zeros(alloc, PIECE)?,
        })
    }

    /// The most entries that the oplog keeps. It stays so once a line was given.
    pub fn cap(&self) -> usize
        ensures { result ≡ self.now.reader.cap }
    {
        self.reader.cap
    }

    /// The most bytes of its entries, where that is bounded. It stays so once a line was given.
    pub fn bytes(&self) -> Option<u64>
        ensures { result ≡ self.now.reader.bytes }
    {
        self.reader.bytes
    }

    // Reads on to the end of the next line of the text. Answers how many bytes it has: none at the end.
    fn find_line<S: Source>(&mut self, input: &mut S) -> Result<usize, InputFault>
        ensures found { IfOk result (λ n. IsFound n self.old self.new (S.end input.old).bytes (S.end input.new).bytes) }
        ensures keeps { OnOk result (KeepsCap self.old.reader self.new.reader) }
        ensures err { IfErr result (λ e. Fails self.old e (S.end input.old) (S.end input.new)) }
        ensures later { (S.end input.old).faults ≤ (S.end input.new).faults }
    {
        read_line(&mut self.unread, &mut self.piece, self.end, input)
    }

    // Takes the next line of the text, of so many bytes. Where it is none of a schedule, the rest of the input is read too, since a
    // read that fails goes before a bad line.
    fn take_line<S: Source>(
        &mut self,
        alloc: Global,
        count: usize,
        input: &mut S,
    ) -> Result<Option<NumberedLine>, InputFault>
        requires some { 0 < count }
        requires within { count ≤ length self.old.left }
        requires ends { EndsAt count self.old.left ⊎ IsLast count self.old.left self.old.end (S.end input.old).bytes }
        ensures ok { IfOk result (λ line. Leads (added line) self.old self.new (S.end input.old).bytes (S.end input.new).bytes) }
        ensures keeps { OnOk result (KeepsCap self.old.reader self.new.reader) }
        ensures goes_on { IfOk result (λ line. GoesOn self.old self.new line) }
        ensures err { IfErr result (λ e. Fails self.old e (S.end input.old) (S.end input.new)) }
        ensures later { (S.end input.old).faults ≤ (S.end input.new).faults }
    {
        let end = self.end + count;
        match self
            .reader
            .line(alloc, self.number, end, &self.unread.bytes()[..count])
        {
            Ok(line) => {
                self.unread.take(count);
                self.end = end;
                self.number += 1;
                Ok(line)
            }
            Err(fault) => {
                let room = MOST_BYTES - self.end - self.unread.bytes().len();
                Err(fault_behind(fault, &mut self.piece, room, input))
            }
        }
    }

    /// Reads on to the next line of the schedule, or to the end. Of a transaction that is its `commit`. A text of more than
    /// 67,108,864 bytes is none of a schedule, and no more of it is read than tells so. Behind an error the lines are of no use.
    pub fn next<S: Source>(
        &mut self,
        alloc: Global,
        input: &mut S,
    ) -> Result<Option<NumberedLine>, InputFault>
        ensures gives { Gives self.old self.new result (S.end input.old) (S.end input.new) }
        ensures keeps { OnOk result (KeepsCap self.old.reader self.new.reader) }
        ensures further { IfOk result (λ line. NextIsFurther self.old self.new line) }
        ensures later { (S.end input.old).faults ≤ (S.end input.new).faults }
    {
        'lines: loop {
            let count = self.find_line(input)?;
            if count == 0 {
                return Ok(None);
            }
            let line = self.take_line(alloc, count, input)?;
            if line.is_some() {
                return Ok(line);
            }
        }
    }
}
