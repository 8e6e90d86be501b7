//! Reading an input in pieces.
ghost use Rattle.std.specs.Prelude.{◌≡◌, ◌+◌, ◌-◌, ◌<◌, ◌≤◌, length, IfOk, IfErr, OnErr};
ghost use Rattle.tool_io.specs.Causes.{Rose};
ghost use Rattle.schedule_input.specs.Inputs.{ReadsMore, IsNext, FailsReading, IsTold};

use crate::fault::InputFault;
use crate::unread::Unread;
use schedule_text::{LineFault, line_end};
use tool_io::{Fault, Source};

/// So many bytes tell that a text is no schedule.
pub(crate) const MOST_BYTES: usize = 67_108_865;

// Reads a piece behind the bytes that are there, of so many bytes at most. Answers whether there were any: none are at the end.
fn read_more<S: Source>(
    unread: &mut Unread,
    piece: &mut [u8],
    room: usize,
    input: &mut S,
) -> Result<bool, InputFault>
    requires { 0 < length piece.old }
    ensures more { IfOk result (λ more. ReadsMore room unread.old unread.new more (S.end input.old).bytes (S.end input.new).bytes) }
    ensures kept { OnErr result (unread.new ≡ unread.old) }
    ensures err { IfErr result (λ e. FailsReading e (S.end input.old).faults (S.end input.new).faults) }
    ensures later { (S.end input.old).faults ≤ (S.end input.new).faults }
{
    let most = piece.len().min(room);
    if most == 0 {
        return Ok(false);
    }
    match input.read(&mut piece[..most]) {
        Ok(count) => {
            unread.push(&piece[..count])?;
            Ok(count != 0)
        }
        Err(_) => Err(InputFault::ReadFault),
    }
}

/// Reads the next line, or what there is of it at the end or where the text is too long. Answers how many bytes it has: none at
/// the end. No byte is searched twice.
pub(crate) fn read_line<S: Source>(
    unread: &mut Unread,
    piece: &mut [u8],
    end: usize,
    input: &mut S,
) -> Result<usize, InputFault>
    requires piece { 0 < length piece.old }
    requires within { end + length unread.old ≤ 67108865 }
    ensures line { IfOk result (λ n. IsNext n unread.old unread.new end (S.end input.old).bytes (S.end input.new).bytes) }
    ensures count { IfOk result (λ n. n ≤ length unread.new) }
    ensures within { end + length unread.new ≤ 67108865 }
    ensures err { IfErr result (λ e. FailsReading e (S.end input.old).faults (S.end input.new).faults) }
    ensures later { (S.end input.old).faults ≤ (S.end input.new).faults }
{
    let mut searched = 0;
    'pieces: loop {
        if let Some(count) = line_end(&unread.bytes()[searched..]) {
            return Ok(searched + count);
        }
        searched = unread.bytes().len();
        let room = MOST_BYTES - end - searched;
        if !read_more(unread, piece, room, input)? {
            return Ok(searched);
        }
    }
}

// Reads on to the end, so many bytes at most, and keeps nothing.
fn pass_over<S: Source>(piece: &mut [u8], mut room: usize, input: &mut S) -> Result<(), InputFault>
    requires { 0 < length piece.old }
    ensures err { IfErr result (λ e. FailsReading e (S.end input.old).faults (S.end input.new).faults) }
    ensures later { (S.end input.old).faults ≤ (S.end input.new).faults }
{
    'pieces: while room > 0 {
        let most = piece.len().min(room);
        match input.read(&mut piece[..most]) {
            Ok(0) => return Ok(()),
            Ok(count) => room -= count,
            Err(_) => return Err(InputFault::ReadFault),
        }
    }
    Ok(())
}

/// What is told where a line wasn't read. Where it is none of a schedule, the rest of the input is read too, so many bytes at most,
/// since a read that fails goes before it.
pub(crate) fn fault_behind<S: Source>(
    fault: LineFault,
    piece: &mut [u8],
    room: usize,
    input: &mut S,
) -> InputFault
    requires { 0 < length piece.old }
    ensures told { IsTold fault result (S.end input.old).faults (S.end input.new).faults }
    ensures later { (S.end input.old).faults ≤ (S.end input.new).faults }
{
    match fault {
        LineFault::NoMemory => InputFault::NoMemory,
        LineFault::Bad { line, kind } => match pass_over(piece, room, input) {
            Ok(()) => InputFault::Bad { line, kind },
            Err(fault) => fault,
        },
    }
}
