//! Checking a document without taking memory.
ghost use Rattle.std.specs.Prelude.{◌≡◌, ◌+◌, ◌<◌, ◌≤◌, ◌↔◌, [], length, IfOk, IsOk, drop};
ghost use Rattle.std.specs.Result.{result_err};
ghost use Rattle.bson_check.specs.Reading.{Reads, rests, void, run_at, int_at, text_at, item_at, fields_at, items_at, value_at, document_at, array_at, scoped_at, document_of};
ghost use Rattle.bson_check.specs.Spells.{IsSomeDocument};
ghost use Rattle.bson_check.specs.Faults.{first_fault};
ghost use Rattle.bson_check.specs.Passing.{count_of, jump};

use crate::fault::{BsonFault, BsonKind};
use crate::name_set::NameSet;
use crate::parts::{
    binary, boolean, fault, frame, head, int, is_type, name, number_of, pointer, regex, run, text,
    total,
};
use crate::passing::after;
use crate::repeats::first_fault;

// Skips the first `n` bytes. An int32 is four.
#[tactic(auto, unfolding(crate::specs::Reading::run_at, crate::specs::Reading::int_at))]
fn skip(n: usize, end: usize, bytes: &[u8]) -> Result<&[u8], BsonFault>
    requires { length bytes.now ≤ end }
    ensures skips { Reads (λ r. r.now) result (rests (run_at n end bytes.now)) }
    ensures int { n ≡ 4 → Reads (λ r. r.now) result (rests (int_at end bytes.now)) }
    ensures fits { IfOk result (λ r. length r.now ≤ length bytes.now) }
    ensures jumps { IfOk result (λ r. r.now ≡ drop n bytes.now) }
{
    if bytes.len() < n {
        return Err(fault(BsonKind::Length, end - bytes.len()));
    }
    Ok(&bytes[n..])
}

// Skips a string.
#[inline(always)]
fn string(end: usize, bytes: &[u8]) -> Result<&[u8], BsonFault>
    requires { length bytes.now ≤ end }
    ensures skips { Reads (λ r. r.now) result (rests (text_at end bytes.now)) }
    ensures fits { IfOk result (λ r. length r.now ≤ length bytes.now) }
    ensures jumps { IfOk result (λ r. r.now ≡ drop (count_of bytes.now + 4) bytes.now) }
{
    let (_, rest) = text(end, bytes)?;
    Ok(rest)
}

#[tactic(auto, unfolding(crate::specs::Reading::value_with, crate::specs::Passing::jump))]
#[cycle(check)]
#[inline(never)]
fn any_value(levels: usize, tag: u8, end: usize, bytes: &[u8]) -> Result<&[u8], BsonFault>
    requires { length bytes.now ≤ end }
    ensures skips { Reads (λ r. r.now) result (rests (value_at levels tag end bytes.now)) }
    ensures fits { IfOk result (λ r. length r.now ≤ length bytes.now) }
    ensures jumps { IfOk result (λ r. r.now ≡ jump tag bytes.now) }
{
    match tag {
        1 => {
            let (_, rest) = run(8, end, bytes)?;
            Ok(rest)
        }
        2 => {
            let (_, rest) = text(end, bytes)?;
            Ok(rest)
        }
        3 => document(levels, end, bytes),
        4 => array(levels, end, bytes),
        5 => {
            let (_, _, rest) = binary(end, bytes)?;
            Ok(rest)
        }
        6 => Ok(bytes),
        7 => {
            let (_, rest) = run(12, end, bytes)?;
            Ok(rest)
        }
        8 => {
            let (_, rest) = boolean(end, bytes)?;
            Ok(rest)
        }
        9 => {
            let (_, rest) = run(8, end, bytes)?;
            Ok(rest)
        }
        10 => Ok(bytes),
        11 => {
            let pair = regex(end, bytes)?;
            Ok(pair.after)
        }
        12 => {
            let (_, _, rest) = pointer(end, bytes)?;
            Ok(rest)
        }
        13 => {
            let (_, rest) = text(end, bytes)?;
            Ok(rest)
        }
        14 => {
            let (_, rest) = text(end, bytes)?;
            Ok(rest)
        }
        15 => scoped(levels, end, bytes),
        16 => {
            let (_, rest) = int(end, bytes)?;
            Ok(rest)
        }
        17 => {
            let (_, rest) = run(8, end, bytes)?;
            Ok(rest)
        }
        18 => {
            let (_, rest) = run(8, end, bytes)?;
            Ok(rest)
        }
        19 => {
            let (_, rest) = run(16, end, bytes)?;
            Ok(rest)
        }
        255 => Ok(bytes),
        127 => Ok(bytes),
        _ => Err(fault(BsonKind::Tag, end - bytes.len())),
    }
}

// The commonest types are looked for first, at the place of the call.
#[tactic(auto, unfolding(crate::specs::Reading::value_with, crate::specs::Passing::jump))]
#[cycle(check)]
#[inline(always)]
fn value(levels: usize, tag: u8, end: usize, bytes: &[u8]) -> Result<&[u8], BsonFault>
    requires { length bytes.now ≤ end }
    ensures skips { Reads (λ r. r.now) result (rests (value_at levels tag end bytes.now)) }
    ensures fits { IfOk result (λ r. length r.now ≤ length bytes.now) }
    ensures jumps { IfOk result (λ r. r.now ≡ jump tag bytes.now) }
{
    match tag {
        1 | 9 | 17 | 18 => skip(8, end, bytes),
        2 => string(end, bytes),
        3 => document(levels, end, bytes),
        7 => skip(12, end, bytes),
        16 => skip(4, end, bytes),
        _ => any_value(levels, tag, end, bytes),
    }
}

#[tactic(auto, unfolding(crate::specs::Reading::document_at))]
#[cycle(check)]
#[inline(always)]
fn document(levels: usize, end: usize, bytes: &[u8]) -> Result<&[u8], BsonFault>
    requires { length bytes.now ≤ end }
    ensures skips { Reads (λ r. r.now) result (rests (document_at levels end bytes.now)) }
    ensures fits { IfOk result (λ r. length r.now ≤ length bytes.now) }
    ensures jumps { IfOk result (λ r. r.now ≡ drop (count_of bytes.now) bytes.now) }
{
    let open = frame(levels, end, bytes)?;
    fields(levels - 1, open.stop, open.body)?;
    if open.last != 0 {
        return Err(fault(BsonKind::Length, open.stop));
    }
    Ok(open.after)
}

#[tactic(auto, unfolding(crate::specs::Reading::array_at))]
#[cycle(check)]
fn array(levels: usize, end: usize, bytes: &[u8]) -> Result<&[u8], BsonFault>
    requires { length bytes.now ≤ end }
    ensures skips { Reads (λ r. r.now) result (rests (array_at levels end bytes.now)) }
    ensures fits { IfOk result (λ r. length r.now ≤ length bytes.now) }
    ensures jumps { IfOk result (λ r. r.now ≡ drop (count_of bytes.now) bytes.now) }
{
    let open = frame(levels, end, bytes)?;
    items(levels - 1, open.stop, open.body)?;
    if open.last != 0 {
        return Err(fault(BsonKind::Length, open.stop));
    }
    Ok(open.after)
}

#[tactic(auto, unfolding(crate::specs::Reading::scoped_at))]
#[cycle(check)]
fn scoped(levels: usize, end: usize, bytes: &[u8]) -> Result<&[u8], BsonFault>
    requires { length bytes.now ≤ end }
    ensures skips { Reads (λ r. r.now) result (rests (scoped_at levels end bytes.now)) }
    ensures fits { IfOk result (λ r. length r.now ≤ length bytes.now) }
    ensures jumps { IfOk result (λ r. r.now ≡ drop (count_of bytes.now) bytes.now) }
{
    let open = total(levels, end, bytes)?;
    fields(levels - 1, open.scope.stop, open.scope.body)?;
    if open.scope.last != 0 {
        return Err(fault(BsonKind::Length, open.scope.stop));
    }
    Ok(open.scope.after)
}

#[tactic(auto, unfolding(crate::specs::Reading::item_at))]
#[cycle(check)]
fn item(levels: usize, end: usize, tag: u8, bytes: &[u8]) -> Result<&[u8], BsonFault>
    requires { length bytes.now < end }
    ensures skips { Reads (λ r. r.now) result (rests (item_at (value_at levels) end tag bytes.now)) }
    ensures fits { IfOk result (λ r. length r.now ≤ length bytes.now) }
{
    if !is_type(tag) {
        return Err(fault(BsonKind::Tag, end - bytes.len() - 1));
    }
    let (_, rest) = name(end, bytes)?;
    value(levels, tag, end, rest)
}

#[cycle(check)]
fn fields(levels: usize, end: usize, body: &[u8]) -> Result<(), BsonFault>
    requires { length body.now ≤ end }
    ensures { Reads (λ u. u) result (void (fields_at (value_at levels) (length body.now) end [] body.now)) }
{
    let mut rest = body;
    let mut names = NameSet::new();
    'fields: while let Some((tag, bytes)) = rest.split_first() {
        match head(end, *tag, bytes) {
            Err(f) => return Err(first_fault(end, body, rest.len(), f)),
            Ok((name, behind)) => match value(levels, *tag, end, behind) {
                Err(f) => return Err(first_fault(end, body, after(*tag, behind).len(), f)),
                Ok(next) => {
                    // One name alone can't stand twice.
                    if next.is_empty() && rest.len() == body.len() {
                        return Ok(());
                    }
                    names.insert(name.as_bytes());
                    rest = next;
                }
            },
        }
    }
    match names.first_repeat(end, body) {
        Some(at) => Err(fault(BsonKind::Repeat, at)),
        None => Ok(()),
    }
}

#[cycle(check)]
fn items(levels: usize, end: usize, body: &[u8]) -> Result<(), BsonFault>
    requires { length body.now ≤ end }
    ensures { Reads (λ u. u) result (void (items_at (value_at levels) (length body.now) end [] body.now)) }
{
    let mut rest = body;
    'items: while let Some((tag, behind)) = rest.split_first() {
        rest = item(levels, end, *tag, behind)?;
    }
    Ok(())
}

#[tactic(auto, unfolding(crate::specs::Reading::document_of))]
fn whole(bytes: &[u8], max: usize, depth: usize) -> Result<(), BsonFault>
    ensures { Reads (λ u. u) result (void (document_of max depth bytes.now)) }
{
    let len = bytes.len();
    if len < 4 {
        return Err(fault(BsonKind::Short, len));
    }
    let count = number_of(bytes) as usize;
    if count < 5 || 2147483647 < count {
        return Err(fault(BsonKind::Length, 0));
    }
    if max < count {
        return Err(fault(BsonKind::TooLong, 0));
    }
    if len < count {
        return Err(fault(BsonKind::Short, len));
    }
    if count < len {
        return Err(fault(BsonKind::Length, 0));
    }
    document(depth, len, bytes)?;
    Ok(())
}

/// Whether the bytes, all of them, are one document of at most `max` bytes and `depth` levels. Else it
/// answers the first fault from the left, with its place in the bytes. It takes no memory; its stack grows with the levels,
/// of which there are at most `depth`.
pub fn check(bytes: &[u8], max: usize, depth: usize) -> Result<(), BsonFault>
    ensures spelled { IsOk result ↔ IsSomeDocument max depth bytes.now }
    ensures fault { result_err result ≡ first_fault max depth bytes.now }
    ensures exact { Reads (λ u. u) result (void (document_of max depth bytes.now)) }
{
    whole(bytes, max, depth)
}
