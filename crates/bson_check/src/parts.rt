//! The parts of a document's bytes, read without memory.
//!
//! Each reader takes the bytes from its part on, and `end`: the place, in bytes from the document's start, at which
//! these bytes end. So a fault's place is `end` less what is left. It gives what it read and the bytes behind it.
ghost use Rattle.std.specs.Prelude.{◌≡◌, ◌+◌, ◌-◌, ◌*◌, ◌<◌, ◌≤◌, [], ◌∷◌, ◌++◌, length, slice_index, ◌^◌, List, ℕ, ◌==◌, IfSome, IfOk, Contains, MatchOption, OnOk, OnErr, true, false, take, drop, Ok, Some, None, IfNone, IsTrue};
ghost use Rattle.std.specs.Str.{is_utf8, IsAscii};
ghost use Rattle.std.specs.List.{position_from};
ghost use Rattle.bson_check.specs.Passing.{count_of, past_zero, upto_zero, head_at};
ghost use Rattle.bson_check.specs.Reading.{Reads, number, int_at, bool_at, text_at, frame_at, Frame, name_at, is_type, run_at, raw_at, binary_at, cut_at, regex_at, pointer_at, scope_at, total_at, long_of, stamp_of, Scoped};

use crate::fault::{BsonFault, BsonKind};
use bson_value::{Ts, Value};

/// A fault of this kind, `at` bytes from the start of the document.
pub fn fault(kind: BsonKind, at: usize) -> BsonFault
    ensures { result ≡ (record { kind = kind; at = at }) }
{
    BsonFault { kind, at }
}

/// The number in the first four bytes, the least first.
#[tactic(auto, unfolding(crate::specs::Reading::number))]
pub fn number_of(bytes: &[u8]) -> u32
    requires { 4 ≤ length bytes.now }
    ensures { result ≡ number bytes.now }
{
    u32::from_le_bytes([bytes[0], bytes[1], bytes[2], bytes[3]])
}

/// The eight bytes of a run.
pub fn eight(run: &[u8]) -> [u8; 8]
    requires { length run.now ≡ 8 }
    ensures { result ≡ run.now }
{
    let mut out = [0; 8];
    out.copy_from_slice(run);
    out
}

/// The twelve bytes of a run.
pub fn twelve(run: &[u8]) -> [u8; 12]
    requires { length run.now ≡ 12 }
    ensures { result ≡ run.now }
{
    let mut out = [0; 12];
    out.copy_from_slice(run);
    out
}

/// The sixteen bytes of a run.
pub fn sixteen(run: &[u8]) -> [u8; 16]
    requires { length run.now ≡ 16 }
    ensures { result ≡ run.now }
{
    let mut out = [0; 16];
    out.copy_from_slice(run);
    out
}

/// The number in the eight bytes of a run, the least first, in two's complement.
pub fn long(run: &[u8]) -> i64
    requires { length run.now ≡ 8 }
    ensures { result ≡ long_of run.now }
{
    i64::from_le_bytes(eight(run))
}

/// The timestamp in the eight bytes of a run: the ordinal, then the seconds.
pub fn stamp(run: &[u8]) -> Ts
    requires { length run.now ≡ 8 }
    ensures { result ≡ stamp_of run.now }
{
    Ts {
        secs: number_of(&run[4..]),
        inc: number_of(run),
    }
}

/// An int32: four bytes, the least first, in two's complement.
#[tactic(auto, unfolding(crate::specs::Reading::int_at))]
pub fn int(end: usize, bytes: &[u8]) -> Result<(Value, &[u8]), BsonFault>
    requires { length bytes.now ≤ end }
    ensures gives { Reads (λ x. (x.0, x.1.now)) result (int_at end bytes.now) }
    ensures fits { IfOk result (λ x. length x.1.now ≤ length bytes.now) }
    ensures jumps { IfOk result (λ x. x.1.now ≡ drop 4 bytes.now) }
{
    if bytes.len() < 4 {
        return Err(fault(BsonKind::Length, end - bytes.len()));
    }
    Ok((Value::Int(number_of(bytes).cast_signed()), &bytes[4..]))
}

/// One byte, which is 0 or 1.
#[tactic(auto, unfolding(crate::specs::Reading::bool_at))]
pub fn boolean(end: usize, bytes: &[u8]) -> Result<(Value, &[u8]), BsonFault>
    requires { length bytes.now ≤ end }
    ensures gives { Reads (λ x. (x.0, x.1.now)) result (bool_at end bytes.now) }
    ensures fits { IfOk result (λ x. length x.1.now ≤ length bytes.now) }
    ensures jumps { IfOk result (λ x. x.1.now ≡ drop 1 bytes.now) }
{
    match bytes {
        [] => Err(fault(BsonKind::Length, end)),
        [0, rest @ ..] => Ok((Value::Bool(false), rest)),
        [1, rest @ ..] => Ok((Value::Bool(true), rest)),
        [_, ..] => Err(fault(BsonKind::Bool, end - bytes.len())),
    }
}

/// Whether every byte is ASCII. It looks at all of them without a branch, which LLVM does many bytes at a time.
fn is_ascii(bytes: &[u8]) -> bool
    ensures { IsTrue result → IsAscii bytes.now }
{
    let mut seen = 0u8;
    for byte in bytes {
        seen |= *byte;
    }
    seen < 128
}

/// Whether the bytes are UTF-8. Most texts are ASCII, which is quicker to see.
fn is_text(bytes: &[u8], ascii: bool) -> bool
    requires { IsTrue ascii → IsAscii bytes.now }
    ensures { result ≡ is_utf8 bytes.now }
{
    if ascii {
        return true;
    }
    match str::from_utf8(bytes) {
        Ok(_) => true,
        Err(_) => false,
    }
}

/// The bytes as a text, where they are UTF-8.
pub fn as_text(bytes: &[u8]) -> Option<&str>
    ensures { MatchOption result (is_utf8 bytes.now ≡ false) (λ text. (is_utf8 bytes.now ≡ true) × (text.now ≡ bytes.now)) }
{
    if !is_text(bytes, is_ascii(bytes)) {
        return None;
    }
    Some(unsafe { str::from_utf8_unchecked(bytes) })
}

/// A string: its length with the final zero in four bytes, its text in UTF-8, a zero.
#[tactic(auto, unfolding(crate::specs::Reading::text_at, crate::specs::Passing::count_of))]
#[inline(always)]
pub fn text(end: usize, bytes: &[u8]) -> Result<(&str, &[u8]), BsonFault>
    requires { length bytes.now ≤ end }
    ensures gives { Reads (λ x. (x.0.now, x.1.now)) result (text_at end bytes.now) }
    ensures fits { IfOk result (λ x. length x.1.now ≤ length bytes.now) }
    ensures jumps { IfOk result (λ x. x.1.now ≡ drop (count_of bytes.now + 4) bytes.now) }
{
    let at = end - bytes.len();
    if bytes.len() < 4 {
        return Err(fault(BsonKind::Length, at));
    }
    let count = number_of(bytes) as usize;
    if count == 0 || bytes.len() - 4 < count {
        return Err(fault(BsonKind::Length, at));
    }
    if bytes[count + 3] != 0 {
        return Err(fault(BsonKind::Length, at));
    }
    match as_text(&bytes[4..count + 3]) {
        Some(text) => Ok((text, &bytes[count + 4..])),
        None => Err(fault(BsonKind::Text, at)),
    }
}

/// The first `n` bytes as they are.
#[tactic(auto, unfolding(crate::specs::Reading::run_at))]
pub fn run(n: usize, end: usize, bytes: &[u8]) -> Result<(&[u8], &[u8]), BsonFault>
    requires { length bytes.now ≤ end }
    ensures gives { Reads (λ x. (x.0.now, x.1.now)) result (run_at n end bytes.now) }
    ensures fits { IfOk result (λ x. length x.1.now ≤ length bytes.now) }
    ensures count { IfOk result (λ x. length x.0.now ≡ n) }
    ensures jumps { IfOk result (λ x. x.1.now ≡ drop n bytes.now) }
{
    if bytes.len() < n {
        return Err(fault(BsonKind::Length, end - bytes.len()));
    }
    Ok((&bytes[..n], &bytes[n..]))
}

/// A string before its text is decoded. A fault stands at `at`.
#[tactic(auto, unfolding(crate::specs::Reading::raw_at, crate::specs::Passing::count_of))]
pub fn raw(at: usize, bytes: &[u8]) -> Result<(&[u8], &[u8]), BsonFault>
    ensures gives { Reads (λ x. (x.0.now, x.1.now)) result (raw_at at bytes.now) }
    ensures fits { IfOk result (λ x. length x.1.now ≤ length bytes.now) }
    ensures jumps { IfOk result (λ x. (x.1.now ≡ drop (count_of bytes.now + 4) bytes.now)) }
{
    if bytes.len() < 4 {
        return Err(fault(BsonKind::Length, at));
    }
    let count = number_of(bytes) as usize;
    if count == 0 || bytes.len() - 4 < count {
        return Err(fault(BsonKind::Length, at));
    }
    if bytes[count + 3] != 0 {
        return Err(fault(BsonKind::Length, at));
    }
    Ok((&bytes[4..count + 3], &bytes[count + 4..]))
}

/// A binary: the length of its content in four bytes, its subtype, its content. The length within the content of subtype 02 isn't looked at.
#[tactic(auto, unfolding(crate::specs::Reading::binary_at, crate::specs::Passing::count_of))]
pub fn binary(end: usize, bytes: &[u8]) -> Result<(u8, &[u8], &[u8]), BsonFault>
    requires { length bytes.now ≤ end }
    ensures gives { Reads (λ x. ((x.0, x.1.now), x.2.now)) result (binary_at end bytes.now) }
    ensures fits { IfOk result (λ x. length x.2.now ≤ length bytes.now) }
    ensures jumps { IfOk result (λ x. x.2.now ≡ drop (count_of bytes.now + 5) bytes.now) }
{
    let at = end - bytes.len();
    if bytes.len() < 5 {
        return Err(fault(BsonKind::Length, at));
    }
    let count = number_of(bytes) as usize;
    if bytes.len() - 5 < count {
        return Err(fault(BsonKind::Length, at));
    }
    Ok((bytes[4], &bytes[5..count + 5], &bytes[count + 5..]))
}

/// The bytes up to the first zero. A fault stands at `at`.
#[tactic(auto, unfolding(crate::specs::Reading::cut_at, crate::specs::Passing::past_zero))]
pub fn cut(at: usize, bytes: &[u8]) -> Result<(&[u8], &[u8]), BsonFault>
    ensures gives { Reads (λ x. (x.0.now, x.1.now)) result (cut_at at bytes.now) }
    ensures fits { IfOk result (λ x. length x.1.now ≤ length bytes.now) }
    ensures no_zero { IfOk result (λ x. Contains x.0.now 0 → ⊥) }
    ensures jumps { IfOk result (λ x. x.1.now ≡ past_zero bytes.now) }
{
    match zero_place(bytes) {
        Some(i) => Ok((&bytes[..i], &bytes[i + 1..])),
        None => Err(fault(BsonKind::Length, at)),
    }
}

/// The two texts of a regular expression, pattern and options, and the bytes behind them.
#[derive(Drop)]
pub struct Pair<'a> {
    pub first: &'a str,
    pub second: &'a str,
    pub after: &'a [u8],
}

/// Two texts, each with a zero behind it. Both zeros are looked for before either text is decoded.
#[tactic(auto, unfolding(crate::specs::Reading::regex_at))]
pub fn regex(end: usize, bytes: &[u8]) -> Result<Pair<'_>, BsonFault>
    requires { length bytes.now ≤ end }
    ensures gives { Reads (λ p. ((p.first.now, p.second.now), p.after.now)) result (regex_at end bytes.now) }
    ensures fits { IfOk result (λ p. length p.after.now ≤ length bytes.now) }
    ensures no_zero { IfOk result (λ p. (Contains p.first.now 0 → ⊥) × (Contains p.second.now 0 → ⊥)) }
    ensures jumps { IfOk result (λ x. x.after.now ≡ past_zero (past_zero bytes.now)) }
{
    let at = end - bytes.len();
    let (pattern, behind) = cut(at, bytes)?;
    let (options, after) = cut(at, behind)?;
    match as_text(pattern) {
        None => Err(fault(BsonKind::Text, at)),
        Some(first) => match as_text(options) {
            None => Err(fault(BsonKind::Text, at)),
            Some(second) => Ok(Pair {
                first,
                second,
                after,
            }),
        },
    }
}

/// A DbPointer: a string and twelve bytes, all of which are looked for before the string is decoded.
#[tactic(auto, unfolding(crate::specs::Reading::pointer_at, crate::specs::Passing::count_of))]
pub fn pointer(end: usize, bytes: &[u8]) -> Result<(&str, &[u8], &[u8]), BsonFault>
    requires { length bytes.now ≤ end }
    ensures gives { Reads (λ x. ((x.0.now, x.1.now), x.2.now)) result (pointer_at end bytes.now) }
    ensures fits { IfOk result (λ x. length x.2.now ≤ length bytes.now) }
    ensures count { IfOk result (λ x. length x.1.now ≡ 12) }
    ensures jumps { IfOk result (λ x. x.2.now ≡ drop 12 (drop (count_of bytes.now + 4) bytes.now)) }
{
    let at = end - bytes.len();
    let (ns, behind) = raw(at, bytes)?;
    if behind.len() < 12 {
        return Err(fault(BsonKind::Length, at));
    }
    match as_text(ns) {
        None => Err(fault(BsonKind::Text, at)),
        Some(ns) => Ok((ns, &behind[..12], &behind[12..])),
    }
}

/// A document or an array whose frame was read: the bytes of its elements, the place at which they end, the byte there, and the bytes behind it.
#[derive(Drop)]
pub struct Open<'a> {
    pub body: &'a [u8],
    pub stop: usize,
    pub last: u8,
    pub after: &'a [u8],
}

/// The frame of a document or an array: its length, itself with it, in four bytes, its elements, and one byte more. It needs a level.
#[tactic(auto, unfolding(crate::specs::Reading::frame_at, crate::specs::Passing::count_of))]
pub fn frame(levels: usize, end: usize, bytes: &[u8]) -> Result<Open<'_>, BsonFault>
    requires { length bytes.now ≤ end }
    ensures gives { Reads (λ f. record { body = f.body.now; stop = f.stop; last = f.last; after = f.after.now }) result (frame_at levels end bytes.now) }
    ensures fits { IfOk result (λ f. (length f.body.now ≤ f.stop) × (length f.after.now ≤ length bytes.now)) }
    ensures levels { OnOk result (0 < levels) }
    ensures jumps { IfOk result (λ x. x.after.now ≡ drop (count_of bytes.now) bytes.now) }
{
    let at = end - bytes.len();
    if bytes.len() < 4 {
        return Err(fault(BsonKind::Length, at));
    }
    let count = number_of(bytes) as usize;
    if count < 5 || bytes.len() < count {
        return Err(fault(BsonKind::Length, at));
    }
    if levels == 0 {
        return Err(fault(BsonKind::Deep, at));
    }
    Ok(Open {
        body: &bytes[4..count - 1],
        stop: at + (count - 1),
        last: bytes[count - 1],
        after: &bytes[count..],
    })
}

/// A code with a scope whose parts were read.
#[derive(Drop)]
pub struct OpenScope<'a> {
    pub code: &'a str,
    pub scope: Open<'a>,
}

/// The scope of a code, which fills these bytes, and the code, in UTF-8. A fault stands at `at`, and the scope's elements end at `stop`.
#[tactic(auto, unfolding(crate::specs::Reading::scope_at))]
pub fn scope<'a>(
    levels: usize,
    at: usize,
    stop: usize,
    after: &'a [u8],
    code: &'a [u8],
    bytes: &'a [u8],
) -> Result<OpenScope<'a>, BsonFault>
    requires { length bytes.now ≤ stop + 1 }
    ensures gives { Reads (λ s. record { code = s.code.now; scope = record { body = s.scope.body.now; stop = s.scope.stop; last = s.scope.last; after = s.scope.after.now } }) result (scope_at levels at stop after.now code.now bytes.now) }
    ensures fits { IfOk result (λ s. (length s.scope.body.now ≤ s.scope.stop) × (length s.scope.after.now ≤ length after.now)) }
    ensures levels { OnOk result (0 < levels) }
    ensures after { IfOk result (λ s. s.scope.after.now ≡ after.now) }
{
    if bytes.len() < 5 {
        return Err(fault(BsonKind::Length, at));
    }
    if number_of(bytes) as usize != bytes.len() {
        return Err(fault(BsonKind::Length, at));
    }
    if levels == 0 {
        return Err(fault(BsonKind::Deep, at));
    }
    match as_text(code) {
        None => Err(fault(BsonKind::Text, at)),
        Some(code) => Ok(OpenScope {
            code,
            scope: Open {
                body: &bytes[4..bytes.len() - 1],
                stop,
                last: bytes[bytes.len() - 1],
                after,
            },
        }),
    }
}

/// A code with a scope: its length, itself with it, in four bytes, a string and a document that fill it.
#[tactic(auto, unfolding(crate::specs::Reading::total_at, crate::specs::Passing::count_of))]
pub fn total(levels: usize, end: usize, bytes: &[u8]) -> Result<OpenScope<'_>, BsonFault>
    requires { length bytes.now ≤ end }
    ensures gives { Reads (λ s. record { code = s.code.now; scope = record { body = s.scope.body.now; stop = s.scope.stop; last = s.scope.last; after = s.scope.after.now } }) result (total_at levels end bytes.now) }
    ensures fits { IfOk result (λ s. (length s.scope.body.now ≤ s.scope.stop) × (length s.scope.after.now ≤ length bytes.now)) }
    ensures levels { OnOk result (0 < levels) }
    ensures jumps { IfOk result (λ x. x.scope.after.now ≡ drop (count_of bytes.now) bytes.now) }
{
    let at = end - bytes.len();
    if bytes.len() < 4 {
        return Err(fault(BsonKind::Length, at));
    }
    let count = number_of(bytes) as usize;
    if count < 14 || bytes.len() < count {
        return Err(fault(BsonKind::Length, at));
    }
    let (code, behind) = raw(at, &bytes[4..count])?;
    scope(levels, at, at + (count - 1), &bytes[count..], code, behind)
}

/// How many bytes stand before the first zero.
pub fn zero_place(bytes: &[u8]) -> Option<usize>
    ensures place { result ≡ position_from (λ b. b == 0) 0 bytes.now }
    ensures within { IfSome result (λ i. i < length bytes.now) }
    ensures no_zero { IfSome result (λ i. Contains (take i bytes.now) 0 → ⊥) }
{
    bytes.iter().position(|b| *b == 0)
}

/// The name of an element: the bytes up to a zero.
#[tactic(auto, unfolding(crate::specs::Reading::name_at, crate::specs::Passing::past_zero, crate::specs::Passing::upto_zero))]
pub fn name(end: usize, bytes: &[u8]) -> Result<(&[u8], &[u8]), BsonFault>
    requires { length bytes.now ≤ end }
    ensures gives { Reads (λ x. (x.0.now, x.1.now)) result (name_at end bytes.now) }
    ensures fits { IfOk result (λ x. length x.1.now ≤ length bytes.now) }
    ensures no_zero { IfOk result (λ x. Contains x.0.now 0 → ⊥) }
    ensures jumps { IfOk result (λ x. x.1.now ≡ past_zero bytes.now) }
    ensures before { IfOk result (λ x. x.0.now ≡ upto_zero bytes.now) }
{
    match zero_place(bytes) {
        Some(i) => Ok((&bytes[..i], &bytes[i + 1..])),
        None => Err(fault(BsonKind::Length, end - bytes.len())),
    }
}

/// Whether this byte is the type of an element.
pub fn is_type(tag: u8) -> bool
    ensures { result ≡ is_type tag }
{
    tag != 0 && (tag < 20 || tag == 255 || tag == 127)
}

/// How many bytes stand before the first zero, and whether each of them is ASCII.
fn name_span(bytes: &[u8]) -> Option<(usize, bool)>
    ensures none { IfNone result (position_from (λ b. b == 0) 0 bytes.now ≡ None) }
    ensures place { IfSome result (λ s. (position_from (λ b. b == 0) 0 bytes.now ≡ Some s.0) × (s.0 < length bytes.now)) }
    ensures ascii { IfSome result (λ s. IsTrue s.1 → IsAscii (take s.0 bytes.now)) }
    ensures no_zero { IfSome result (λ s. Contains (take s.0 bytes.now) 0 → ⊥) }
{
    let mut seen = 0u8;
    for at in 0..bytes.len() {
        let byte = bytes[at];
        if byte == 0 {
            return Some((at, seen < 128));
        }
        seen |= byte;
    }
    None
}

/// The type byte and the name of an element.
#[tactic(auto, unfolding(crate::specs::Reading::name_at, crate::specs::Passing::past_zero, crate::specs::Passing::upto_zero))]
pub fn head(end: usize, tag: u8, bytes: &[u8]) -> Result<(&str, &[u8]), BsonFault>
    requires { length bytes.now < end }
    ensures gives { Reads (λ x. (x.0.now, x.1.now)) result (head_at end tag bytes.now) }
    ensures fits { IfOk result (λ x. length x.1.now ≤ length bytes.now) }
    ensures no_zero { IfOk result (λ x. Contains x.0.now 0 → ⊥) }
    ensures name { IfOk result (λ x. x.0.now ≡ upto_zero bytes.now) }
    ensures after { IfOk result (λ x. x.1.now ≡ past_zero bytes.now) }
{
    let at = end - bytes.len();
    if !is_type(tag) {
        return Err(fault(BsonKind::Tag, at - 1));
    }
    let Some((len, ascii)) = name_span(bytes) else {
        return Err(fault(BsonKind::Length, at));
    };
    let name = &bytes[..len];
    if !is_text(name, ascii) {
        return Err(fault(BsonKind::Text, at));
    }
    Ok((unsafe { str::from_utf8_unchecked(name) }, &bytes[len + 1..]))
}
