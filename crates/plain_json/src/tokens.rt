//! The tokens of plain texts: white space, commas, colons, brackets and strings without escapes.
ghost use Rattle.std.specs.Prelude.{◌≡◌, ◌<◌, ◌≤◌, ◌++◌, ℕ, length, take, IfOk, IfSome, IsTrue, MatchOption, Contains, Ok, true, false};
ghost use Rattle.std.specs.List.{prefix_len};
ghost use Rattle.std.specs.Option.{option_copied};
ghost use Rattle.std.specs.Str.{IsAscii, is_utf8};
ghost use Rattle.json_text.specs.Pieces.{is_plain};
ghost use Rattle.json_text.specs.Reading.{is_space, after_space, string_at, more_at, colon_at, closing};

use crate::refusal::Refusal;

fn is_white(b: u8) -> bool
    ensures { result ≡ is_space b }
{
    b == b' ' || b == b'\t' || b == b'\n' || b == b'\r'
}

/// The bytes behind the white space.
pub(crate) fn space(bytes: &[u8]) -> &[u8]
    ensures value { result.now ≡ after_space bytes.now }
    ensures fits { length result.now ≤ length bytes.now }
{
    let mut rest = bytes;
    'spaces: while let Some((b, after)) = rest.split_first() {
        if !is_white(*b) {
            return rest;
        }
        rest = after;
    }
    rest
}

/// Whether another one follows, and the bytes behind the comma and the space, or behind the end.
#[tactic(auto, unfolding(json_text::specs::Reading::more_at))]
pub(crate) fn more(close: u8, bytes: &[u8]) -> Result<(bool, &[u8]), Refusal>
    ensures gives { (end : ℕ) → IfOk result (λ x. more_at close end bytes.now ≡ Ok (x.0, x.1.now)) }
    ensures fits { IfOk result (λ x. length x.1.now < length bytes.now) }
{
    match bytes {
        [] => Err(Refusal::NotPlain),
        [b, rest @ ..] => {
            if *b == b',' {
                return Ok((true, space(rest)));
            }
            if *b == close {
                return Ok((false, rest));
            }
            Err(Refusal::NotPlain)
        }
    }
}

/// The bytes behind a colon and the space.
#[tactic(auto, unfolding(json_text::specs::Reading::colon_at))]
pub(crate) fn colon(bytes: &[u8]) -> Result<&[u8], Refusal>
    ensures gives { (end : ℕ) → IfOk result (λ x. colon_at end bytes.now ≡ Ok x.now) }
    ensures fits { IfOk result (λ x. length x.now ≤ length bytes.now) }
{
    match bytes {
        [] => Err(Refusal::NotPlain),
        [b, rest @ ..] => {
            if *b == b':' {
                return Ok(space(rest));
            }
            Err(Refusal::NotPlain)
        }
    }
}

/// The bytes behind the end of an array or an object, where that stands here.
#[tactic(auto, unfolding(json_text::specs::Reading::closing))]
pub(crate) fn closed(close: u8, bytes: &[u8]) -> Option<&[u8]>
    ensures value { option_copied result ≡ closing close bytes.now }
    ensures fits { IfSome result (λ rest. length rest.now ≤ length bytes.now) }
{
    match bytes {
        [] => None,
        [b, rest @ ..] => { if *b == close { Some(rest) } else { None } }
    }
}

/// The bytes behind this word, where it stands here.
pub(crate) fn word<'a>(word: &[u8], bytes: &'a [u8]) -> Option<&'a [u8]>
    ensures word { IfSome result (λ rest. bytes.now ≡ word.now ++ rest.now) }
    ensures fits { IfSome result (λ rest. length rest.now ≤ length bytes.now) }
{
    bytes.strip_prefix(word)
}

// Most bytes are small letters, which the first test tells.
fn stands_for_itself(b: u8) -> bool
    ensures { result ≡ is_plain b }
{
    b'\\' < b || (31 < b && b != b'"' && b != b'\\')
}

// How many bytes at the front stand for themselves in a string, and whether each of them is ASCII.
fn plain_span(bytes: &[u8]) -> (usize, bool)
    ensures value { result.0 ≡ prefix_len is_plain bytes.now }
    ensures fits { result.0 ≤ length bytes.now }
    ensures ascii { IsTrue result.1 → IsAscii (take result.0 bytes.now) }
{
    let mut seen = 0u8;
    let mut len = 0;
    'bytes: while len < bytes.len() {
        let byte = bytes[len];
        if !stands_for_itself(byte) {
            return (len, seen < 128);
        }
        seen |= byte;
        len += 1;
    }
    (len, seen < 128)
}

// The bytes as a text, if they are one. ASCII always is.
#[inline(always)]
fn text_of(bytes: &[u8], ascii: bool) -> Option<&str>
    requires { IsTrue ascii → IsAscii bytes.now }
    ensures { MatchOption result (is_utf8 bytes.now ≡ false) (λ text. (is_utf8 bytes.now ≡ true) × (text.now ≡ bytes.now)) }
{
    if ascii {
        return Some(unsafe { str::from_utf8_unchecked(bytes) });
    }
    match str::from_utf8(bytes) {
        Ok(text) => Some(text),
        Err(_) => None,
    }
}

/// The string whose opening quote stands before these bytes, and the bytes behind it, where it has no escape.
#[inline(always)]
pub(crate) fn string(bytes: &[u8]) -> Option<(&str, &[u8])>
    ensures gives { (end : ℕ) → IfSome result (λ x. string_at end bytes.now ≡ Ok (x.0.now, x.1.now)) }
    ensures fits { IfSome result (λ x. length x.1.now ≤ length bytes.now) }
    ensures no_zero { IfSome result (λ x. Contains x.0.now 0 → ⊥) }
{
    let (len, ascii) = plain_span(bytes);
    let (plain, special) = bytes.split_at(len);
    let (quote, rest) = special.split_first()?;
    if *quote != b'"' {
        return None;
    }
    Some((text_of(plain, ascii)?, rest))
}
