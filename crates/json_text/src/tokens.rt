//! The tokens of JSON. Each reader is given the place at which the text ends, and the bytes up to there.
//! A token fails at its start, or at the end where the text ends in it.
ghost use Rattle.std.specs.Prelude.{◌≡◌, ◌+◌, ◌-◌, ◌*◌, ◌<◌, ◌≤◌, ◌⊎◌, suc, ◌==◌, [], ◌∷◌, ◌++◌, ℕ, List, length, take, drop, IfOk, IfSome, OnOk, Ok, MatchOption, true, false, if◌then◌else◌};
ghost use Rattle.std.specs.List.{prefix_len};
ghost use Rattle.std.specs.Str.{is_utf8};
ghost use Rattle.json_tree.specs.Numbers.{is_digit};
ghost use Rattle.json_text.specs.Reading.{Gives, is_space, after_space, word_at, after_digits, digits_at, whole_at, after_minus, after_sign, fraction_at, exponent_at, after_number, number_at, hex_value, within, hex_at, unit_at, low_at, unicode_at, meant, escape_at, piece_at, steps_at, string_at};
ghost use Rattle.json_text.specs.Pieces.{bytes_of, goes_on, is_plain};

use crate::fault::JsonFault;
use containers::Text as JText;
use json_tree::Number;
use std::alloc::{AllocError, Global};

pub(crate) fn bad(at: usize) -> JsonFault
    ensures { result ≡ JsonFault.Bad at }
{
    JsonFault::Bad { at }
}

fn is_white(b: u8) -> bool
    ensures { result ≡ is_space b }
{
    b == b' ' || b == b'\t' || b == b'\n' || b == b'\r'
}

fn is_decimal(b: u8) -> bool
    ensures { result ≡ is_digit b }
{
    47 < b && b < 58
}

/// The bytes behind the white space.
pub(crate) fn space(bytes: &[u8]) -> &[u8]
    ensures value { result.now ≡ after_space bytes.now }
    ensures fits { length result.now ≤ length bytes.now }
{
    let mut rest = bytes;
    'spaces: while let Some((b, after)) = rest.split_first() {
        if !is_white(*b) {
            return rest;
        }
        rest = after;
    }
    rest
}

/// The bytes behind this word.
pub(crate) fn word<'a>(
    word: &[u8],
    start: usize,
    end: usize,
    bytes: &'a [u8],
) -> Result<&'a [u8], JsonFault>
    ensures gives { Gives (λ x. x.now) result (word_at word.now start end bytes.now) }
    ensures fits { IfOk result (λ x. length x.now ≤ length bytes.now) }
{
    let mut rest = bytes;
    for letter in word {
        match rest.split_first() {
            None => return Err(bad(end)),
            Some((b, after)) => {
                if *b != *letter {
                    return Err(bad(start));
                }
                rest = after;
            }
        }
    }
    Ok(rest)
}

fn past_digits(bytes: &[u8]) -> &[u8]
    ensures value { result.now ≡ after_digits bytes.now }
    ensures fits { length result.now ≤ length bytes.now }
{
    let mut rest = bytes;
    'digits: while let Some((b, after)) = rest.split_first() {
        if !is_decimal(*b) {
            return rest;
        }
        rest = after;
    }
    rest
}

#[tactic(auto, unfolding(crate::specs::Reading::digits_at))]
fn digits(start: usize, end: usize, bytes: &[u8]) -> Result<&[u8], JsonFault>
    ensures gives { Gives (λ x. x.now) result (digits_at start end bytes.now) }
    ensures fits { IfOk result (λ x. length x.now ≤ length bytes.now) }
{
    match bytes {
        [] => Err(bad(end)),
        [b, rest @ ..] => {
            if is_decimal(*b) {
                Ok(past_digits(rest))
            } else {
                Err(bad(start))
            }
        }
    }
}

#[tactic(auto, unfolding(crate::specs::Reading::whole_at))]
fn whole(start: usize, end: usize, bytes: &[u8]) -> Result<&[u8], JsonFault>
    ensures gives { Gives (λ x. x.now) result (whole_at start end bytes.now) }
    ensures fits { IfOk result (λ x. length x.now ≤ length bytes.now) }
{
    match bytes {
        [] => Err(bad(end)),
        [b, rest @ ..] => {
            if *b == b'0' {
                Ok(rest)
            } else {
                digits(start, end, bytes)
            }
        }
    }
}

#[tactic(auto, unfolding(crate::specs::Reading::after_minus))]
fn past_minus(bytes: &[u8]) -> &[u8]
    ensures value { result.now ≡ after_minus bytes.now }
    ensures fits { length result.now ≤ length bytes.now }
{
    match bytes {
        [] => bytes,
        [b, rest @ ..] => { if *b == b'-' { rest } else { bytes } }
    }
}

#[tactic(auto, unfolding(crate::specs::Reading::after_sign))]
fn past_sign(bytes: &[u8]) -> &[u8]
    ensures value { result.now ≡ after_sign bytes.now }
    ensures fits { length result.now ≤ length bytes.now }
{
    match bytes {
        [] => bytes,
        [b, rest @ ..] => {
            if *b == b'+' || *b == b'-' {
                rest
            } else {
                bytes
            }
        }
    }
}

#[tactic(auto, unfolding(crate::specs::Reading::fraction_at))]
fn fraction(start: usize, end: usize, bytes: &[u8]) -> Result<&[u8], JsonFault>
    ensures gives { Gives (λ x. x.now) result (fraction_at start end bytes.now) }
    ensures fits { IfOk result (λ x. length x.now ≤ length bytes.now) }
{
    match bytes {
        [] => Ok(bytes),
        [b, rest @ ..] => {
            if *b == b'.' {
                digits(start, end, rest)
            } else {
                Ok(bytes)
            }
        }
    }
}

#[tactic(auto, unfolding(crate::specs::Reading::exponent_at))]
fn exponent(start: usize, end: usize, bytes: &[u8]) -> Result<&[u8], JsonFault>
    ensures gives { Gives (λ x. x.now) result (exponent_at start end bytes.now) }
    ensures fits { IfOk result (λ x. length x.now ≤ length bytes.now) }
{
    match bytes {
        [] => Ok(bytes),
        [b, rest @ ..] => {
            if *b == b'e' || *b == b'E' {
                digits(start, end, past_sign(rest))
            } else {
                Ok(bytes)
            }
        }
    }
}

#[tactic(auto, unfolding(crate::specs::Reading::after_number))]
fn past_number(start: usize, end: usize, bytes: &[u8]) -> Result<&[u8], JsonFault>
    ensures gives { Gives (λ x. x.now) result (after_number start end bytes.now) }
    ensures fits { IfOk result (λ x. length x.now ≤ length bytes.now) }
{
    let rest = whole(start, end, past_minus(bytes))?;
    let rest = fraction(start, end, rest)?;
    exponent(start, end, rest)
}

// The bytes as a text, if they are one.
fn text_of(bytes: &[u8]) -> Option<&str>
    ensures { MatchOption result (is_utf8 bytes.now ≡ false) (λ text. (is_utf8 bytes.now ≡ true) × (text.now ≡ bytes.now)) }
{
    match str::from_utf8(bytes) {
        Ok(text) => Some(text),
        Err(_) => None,
    }
}

/// The text of the number that begins here, and the bytes behind it.
#[tactic(auto, unfolding(crate::specs::Reading::number_at))]
pub(crate) fn number(
    alloc: Global,
    start: usize,
    end: usize,
    bytes: &[u8],
) -> Result<(Number, &[u8]), JsonFault>
    ensures gives { Gives (λ x. (x.0, x.1.now)) result (number_at start end bytes.now) }
    ensures fits { IfOk result (λ x. length x.1.now ≤ length bytes.now) }
{
    let rest = past_number(start, end, bytes)?;
    match text_of(&bytes[..bytes.len() - rest.len()]) {
        Some(text) => Ok((Number::of(JText::of(alloc, text)?), rest)),
        None => Err(bad(start)),
    }
}

fn hex_digit(b: u8) -> Option<u32>
    ensures { result ≡ hex_value b }
{
    if is_decimal(b) {
        Some(u32::from(b) - 48)
    } else if 64 < b && b < 71 {
        Some(u32::from(b) - 55)
    } else if 96 < b && b < 103 {
        Some(u32::from(b) - 87)
    } else {
        None
    }
}

// A hexadecimal digit within these bounds.
#[tactic(auto, unfolding(crate::specs::Reading::hex_at))]
fn hex(
    start: usize,
    end: usize,
    low: u32,
    high: u32,
    bytes: &[u8],
) -> Result<(u32, &[u8]), JsonFault>
    ensures gives { Gives (λ x. (x.0, x.1.now)) result (hex_at start end low high bytes.now) }
    ensures fits { IfOk result (λ x. length x.1.now ≤ length bytes.now) }
    ensures bounds { IfOk result (λ x. (low ≤ x.0) × (x.0 ≤ high)) }
{
    match bytes {
        [] => Err(bad(end)),
        [b, rest @ ..] => match hex_digit(*b) {
            None => Err(bad(start)),
            Some(v) => {
                if v < low || high < v {
                    Err(bad(start))
                } else {
                    Ok((v, rest))
                }
            }
        },
    }
}

// The number of four digits, by that of the first two.
#[tactic(auto, unfolding(crate::specs::Reading::unit_at))]
fn unit(start: usize, end: usize, high: u32, bytes: &[u8]) -> Result<(u32, &[u8]), JsonFault>
    requires { high < 256 }
    ensures gives { Gives (λ x. (x.0, x.1.now)) result (unit_at start end high bytes.now) }
    ensures fits { IfOk result (λ x. length x.1.now ≤ length bytes.now) }
    ensures bounds { IfOk result (λ x. (256 * high ≤ x.0) × (x.0 < 256 * high + 256)) }
{
    let (c, rest) = hex(start, end, 0, 15, bytes)?;
    let (d, rest) = hex(start, end, 0, 15, rest)?;
    Ok((256 * high + 16 * c + d, rest))
}

fn character(code: u32) -> char
    requires { (code < 55296) ⊎ ((57343 < code) × (code < 1114112)) }
    ensures { result ≡ code }
{
    char::from_u32(code).unwrap()
}

// The low half of a pair, behind its high half.
#[tactic(auto, unfolding(crate::specs::Reading::low_at))]
fn low(
    start: usize,
    end: usize,
    unit_before: u32,
    bytes: &[u8],
) -> Result<(Piece, &[u8]), JsonFault>
    requires from { 55296 ≤ unit_before }
    requires below { unit_before < 56320 }
    ensures gives { Gives (λ x. (bytes_of x.0, x.1.now)) result (low_at start end unit_before bytes.now) }
    ensures fits { IfOk result (λ x. length x.1.now ≤ length bytes.now) }
    ensures more { IfOk result (λ x. goes_on x.0 ≡ true) }
{
    let rest = word(b"\\u", start, end, bytes)?;
    let (a, rest) = hex(start, end, 13, 13, rest)?;
    let (b, rest) = hex(start, end, 12, 15, rest)?;
    let (low, rest) = unit(start, end, 16 * a + b, rest)?;
    let code = 65536 + 1024 * (unit_before - 55296) + (low - 56320);
    Ok((Piece::Char(character(code)), rest))
}

#[tactic(auto, unfolding(crate::specs::Reading::unicode_at))]
fn unicode(start: usize, end: usize, bytes: &[u8]) -> Result<(Piece, &[u8]), JsonFault>
    ensures gives { Gives (λ x. (bytes_of x.0, x.1.now)) result (unicode_at start end bytes.now) }
    ensures fits { IfOk result (λ x. length x.1.now ≤ length bytes.now) }
    ensures more { IfOk result (λ x. goes_on x.0 ≡ true) }
{
    let (a, rest) = hex(start, end, 0, 15, bytes)?;
    let (b, rest) = hex(start, end, 0, if a == 13 { 11 } else { 15 }, rest)?;
    let (code, rest) = unit(start, end, 16 * a + b, rest)?;
    if code < 55296 || 57343 < code {
        Ok((Piece::Char(character(code)), rest))
    } else {
        low(start, end, code, rest)
    }
}

fn letter(b: u8) -> Option<u8>
    ensures { result ≡ meant b }
{
    match b {
        b'"' | b'\\' | b'/' => Some(b),
        b'b' => Some(8),
        b'f' => Some(12),
        b'n' => Some(10),
        b'r' => Some(13),
        b't' => Some(9),
        _ => None,
    }
}

#[tactic(auto, unfolding(crate::specs::Reading::escape_at))]
fn escape(start: usize, end: usize, bytes: &[u8]) -> Result<(Piece, &[u8]), JsonFault>
    ensures gives { Gives (λ x. (bytes_of x.0, x.1.now)) result (escape_at start end bytes.now) }
    ensures fits { IfOk result (λ x. length x.1.now ≤ length bytes.now) }
    ensures more { IfOk result (λ x. goes_on x.0 ≡ true) }
{
    match bytes {
        [] => Err(bad(end)),
        [b, rest @ ..] => {
            if *b == b'u' {
                return unicode(start, end, rest);
            }
            match letter(*b) {
                None => Err(bad(start)),
                Some(meant) => Ok((Piece::Byte(meant), rest)),
            }
        }
    }
}

// A piece of a string, or its end.
#[derive(Clone, Copy)]
pub(crate) enum Piece {
    Byte(u8),
    Char(char),
    End,
}

impl Piece {
    fn goes_on(&self) -> bool
        ensures { result ≡ goes_on self.now }
    {
        !matches!(self, Piece::End)
    }

    fn put(&self, text: &mut Vec<u8>) -> Result<(), AllocError>
        ensures { OnOk result (text.new.items ≡ text.old.items ++ bytes_of self.now) }
    {
        match self {
            Piece::Byte(b) => {
                text.push(*b)?;
                Ok(())
            }
            Piece::Char(c) => {
                let mut bytes = [0; 4];
                text.extend_from_slice(c.encode_utf8(&mut bytes).as_bytes())
            }
            Piece::End => Ok(()),
        }
    }
}

#[tactic(auto, unfolding(crate::specs::Reading::piece_at))]
fn next_piece(start: usize, end: usize, bytes: &[u8]) -> Result<(Piece, &[u8]), JsonFault>
    ensures gives { (done : List ℕ) → Gives (λ x. ((bytes_of x.0, goes_on x.0), x.1.now)) result (piece_at start end done bytes.now) }
    ensures fits { IfOk result (λ x. length x.1.now < length bytes.now) }
{
    match bytes {
        [] => Err(bad(end)),
        [b, rest @ ..] => {
            if *b == b'"' {
                return Ok((Piece::End, rest));
            }
            if *b == b'\\' {
                let (piece, rest) = escape(start, end, rest)?;
                return Ok((piece, rest));
            }
            if *b < 32 {
                return Err(bad(start));
            }
            Ok((Piece::Byte(*b), rest))
        }
    }
}

fn is_plain(b: u8) -> bool
    ensures { result ≡ is_plain b }
{
    b != b'"' && b != b'\\' && 31 < b
}

// How many bytes at the front stand for themselves in a string.
fn plain_len(bytes: &[u8]) -> usize
    ensures value { result ≡ prefix_len is_plain bytes.now }
    ensures fits { result ≤ length bytes.now }
{
    bytes.iter().take_while(|b| is_plain(**b)).count()
}

// The pieces up to the closing quote, one behind the other. Plain bytes are put at once.
fn pieces(
    alloc: Global,
    start: usize,
    end: usize,
    bytes: &[u8],
) -> Result<(Vec<u8>, &[u8]), JsonFault>
    ensures gives { Gives (λ x. (x.0.items, x.1.now)) result (steps_at (piece_at start end) (suc (length bytes.now)) end [] bytes.now) }
    ensures fits { IfOk result (λ x. length x.1.now ≤ length bytes.now) }
{
    let mut text = Vec::new(alloc);
    let mut rest = bytes;
    'pieces: loop {
        let (plain, special) = rest.split_at(plain_len(rest));
        text.extend_from_slice(plain)?;
        let (piece, after) = next_piece(start, end, special)?;
        piece.put(&mut text)?;
        if !piece.goes_on() {
            return Ok((text, after));
        }
        rest = after;
    }
}

// The string in which an escape stands, or a fault.
#[tactic(auto, unfolding(crate::specs::Reading::string_at))]
fn escaped_string(alloc: Global, end: usize, bytes: &[u8]) -> Result<(JText, &[u8]), JsonFault>
    requires { length bytes.now < end }
    ensures gives { Gives (λ x. (x.0, x.1.now)) result (string_at end bytes.now) }
    ensures fits { IfOk result (λ x. length x.1.now ≤ length bytes.now) }
{
    let start = end - bytes.len() - 1;
    let (text, rest) = pieces(alloc, start, end, bytes)?;
    match String::from_utf8(text) {
        Ok(text) => Ok((JText::from_string(text)?, rest)),
        Err(_) => Err(bad(start)),
    }
}

// A string that is plain up to its closing quote, and the bytes behind it.
fn plain_string(bytes: &[u8]) -> Option<(&str, &[u8])>
    ensures gives { (end : ℕ) → IfSome result (λ x. string_at end bytes.now ≡ Ok (x.0.now, x.1.now)) }
    ensures fits { IfSome result (λ x. length x.1.now ≤ length bytes.now) }
{
    let (plain, special) = bytes.split_at(plain_len(bytes));
    let (quote, rest) = special.split_first()?;
    if *quote != b'"' {
        return None;
    }
    Some((text_of(plain)?, rest))
}

/// The string whose opening quote stands before these bytes, and the bytes behind it.
pub(crate) fn string(alloc: Global, end: usize, bytes: &[u8]) -> Result<(JText, &[u8]), JsonFault>
    requires { length bytes.now < end }
    ensures gives { Gives (λ x. (x.0, x.1.now)) result (string_at end bytes.now) }
    ensures fits { IfOk result (λ x. length x.1.now ≤ length bytes.now) }
{
    match plain_string(bytes) {
        Some((text, rest)) => Ok((JText::of(alloc, text)?, rest)),
        None => escaped_string(alloc, end, bytes),
    }
}
