//! Whole numbers, read from their digits.
ghost use Rattle.std.specs.Prelude.{◌≡◌, ◌<◌, ◌≤◌, length, take, drop, slice_index, IfOk, true, false};
ghost use Rattle.std.specs.Bool.{OnFalse};
ghost use Rattle.std.specs.List.{list_all};
ghost use Rattle.std.specs.Str.Parse.{digits_value};
ghost use Rattle.json_tree.specs.Numbers.{is_digit};
ghost use Rattle.plain_json.specs.Numbers.{goes_on, IsNaturalRead, IsIntRead};

use crate::refusal::Refusal;

fn is_decimal(b: u8) -> bool
    ensures { result ≡ is_digit b }
{
    47 < b && b < 58
}

// The number that the digits at the front write, and how many they are.
fn digits(bytes: &[u8]) -> Result<(u32, usize), Refusal>
    ensures value { IfOk result (λ x. digits_value 10 (take x.1 bytes.now) ≡ x.0) }
    ensures digits { IfOk result (λ x. list_all is_digit (take x.1 bytes.now) ≡ true) }
    ensures fits { IfOk result (λ x. x.1 ≤ length bytes.now) }
    ensures ends { IfOk result (λ x. x.1 < length bytes.now → is_digit (slice_index bytes.now x.1) ≡ false) }
    ensures bound { IfOk result (λ x. x.0 < 1000000000) }
{
    let mut number: u32 = 0;
    let mut count: usize = 0;
    'digits: while count < bytes.len() {
        let byte = bytes[count];
        if !is_decimal(byte) {
            return Ok((number, count));
        }
        if 99_999_999 < number {
            return Err(Refusal::NotPlain);
        }
        number = number * 10 + u32::from(byte - 48);
        count += 1;
    }
    Ok((number, count))
}

// Whether a point or an exponent follows.
fn goes_on(bytes: &[u8]) -> bool
    ensures { result ≡ goes_on bytes.now }
{
    match bytes {
        [] => false,
        [b, ..] => *b == b'.' || *b == b'e' || *b == b'E',
    }
}

// Whether a zero stands before other digits.
fn is_padded(bytes: &[u8], count: usize) -> bool
    requires { count ≤ length bytes.now }
    ensures { OnFalse result (1 < count → slice_index bytes.now 0 ≡ 48 → ⊥) }
{
    1 < count && bytes[0] == b'0'
}

// A number without a sign, and the bytes behind it.
fn natural(bytes: &[u8]) -> Result<(u32, &[u8]), Refusal>
    ensures read { IfOk result (λ x. IsNaturalRead bytes.now x.0 x.1.now) }
    ensures fits { IfOk result (λ x. length x.1.now ≤ length bytes.now) }
    ensures bound { IfOk result (λ x. x.0 < 1000000000) }
{
    let (number, count) = digits(bytes)?;
    let (_, rest) = bytes.split_at(count);
    if count == 0 || is_padded(bytes, count) || goes_on(rest) {
        return Err(Refusal::NotPlain);
    }
    Ok((number, rest))
}

/// The number that begins here, and the bytes behind it, where it has at most nine digits and neither
/// a point nor an exponent.
#[inline(always)]
pub(crate) fn int(bytes: &[u8]) -> Result<(i32, &[u8]), Refusal>
    ensures read { IfOk result (λ x. IsIntRead bytes.now x.0 x.1.now) }
    ensures fits { IfOk result (λ x. length x.1.now ≤ length bytes.now) }
{
    match bytes.split_first() {
        Some((b'-', digits)) => {
            let (number, rest) = natural(digits)?;
            Ok((-(number as i32), rest))
        }
        _ => {
            let (number, rest) = natural(bytes)?;
            Ok((number as i32, rest))
        }
    }
}
