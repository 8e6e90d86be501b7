//! Passing over elements that were walked already, by their lengths alone.
ghost use Rattle.std.specs.Prelude.{◌≡◌, ◌+◌, ◌<◌, ◌≤◌, ◌∷◌, length, drop};
ghost use Rattle.bson_check.specs.Passing.{count_of, past_zero, jump, first_name, passed};

use crate::parts::{number_of, zero_place};

#[tactic(auto, unfolding(crate::specs::Passing::count_of))]
fn count(bytes: &[u8]) -> usize
    ensures value { result ≡ count_of bytes.now }
    ensures small { result < 4294967296 }
{
    if bytes.len() < 4 {
        return 0;
    }
    number_of(bytes) as usize
}

pub(crate) fn behind(n: usize, bytes: &[u8]) -> &[u8]
    ensures { result.now ≡ drop n bytes.now }
{
    if n <= bytes.len() {
        &bytes[n..]
    } else {
        &bytes[bytes.len()..]
    }
}

#[tactic(auto, unfolding(crate::specs::Passing::past_zero))]
fn behind_zero(bytes: &[u8]) -> &[u8]
    ensures place { result.now ≡ past_zero bytes.now }
    ensures fits { length result.now ≤ length bytes.now }
{
    match zero_place(bytes) {
        Some(i) => &bytes[i + 1..],
        None => &bytes[..0],
    }
}

/// The bytes after a value that was walked before.
#[tactic(auto, unfolding(crate::specs::Passing::jump))]
pub fn after(tag: u8, bytes: &[u8]) -> &[u8]
    ensures place { result.now ≡ jump tag bytes.now }
    ensures fits { length result.now ≤ length bytes.now }
{
    match tag {
        1 | 9 | 17 | 18 => behind(8, bytes),
        2 | 13 | 14 => behind(count(bytes) + 4, bytes),
        3 | 4 | 15 => behind(count(bytes), bytes),
        5 => behind(count(bytes) + 5, bytes),
        7 => behind(12, bytes),
        8 => behind(1, bytes),
        11 => behind_zero(behind_zero(bytes)),
        12 => behind(12, behind(count(bytes) + 4, bytes)),
        16 => behind(4, bytes),
        19 => behind(16, bytes),
        _ => bytes,
    }
}

// The name of the first element, and the bytes after the element.
#[tactic(auto, unfolding(crate::specs::Passing::upto_zero, crate::specs::Passing::past_zero))]
pub(crate) fn step(tag: u8, bytes: &[u8]) -> (&[u8], &[u8])
    ensures name { result.0.now ≡ first_name (tag ∷ bytes.now) }
    ensures after { result.1.now ≡ passed (tag ∷ bytes.now) }
    ensures fits { length result.1.now ≤ length bytes.now }
{
    match zero_place(bytes) {
        Some(i) => (&bytes[..i], after(tag, &bytes[i + 1..])),
        None => (bytes, after(tag, &bytes[..0])),
    }
}

// The name of the first element.
#[tactic(auto, unfolding(crate::specs::Passing::upto_zero))]
pub(crate) fn name_of(bytes: &[u8]) -> &[u8]
    ensures { result.now ≡ first_name bytes.now }
{
    match bytes.split_first() {
        None => bytes,
        Some((_, bytes)) => match zero_place(bytes) {
            Some(i) => &bytes[..i],
            None => bytes,
        },
    }
}
