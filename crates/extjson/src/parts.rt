//! The parts of wrappers.
ghost use Rattle.std.specs.Prelude.{◌≡◌, ◌^◌, IfOk, true};
ghost use Rattle.extjson.specs.Values.{Gives, string_of, number_of, true_of, members_of, only, both, without_zero, whole, ranged, counted, hex_of, base64_of, subtype_of};
ghost use Rattle.extjson.specs.Numbers.{is_whole};

use crate::fault::ExtFault;
use crate::numbers::{is_whole, to_count, to_int, to_long};
use base64::DecodeAllocError;
use base64::engine::general_purpose::STANDARD;
use bson_value::{Bytes, CText};
use containers::Text as JText;
use hex::FromHex;
use json_tree::Tree;
use std::alloc::Global;

#[tactic(auto, unfolding(crate::specs::Values::string_of))]
pub(crate) fn string(tree: &Tree) -> Result<&str, ExtFault>
    ensures { Gives (λ t. t.now) result (string_of tree.now) }
{
    match tree {
        Tree::Str(text) => Ok(text.as_str()),
        _ => Err(ExtFault::BadWrapper),
    }
}

#[tactic(auto, unfolding(crate::specs::Values::number_of))]
pub(crate) fn number(tree: &Tree) -> Result<&str, ExtFault>
    ensures { Gives (λ t. t.now) result (number_of tree.now) }
{
    match tree {
        Tree::Number(text) => Ok(text.as_str()),
        _ => Err(ExtFault::BadWrapper),
    }
}

#[tactic(auto, unfolding(crate::specs::Values::members_of))]
pub(crate) fn members(tree: &Tree) -> Result<&[(JText, Tree)], ExtFault>
    ensures { Gives (λ es. es.now) result (members_of tree.now) }
{
    match tree {
        Tree::Object(fields) => Ok(fields.entries()),
        _ => Err(ExtFault::BadWrapper),
    }
}

// What this name names, where it is the only one.
#[tactic(auto, unfolding(crate::specs::Values::only))]
pub(crate) fn only<'a>(name: &str, members: &'a [(JText, Tree)]) -> Result<&'a Tree, ExtFault>
    ensures { Gives (λ t. t.now) result (only name.now members.now) }
{
    match members {
        [entry] => {
            if entry.0.as_str() == name {
                Ok(&entry.1)
            } else {
                Err(ExtFault::BadWrapper)
            }
        }
        _ => Err(ExtFault::BadWrapper),
    }
}

// What these two names name, where they are the only ones.
#[tactic(auto, unfolding(crate::specs::Values::both))]
pub(crate) fn both<'a>(
    first: &str,
    second: &str,
    members: &'a [(JText, Tree)],
) -> Result<(&'a Tree, &'a Tree), ExtFault>
    ensures { Gives (λ p. (p.0.now, p.1.now)) result (both first.now second.now members.now) }
{
    match members {
        [one, other] => {
            if one.0.as_str() == first {
                if other.0.as_str() == second {
                    return Ok((&one.1, &other.1));
                }
                return Err(ExtFault::BadWrapper);
            }
            if one.0.as_str() == second && other.0.as_str() == first {
                return Ok((&other.1, &one.1));
            }
            Err(ExtFault::BadWrapper)
        }
        _ => Err(ExtFault::BadWrapper),
    }
}

#[tactic(auto, unfolding(crate::specs::Values::without_zero))]
pub(crate) fn without_zero(alloc: Global, text: &str) -> Result<CText, ExtFault>
    ensures { Gives (λ t. t) result (without_zero text.now) }
{
    match CText::of(alloc, text)? {
        Some(text) => Ok(text),
        None => Err(ExtFault::BadWrapper),
    }
}

// A whole number's text.
#[tactic(auto, unfolding(crate::specs::Values::whole))]
pub(crate) fn whole(text: &str) -> Result<&str, ExtFault>
    ensures gives { Gives (λ t. t.now) result (whole text.now) }
    ensures whole { IfOk result (λ t. is_whole t.now ≡ true) }
{
    if is_whole(text.as_bytes()) {
        Ok(text)
    } else {
        Err(ExtFault::BadWrapper)
    }
}

#[tactic(auto, unfolding(crate::specs::Values::ranged))]
pub(crate) fn long(text: &str) -> Result<i64, ExtFault>
    requires { is_whole text.now ≡ true }
    ensures { Gives (λ z. z) result (ranged (2 ^ 63) text.now) }
{
    match to_long(text) {
        Some(n) => Ok(n),
        None => Err(ExtFault::Range),
    }
}

#[tactic(auto, unfolding(crate::specs::Values::ranged))]
pub(crate) fn int(text: &str) -> Result<i32, ExtFault>
    requires { is_whole text.now ≡ true }
    ensures { Gives (λ z. z) result (ranged (2 ^ 31) text.now) }
{
    match to_int(text) {
        Some(n) => Ok(n),
        None => Err(ExtFault::Range),
    }
}

#[tactic(auto, unfolding(crate::specs::Values::counted))]
pub(crate) fn count(text: &str) -> Result<u32, ExtFault>
    requires { is_whole text.now ≡ true }
    ensures { Gives (λ n. n) result (counted text.now) }
{
    match to_count(text) {
        Some(n) => Ok(n),
        None => Err(ExtFault::Range),
    }
}

#[tactic(auto, unfolding(crate::specs::Values::true_of))]
pub(crate) fn is_true(tree: &Tree) -> Result<bool, ExtFault>
    ensures { Gives (λ b. b) result (true_of tree.now) }
{
    match tree {
        Tree::Bool(b) => {
            if *b {
                Ok(true)
            } else {
                Err(ExtFault::BadWrapper)
            }
        }
        _ => Err(ExtFault::BadWrapper),
    }
}

/// So many bytes in hexadecimal digits.
#[tactic(auto, unfolding(crate::specs::Values::hex_of))]
pub(crate) fn hex<const N: usize>(text: &[u8]) -> Result<[u8; N], ExtFault>
    ensures { Gives (λ b. b) result (hex_of N text.now) }
{
    match <[u8; N] as FromHex>::from_hex(text) {
        Ok(bytes) => Ok(bytes),
        Err(_) => Err(ExtFault::BadWrapper),
    }
}

#[tactic(auto, unfolding(crate::specs::Values::base64_of))]
pub(crate) fn base64(alloc: Global, text: &str) -> Result<Bytes, ExtFault>
    ensures { Gives (λ b. b) result (base64_of text.now) }
{
    match STANDARD.decode(alloc, text.as_bytes()) {
        Ok(bytes) => Ok(Bytes::from_vec(bytes)),
        Err(DecodeAllocError::OutOfMemory) => Err(ExtFault::NoMemory),
        Err(DecodeAllocError::DecodeError(_)) => Err(ExtFault::BadWrapper),
    }
}

/// A byte in one or two hexadecimal digits.
#[tactic(auto, unfolding(crate::specs::Values::subtype_of))]
pub(crate) fn subtype(text: &[u8]) -> Result<u8, ExtFault>
    ensures { Gives (λ s. s) result (subtype_of text.now) }
{
    let bytes: [u8; 1] = match text {
        [] => return Err(ExtFault::BadWrapper),
        [digit] => hex(&[b'0', *digit])?,
        _ => hex(text)?,
    };
    Ok(bytes[0])
}
