//! Documents of a row.
ghost use Rattle.std.specs.Prelude.{◌≡◌, ◌++◌, IfOk, codes, string_bytes};
ghost use Rattle.row_script.specs.Rows.{before_blank, behind_blank};
ghost use Rattle.bson_rows.specs.Rows.{number_of, Spell, Write, digits_of, fault_word, kind_word, order_word};

use anyhow::Result;
use bson_check::{BsonFault, BsonKind, MAX_DOCUMENT_BYTES, MAX_LEVELS};
use bson_core::decode;
use bson_encode::encode;
use bson_value::{CText, Doc};
use row_script::{bytes, digits, number, refused, words};
use std::alloc::Global;
use std::cmp::Ordering;

/// Two numbers.
pub fn numbers(text: &str) -> Result<(usize, usize)>
    ensures { IfOk result (λ numbers. numbers ≡ (number_of (before_blank text.now), number_of (behind_blank text.now))) }
{
    let (first, second) = words(text)?;
    Ok((number(first)?, number(second)?))
}

/// Three words, with blanks between.
pub fn joined(alloc: Global, first: &str, second: &str, third: &str) -> Result<String>
    ensures { IfOk result (λ text. string_bytes text ≡ first.now ++ codes " " ++ second.now ++ codes " " ++ third.now) }
{
    Ok(format!(in alloc; "{first} {second} {third}")?)
}

/// A text without zeros.
pub fn name(alloc: Global, text: &str) -> Result<CText>
    ensures { IfOk result (λ name. name ≡ text.now) }
{
    match CText::of(alloc, text)? {
        Some(name) => Ok(name),
        None => refused("a zero in a name"),
    }
}

/// The document that bytes spell.
pub fn document(alloc: Global, spelling: &[u8]) -> Result<Doc>
    ensures { IfOk result (λ doc. Spell spelling.now doc) }
{
    match decode(alloc, spelling, MAX_DOCUMENT_BYTES, MAX_LEVELS) {
        Ok(doc) => Ok(doc),
        Err(_) => refused("no document"),
    }
}

/// The document that the digits write.
#[tactic(auto, unfolding(crate::specs::Rows::Write))]
pub fn written(alloc: Global, text: &str) -> Result<Doc>
    ensures { IfOk result (λ doc. Write text.now doc) }
{
    let spelling = bytes(alloc, text)?;
    document(alloc, &spelling)
}

/// The digits of a document.
pub fn spelled(alloc: Global, doc: &Doc) -> Result<String>
    ensures { IfOk result (λ digits. string_bytes digits ≡ digits_of doc.now) }
{
    let spelling = encode(alloc, doc)?;
    digits(alloc, spelling.as_slice())
}

/// How one stands to another, in a word.
pub fn order_word(order: Ordering) -> &'static str
    ensures { result.now ≡ order_word order }
{
    match order {
        Ordering::Less => "Less",
        Ordering::Equal => "Equal",
        Ordering::Greater => "Greater",
    }
}

// What is wrong, in a word.
fn kind_word(kind: BsonKind) -> &'static str
    ensures { result.now ≡ kind_word kind }
{
    match kind {
        BsonKind::Short => "Short",
        BsonKind::Length => "Length",
        BsonKind::Tag => "Tag",
        BsonKind::Text => "Text",
        BsonKind::Repeat => "Repeat",
        BsonKind::Deep => "Deep",
        BsonKind::Bool => "Bool",
        BsonKind::TooLong => "TooLong",
    }
}

/// A fault and its place.
pub fn fault_text(alloc: Global, fault: BsonFault) -> Result<String>
    ensures { IfOk result (λ answer. string_bytes answer ≡ fault_word fault) }
{
    Ok(format!(in alloc; "{} {}", kind_word(fault.kind), fault.at)?)
}
