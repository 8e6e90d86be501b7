//! Faults of bytes, and what documents are written as.
ghost use Rattle.std.specs.Prelude.{◌≡◌, ◌↔◌, ◌++◌, ◌%◌, ◌^◌, Ok, ℕ, List, Bool, IfOk, IsTrue, codes, if◌then◌else◌, length, string_bytes};
ghost use Rattle.std.specs.Fmt.{decimal};
ghost use Rattle.hex.specs.Hex.{decode_of, encode_lower};
ghost use Rattle.bson_value.specs.Alike.{by_name, ordered_fields};
ghost use Rattle.bson_value.specs.Size.{Fits};
ghost use Rattle.bson_value.specs.Spelling.{document_text};
ghost use Rattle.bson_check.specs.Faults.{first_fault};
ghost use Rattle.row_script.specs.Rows.{before_blank, behind_blank};
ghost use Rattle.bson_rows.specs.Rows.{Document, Write, check_text, digits_of, number_of};

use crate::texts::{fault_text, numbers, spelled, written};
use anyhow::Result;
use bson_check::{BsonFault, DecodeFault, MAX_DOCUMENT_BYTES, MAX_LEVELS, check};
use bson_core::decode;
use bson_encode::encode_into;
use bson_value::{Doc, same_up_to_order};
use bson_view::View;
use row_script::{answer, digits, number, refused, truth, words};
use std::alloc::Global;

// The first fault that is met when bytes are decoded.
#[tactic(auto, unfolding(bson_check::specs::Faults::first_fault))]
fn decoding_fault(
    alloc: Global,
    bytes: &[u8],
    max: usize,
    depth: usize,
) -> Result<Option<BsonFault>>
    ensures { IfOk result (λ fault. fault ≡ first_fault max depth bytes.now) }
{
    match decode(alloc, bytes, max, depth) {
        Ok(_) => Ok(None),
        Err(DecodeFault::Bad(fault)) => Ok(Some(fault)),
        Err(DecodeFault::NoMemory) => refused("no memory"),
    }
}

// The first fault within these limits, by `check`, a view and `decode`.
fn fault_within(alloc: Global, bytes: &[u8], max: usize, depth: usize) -> Result<String>
    ensures { IfOk result (λ answer. string_bytes answer ≡ check_text (first_fault max depth bytes.now)) }
{
    let fault = check(bytes, max, depth).err();
    if fault != View::check(bytes, max, depth).err()
        || fault != decoding_fault(alloc, bytes, max, depth)?
    {
        return answer(alloc, "several answers");
    }
    match fault {
        None => answer(alloc, "none"),
        Some(fault) => fault_text(alloc, fault),
    }
}

/// The first fault of bytes that may be so long and deep.
pub fn checked(alloc: Global, bytes: &[u8], text: &str) -> Result<String>
    ensures { IfOk result (λ answer. string_bytes answer
        ≡ check_text (first_fault (number_of (before_blank text.now)) (number_of (behind_blank text.now)) bytes.now)) }
{
    let (max, depth) = numbers(text)?;
    fault_within(alloc, bytes, max, depth)
}

/// The first fault of bytes that may have 1,000 bytes and so many levels.
pub fn fault(alloc: Global, text: &str) -> Result<String>
    ensures { IfOk result (λ answer. (bytes : List ℕ) × (decode_of (behind_blank text.now) ≡ Ok bytes)
        × (string_bytes answer ≡ check_text (first_fault 1000 (number_of (before_blank text.now)) bytes))) }
{
    let (depth, bytes) = words(text)?;
    let depth = number(depth)?;
    let bytes = row_script::bytes(alloc, bytes)?;
    fault_within(alloc, &bytes, 1000, depth)
}

/// Whether a document fits limits.
pub fn fits(alloc: Global, doc: &Doc, text: &str) -> Result<String>
    ensures { IfOk result (λ answer. (is_so : Bool) × (IsTrue is_so ↔ Fits doc.now (number_of (before_blank text.now)) (number_of (behind_blank text.now)))
        × (string_bytes answer ≡ (if is_so then codes "yes" else codes "no"))) }
{
    let (max, depth) = numbers(text)?;
    truth(alloc, doc.fits(max, depth))
}

/// The length of a document's spelling.
pub fn length(alloc: Global, doc: &Doc) -> Result<String>
    ensures { IfOk result (λ answer. string_bytes answer ≡ decimal (length (document_text doc.now) % 2 ^ 64)) }
{
    let length = doc.spelling_len();
    Ok(format!(in alloc; "{length}")?)
}

/// What a copy is written as.
pub fn copied(alloc: Global, doc: &Doc) -> Result<String>
    ensures { IfOk result (λ answer. (fits : Bool) × (IsTrue fits ↔ Fits doc.now 16793600 200)
        × (string_bytes answer ≡ (if fits then digits_of doc.now else codes "another document"))) }
{
    let copy = doc.copy(alloc)?;
    if same_up_to_order(doc, &copy) && copy.fits(MAX_DOCUMENT_BYTES, MAX_LEVELS) {
        return spelled(alloc, &copy);
    }
    answer(alloc, "another document")
}

/// What a document is written as that was decoded.
pub fn decoded(alloc: Global, text: &str) -> Result<String>
    ensures { IfOk result (λ answer. (doc : Document) × Write text.now doc × (string_bytes answer ≡ digits_of doc)) }
{
    let doc = written(alloc, text)?;
    spelled(alloc, &doc)
}

/// A document with the fields of each level in the order of names.
pub fn ordered(alloc: Global, text: &str) -> Result<String>
    ensures { IfOk result (λ answer. (doc : Document) × Write text.now doc × (string_bytes answer ≡ digits_of (by_name (ordered_fields doc)))) }
{
    let doc = written(alloc, text)?;
    doc.is_well_formed();
    let ordered = doc.into_ordered();
    spelled(alloc, &ordered)
}

/// Bytes, and behind them a document.
pub fn appended(alloc: Global, text: &str) -> Result<String>
    ensures { IfOk result (λ answer. (front : List ℕ) × (decode_of (before_blank text.now) ≡ Ok front)
        × (doc : Document) × Write (behind_blank text.now) doc × (string_bytes answer ≡ encode_lower (front ++ document_text doc))) }
{
    let (front, doc) = words(text)?;
    let mut out = row_script::bytes(alloc, front)?;
    encode_into(&mut out, &written(alloc, doc)?)?;
    digits(alloc, out.as_slice())
}
