//! Keys of documents, of both kinds of documents that are held.
ghost use Rattle.std.specs.Prelude.{◌≡◌, ◌↔◌, ◌<◌, ◌^◌, ℕ, List, Bool, Option, None, false, bytes_eq, codes, length, IfOk, IsTrue, OnOk, string_bytes};
ghost use Rattle.row_script.specs.Jsons.{Write};
ghost use Rattle.row_script.specs.Rows.{before_blank, behind_blank};
ghost use Rattle.row_script.specs.Texts.{truth_text};
ghost use Rattle.coll_state.specs.Rows.{Document};
ghost use Rattle.std.specs.Fmt.{decimal};
ghost use Rattle.bson_view.specs.Meaning.{document_in};
ghost use Rattle.index_keys.specs.Branches.{Path as Branch};
ghost use Rattle.index_keys.specs.Faults.{IsKeyFault};
ghost use Rattle.index_keys.specs.Keys.{parallel};
ghost use Rattle.index_keys.specs.Texts.{key_texts};
ghost use Rattle.index_rows.specs.Rows.{AreBoth, count_text, keys_text, plan_over};

use crate::texts::plan;
use anyhow::Result;
use bson_encode::encode;
use bson_value::Doc;
use bson_view::{Held, View, one_document};
use index_keys::{KeyFault, Keys, Plan, keys};
use row_script::jsons::document;
use row_script::{answer, refused, truth, words};
use std::alloc::{AllocError, Global};

// Whether both have the same keys, each of which equals its copy.
fn are_same(alloc: Global, a: &Keys, b: &Keys) -> Result<bool, AllocError>
    ensures { IfOk result (λ is_so. IsTrue is_so ↔ (a.now ≡ b.now)) }
{
    if a.len() != b.len() {
        return Ok(false);
    }
    for i in 0..a.len() {
        if a.get(i).copy(alloc)? != *b.get(i) {
            return Ok(false);
        }
    }
    Ok(true)
}

// The keys of the document that bytes spell.
fn spelled_keys(alloc: Global, plan: &Plan, bytes: &[u8]) -> Result<Keys>
    ensures { IfOk result (λ keys. (length bytes.now < 2 ^ 31) × (keys ≡ key_texts plan.now (document_in bytes.now))) }
{
    match View::check(bytes, 16_777_216, 100) {
        Ok(view) => Ok(keys(alloc, plan, Held::Spelled(view))?),
        Err(_) => refused("a large document"),
    }
}

// The keys of a document from its bytes.
fn keys_again(alloc: Global, plan: &Plan, doc: &Doc) -> Result<Keys>
    ensures { IfOk result (λ keys. keys ≡ key_texts plan.now doc.now) }
{
    let bytes = encode(alloc, doc)?;
    one_document();
    spelled_keys(alloc, plan, bytes.as_slice())
}

// Whether the spelled document has these keys.
fn has_keys(alloc: Global, plan: &Plan, doc: &Doc, built: &Keys) -> Result<bool>
    ensures { IfOk result (λ is_so. IsTrue is_so ↔ (built.now ≡ key_texts plan.now doc.now)) }
{
    let spelled = keys_again(alloc, plan, doc)?;
    Ok(are_same(alloc, built, &spelled)?)
}

// How many keys there are, where the spelled document has these too.
fn count_text(alloc: Global, plan: &Plan, doc: &Doc, built: &Keys) -> Result<String>
    ensures { IfOk result (λ answer. built.now ≡ key_texts plan.now doc.now → string_bytes answer ≡ decimal (length built.now)) }
{
    if !has_keys(alloc, plan, doc, built)? {
        return answer(alloc, "other keys");
    }
    Ok(format!(in alloc; "{}", built.len())?)
}

fn fault_text(alloc: Global, fault: &KeyFault) -> Result<String>
    ensures { IfOk result (λ answer. (two : Option (Branch × Branch)) (count : ℕ) → IsKeyFault fault.now two → string_bytes answer ≡ count_text two count) }
{
    match fault {
        KeyFault::ParallelArrays { first, second } => {
            Ok(format!(in alloc; "parallel {} {}", first.as_str(), second.as_str())?)
        }
        KeyFault::NoMemory => Err(AllocError)?,
    }
}

// How many keys a document has, or the first two fields that meet arrays.
fn keys_text(alloc: Global, plan: &Plan, doc: &Doc) -> Result<String>
    ensures { IfOk result (λ answer. string_bytes answer ≡ keys_text plan.now doc.now) }
{
    match keys(alloc, plan, Held::Built(doc)) {
        Ok(built) => count_text(alloc, plan, doc, &built),
        Err(fault) => fault_text(alloc, &fault),
    }
}

fn told_under(alloc: Global, plan: &Plan, json: &str) -> Result<String>
    ensures { IfOk result (λ answer. (doc : Document) × Write json.now doc × (string_bytes answer ≡ keys_text plan.now doc)) }
{
    let doc = document(alloc, json)?;
    keys_text(alloc, plan, &doc)
}

/// The keys of a document under a plan of these fields, of all documents or sparse.
pub fn told(alloc: Global, text: &str) -> Result<String>
    ensures { IfOk result (λ answer. (doc : Document) × Write (behind_blank (behind_blank text.now)) doc
        × (string_bytes answer ≡ keys_text (plan_over (before_blank text.now) (bytes_eq (before_blank (behind_blank text.now)) (codes "sparse")) false) doc)) }
{
    let (fields, rest) = words(text)?;
    let (kind, json) = words(rest)?;
    let plan = plan(alloc, fields, kind == "sparse", false)?;
    told_under(alloc, &plan, json)
}

fn keys_of(alloc: Global, plan: &Plan, json: &str) -> Result<Keys>
    ensures { IfOk result (λ keys. (doc : Document) × Write json.now doc × (parallel plan.now doc ≡ None) × (keys ≡ key_texts plan.now doc)) }
{
    let doc = document(alloc, json)?;
    Ok(keys(alloc, plan, Held::Built(&doc))?)
}

// Whether a document has these keys.
fn are_keys(alloc: Global, plan: &Plan, json: &str, built: &Keys) -> Result<bool>
    ensures { IfOk result (λ is_so. (doc : Document) × Write json.now doc × (IsTrue is_so ↔ (built.now ≡ key_texts plan.now doc))) }
{
    let other = keys_of(alloc, plan, json)?;
    Ok(are_same(alloc, built, &other)?)
}

fn compared_under(alloc: Global, plan: &Plan, first: &str, second: &str) -> Result<bool>
    ensures { IfOk result (λ is_so. (a : Document) × (b : Document) × Write first.now a × Write second.now b
        × (IsTrue is_so ↔ (key_texts plan.now a ≡ key_texts plan.now b))) }
{
    let first = keys_of(alloc, plan, first)?;
    are_keys(alloc, plan, second, &first)
}

// The texts round the mark, or a text twice where it has none.
fn both(text: &str) -> (&str, &str)
    ensures { AreBoth text.now result.0.now result.1.now }
{
    match text.split_once(" ~ ") {
        Some(parts) => parts,
        None => (text, text),
    }
}

/// Whether two documents have the same keys of the field `k`.
pub fn compared(alloc: Global, text: &str) -> Result<String>
    ensures { IfOk result (λ answer. (first : List ℕ) × (second : List ℕ) × (a : Document) × (b : Document) × (is_so : Bool)
        × AreBoth text.now first second × Write first a × Write second b
        × (IsTrue is_so ↔ (key_texts (plan_over (codes "k") false false) a ≡ key_texts (plan_over (codes "k") false false) b))
        × (string_bytes answer ≡ truth_text is_so)) }
{
    let (first, second) = both(text);
    let plan = plan(alloc, "k", false, false)?;
    let are_same = compared_under(alloc, &plan, first, second)?;
    truth(alloc, are_same)
}
