//! Elements of a document's bytes.
ghost use Rattle.std.specs.Prelude.{◌≡◌, ◌∷◌, ◌++◌, [], ℕ, Ok, Some, IfOk, IsTrue, List, OnOk, codes, option_map, slice_get, string_bytes};
ghost use Rattle.std.specs.List.{slice_split};
ghost use Rattle.hex.specs.Hex.{decode_of, encode_lower};
ghost use Rattle.bson_check.specs.Faults.{first_fault};
ghost use Rattle.bson_view.specs.Kept.{kept_bytes};
ghost use Rattle.bson_view.specs.Parts.{elements_in};
ghost use Rattle.bson_view.specs.Paths.{part_named};
ghost use Rattle.bson_view.specs.Views.{elem_part, view_bytes};
ghost use Rattle.bson_rows.specs.Rows.{is_dot, kept_text, names_of, number_of, number_text, part_answer, path_text};

use crate::held::tag_of;
use crate::texts::{fault_text, name};
use anyhow::Result;
use bson_check::MAX_DOCUMENT_BYTES;
use bson_value::{Bytes, Doc};
use bson_view::{DocumentBytes, Elem, Held, View};
use containers::{CText, List};
use row_script::{answer, digits, number, refused};
use std::alloc::Global;

pub fn view(bytes: &[u8]) -> Result<View<'_>>
    ensures { IfOk result (λ view. view_bytes view ≡ bytes.now) }
{
    match View::check(bytes, MAX_DOCUMENT_BYTES, 200) {
        Ok(_) => Ok(View::of(bytes)),
        Err(_) => refused("no document"),
    }
}

fn name_text(name: &[u8]) -> Result<&str>
    ensures { IfOk result (λ text. text.now ≡ name.now) }
{
    Ok(std::str::from_utf8(name)?)
}

// The name of an element, its type and its bytes.
fn part_text(alloc: Global, element: Elem<'_>) -> Result<String>
    ensures { IfOk result (λ text. string_bytes text ≡ part_answer (Some (elem_part element.entry))) }
{
    let name = name_text(element.name)?;
    let value = digits(alloc, element.value)?;
    Ok(format!(in alloc; "{name} {} ({value})", element.tag)?)
}

fn element_text(alloc: Global, element: Option<Elem<'_>>) -> Result<String>
    ensures { IfOk result (λ text. string_bytes text ≡ part_answer (option_map elem_part element.entry)) }
{
    match element {
        Some(element) => part_text(alloc, element),
        None => answer(alloc, "none"),
    }
}

fn nth_element<'a>(view: View<'a>, place: usize) -> Option<Elem<'a>>
    ensures { option_map elem_part result ≡ slice_get (elements_in (view_bytes view.entry)) place }
{
    view.elements().nth(place)
}

/// The element of this number.
pub fn element(alloc: Global, bytes: &[u8], text: &str) -> Result<String>
    ensures { IfOk result (λ answer. string_bytes answer ≡ part_answer (slice_get (elements_in bytes.now) (number_of text.now))) }
{
    let place = number(text)?;
    let view = view(bytes)?;
    element_text(alloc, nth_element(view, place))
}

/// The element of this name.
pub fn field(alloc: Global, bytes: &[u8], name: &str) -> Result<String>
    ensures { IfOk result (λ answer. string_bytes answer ≡ part_answer (part_named name.now (elements_in bytes.now))) }
{
    let view = view(bytes)?;
    element_text(alloc, view.field(name))
}

fn put_name(alloc: Global, names: &mut List<CText>, word: &str) -> Result<()>
    ensures { OnOk result (names.new ≡ names.old ++ word.now ∷ []) }
{
    let name = name(alloc, word)?;
    Ok(names.push(name)?)
}

// The names between the dots of a text.
fn parts(alloc: Global, text: &str) -> Result<List<CText>>
    ensures { IfOk result (λ names. names ≡ slice_split is_dot text.now) }
{
    let mut names = List::new(alloc);
    for word in text.split('.') {
        put_name(alloc, &mut names, word)?;
    }
    Ok(names)
}

// The names of a dotted path.
fn names(alloc: Global, path: &str) -> Result<List<CText>>
    ensures { IfOk result (λ names. names ≡ names_of path.now) }
{
    if path.is_empty() {
        return Ok(List::new(alloc));
    }
    parts(alloc, path)
}

// A text, and the types of values.
fn typed(alloc: Global, text: &str, spelled: Option<u8>, built: Option<u8>) -> Result<String>
    ensures { IfOk result (λ answer. string_bytes answer ≡ text.now ++ codes ", held " ++ number_text spelled ++ codes " " ++ number_text built) }
{
    Ok(format!(in alloc; "{text}, held {spelled:?} {built:?}")?)
}

// The element at a path, and the types that both kinds of documents that are held have there.
fn path_text(alloc: Global, view: View<'_>, doc: &Doc, names: &List<CText>) -> Result<String>
    ensures { IfOk result (λ answer. string_bytes answer ≡ path_text names.now (view_bytes view.entry) doc.now) }
{
    let element = element_text(alloc, view.get(names))?;
    let spelled = tag_of(Held::Spelled(view).get(names));
    let built = tag_of(Held::Built(doc).get(names));
    typed(alloc, element.as_str(), spelled, built)
}

/// The element at a path, and the types that both kinds of documents that are held have there.
pub fn path(alloc: Global, bytes: &[u8], doc: &Doc, text: &str) -> Result<String>
    ensures { IfOk result (λ answer. string_bytes answer ≡ path_text (names_of text.now) bytes.now doc.now) }
{
    let view = view(bytes)?;
    let names = names(alloc, text)?;
    path_text(alloc, view, doc, &names)
}

// Whether the bytes of a copy are those of the view.
fn is_copied(alloc: Global, kept: &DocumentBytes) -> Result<bool>
    ensures { IfOk result (λ is_so. IsTrue is_so) }
{
    let copy = DocumentBytes::of(alloc, kept.as_slice())?;
    let bytes = copy.into_bytes();
    Ok(bytes.as_slice() == kept.view().bytes())
}

// The bytes of a document that is kept, of its view and of a copy.
fn bytes_text(alloc: Global, kept: &DocumentBytes) -> Result<String>
    ensures { IfOk result (λ answer. string_bytes answer ≡ encode_lower (kept_bytes kept.now)) }
{
    if is_copied(alloc, kept)? {
        digits(alloc, kept.as_slice())
    } else {
        answer(alloc, "other bytes")
    }
}

fn kept_text(alloc: Global, bytes: Bytes) -> Result<String>
    ensures { IfOk result (λ answer. string_bytes answer ≡ kept_text (first_fault 16793600 200 bytes) bytes) }
{
    match DocumentBytes::check(bytes) {
        Ok(kept) => bytes_text(alloc, &kept),
        Err(fault) => fault_text(alloc, fault),
    }
}

/// The bytes that are kept as a document, or their first fault.
pub fn kept(alloc: Global, text: &str) -> Result<String>
    ensures { IfOk result (λ answer. (bytes : List ℕ) × (decode_of text.now ≡ Ok bytes)
        × (string_bytes answer ≡ kept_text (first_fault 16793600 200 bytes) bytes)) }
{
    let bytes = row_script::bytes(alloc, text)?;
    kept_text(alloc, Bytes::from_vec(bytes))
}
