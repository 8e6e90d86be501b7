//! A walk over the bytes of a document that says whether they are its spelling.
ghost use Rattle.std.specs.Prelude.{◌≡◌, ◌+◌, ◌<◌, ◌≤◌, ◌^◌, ◌↔◌, length, IsTrue, true, ℕ};
ghost use Rattle.std.specs.Fmt.{decimal};
ghost use Rattle.bson_value.specs.Levels.{levels_of};
ghost use Rattle.bson_value.specs.Spelling.{document_text};
ghost use Rattle.bson_value.specs.WellFormed.{AreBytes};
ghost use Rattle.bson_view.specs.Parts.{AreNames, bytes_of};
ghost use Rattle.bson_view.specs.Views.{document, elem_part, parts_left, view_bytes};
ghost use Rattle.bson_spelling.specs.Spelled.{IsSpelled, AreSpelledFields, AreSpelledItems};

use bson_value::type_byte;
use bson_view::{Elem, Elements, View};
use itoa::Buffer;

// Does nothing. Its caller learns that a byte has eight bits.
fn are_bytes(bytes: &[u8])
    ensures { AreBytes bytes.now }
{}

// Whether the name is the number of an element of an array.
fn is_index(name: &[u8], index: usize) -> bool
    ensures { IsTrue result ↔ (name.now ≡ decimal index) }
{
    if index < 10 {
        let digit = [b'0' + index as u8];
        return name == digit.as_slice();
    }
    let mut digits = Buffer::new();
    name == digits.format(index).as_bytes()
}

// Whether it holds no document and no array. Such a value has one spelling.
fn is_leaf(elem: &Elem<'_>) -> bool
    ensures { (n : ℕ) → result ≡ true → IsSpelled n (elem_part elem.now) }
{
    elem.spells();
    !matches!(
        elem.tag,
        type_byte::DOCUMENT | type_byte::ARRAY | type_byte::SCOPED_CODE
    )
}

#[cycle(walk)]
fn is_value(elem: Elem<'_>, levels: usize) -> bool
    ensures { IsTrue result ↔ IsSpelled levels (elem_part elem.entry) }
{
    elem.spells();
    match elem.tag {
        type_byte::DOCUMENT => is_document(&elem, levels),
        type_byte::ARRAY => is_array(&elem, levels),
        type_byte::SCOPED_CODE => is_scoped(&elem, levels),
        _ => true,
    }
}

#[cycle(walk)]
fn is_document(elem: &Elem<'_>, levels: usize) -> bool
    requires { elem.now.tag ≡ 3 }
    ensures { IsTrue result ↔ IsSpelled levels (elem_part elem.now) }
{
    elem.spells();
    are_bytes(elem.value);
    match levels.checked_sub(1) {
        Some(inner) => are_fields(elem.elements(), inner),
        None => false,
    }
}

#[cycle(walk)]
fn is_array(elem: &Elem<'_>, levels: usize) -> bool
    requires { elem.now.tag ≡ 4 }
    ensures { IsTrue result ↔ IsSpelled levels (elem_part elem.now) }
{
    elem.spells();
    are_bytes(elem.value);
    match levels.checked_sub(1) {
        Some(inner) => are_items(elem.elements(), inner),
        None => false,
    }
}

// A code's total and its text have one spelling: the scope decides.
#[cycle(walk)]
fn is_scoped(elem: &Elem<'_>, levels: usize) -> bool
    requires { elem.now.tag ≡ 15 }
    ensures { IsTrue result ↔ IsSpelled levels (elem_part elem.now) }
{
    elem.spells();
    are_bytes(elem.value);
    let (text, _) = elem.scope();
    let scope = Elem {
        name: elem.name,
        tag: type_byte::DOCUMENT,
        value: &elem.value[4 + text.len()..],
    };
    is_document(&scope, levels)
}

#[cycle(walk)]
fn are_fields(elements: Elements<'_>, levels: usize) -> bool
    requires { length (bytes_of (parts_left elements)) < 2 ^ 31 }
    ensures { IsTrue result ↔ AreSpelledFields levels (parts_left elements.entry) }
{
    for elem in elements {
        elem.spells();
        are_bytes(elem.value);
        let spelled = is_leaf(&elem) || is_value(elem, levels);
        if !spelled {
            return false;
        }
    }
    true
}

#[cycle(walk)]
fn are_items(elements: Elements<'_>, levels: usize) -> bool
    requires short { length (bytes_of (parts_left elements)) < 2 ^ 31 }
    requires names { AreNames (parts_left elements) }
    ensures { IsTrue result ↔ AreSpelledItems levels 0 (parts_left elements.entry) }
{
    let mut index: usize = 0;
    for elem in elements {
        elem.spells();
        are_bytes(elem.value);
        let named = is_index(elem.name, index);
        if !named {
            return false;
        }
        let spelled = is_leaf(&elem) || is_value(elem, levels);
        if !spelled {
            return false;
        }
        index += 1;
    }
    true
}

/// Whether the bytes are the spelling of the document that they mean, and it has at most so many levels.
/// The time is linear in the bytes, and it takes no memory.
pub fn is_spelling(view: &View<'_>, levels: usize) -> bool
    ensures { IsTrue result ↔ (view_bytes view.now ≡ document_text (document view.now)) × (levels_of (document view.now) ≤ levels) }
{
    let bytes = view.bytes();
    are_bytes(bytes);
    match levels.checked_sub(1) {
        Some(inner) => are_fields(view.elements(), inner),
        None => false,
    }
}
