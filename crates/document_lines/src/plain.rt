//! Documents and arrays that lie as they are spelled in order.
//!
//! The names of such a document's fields rise, and the elements of such an array are named by their places. Plain ones hold only
//! values that hold no others.
ghost use Rattle.std.specs.Prelude.{◌≡◌, ◌<◌, length, map, IsTrue};
ghost use Rattle.std.specs.Cmp.Lexicographic.{slice_cmp};
ghost use Rattle.std.specs.Ordering.{nat_cmp};
ghost use Rattle.std.specs.declared.cmp.Ordering.TheVariants.{Less};
ghost use Rattle.containers.specs.Entries.{AreDistinct, names_of};
ghost use Rattle.bson_value.specs.Alike.{by_name, ordered, ordered_fields};
ghost use Rattle.bson_value.specs.Spelling.{document_text, element, elements_of, items_of, spelled, spelling};
ghost use Rattle.bson_value.specs.WellFormed.{AreBytes};
ghost use Rattle.bson_view.specs.Parts.{bytes_of, fields_of, part_bytes, values_of};
ghost use Rattle.bson_view.specs.Views.{document, elem_part, elem_value, parts_left, view_bytes};
ghost use Rattle.document_lines.specs.Elems.{in_order};

use crate::name_order::order_of_names;
use bson_view::{Elem, Elements, View};
use itoa::Buffer;
use std::cmp::Ordering;

// Does nothing. Its caller learns that a byte has eight bits.
fn are_bytes(bytes: &[u8])
    ensures { AreBytes bytes.now }
{}

// Whether the element's value holds no others.
fn is_leaf(elem: &Elem<'_>) -> bool
    ensures { IsTrue result → part_bytes (elem_part elem.now) ≡ element (elem.now.name.now, spelling (ordered (elem_value elem.now))) }
{
    elem.spells();
    match elem.tag {
        3 | 4 | 15 => false,
        _ => true,
    }
}

// Whether the element has this name, and its value holds no others.
fn is_plain(elem: &Elem<'_>, name: &[u8]) -> bool
    ensures { IsTrue result → part_bytes (elem_part elem.now) ≡ element (name.now, spelling (ordered (elem_value elem.now))) }
{
    is_leaf(elem) && elem.name == name
}

// Whether the second name stands behind the first.
fn is_behind(before: &[u8], name: &[u8]) -> bool
    ensures { IsTrue result → slice_cmp nat_cmp before.now name.now ≡ Less }
{
    order_of_names(before, name) == Ordering::Less
}

// Whether all elements hold no others and are named by their places.
fn are_plain(elements: Elements<'_>, room: usize) -> bool
    requires { length (bytes_of (parts_left elements)) < room }
    ensures { IsTrue result → bytes_of (parts_left elements.entry) ≡ items_of (map ordered (values_of (parts_left elements.entry))) }
{
    let mut name = Buffer::new();
    let mut index: usize = 0;
    for elem in elements {
        if !is_plain(&elem, name.format(index).as_bytes()) {
            return false;
        }
        index += 1;
    }
    true
}

// Whether all elements hold no others and their names rise. A first name that is empty counts as one that doesn't.
fn are_rising(elements: Elements<'_>) -> bool
    requires { AreDistinct (names_of (fields_of (parts_left elements))) }
    ensures { IsTrue result → bytes_of (parts_left elements.entry) ≡ elements_of (in_order (parts_left elements.entry)) }
{
    let mut before: &[u8] = &[];
    for elem in elements {
        if !is_behind(before, elem.name) || !is_leaf(&elem) {
            return false;
        }
        before = elem.name;
    }
    true
}

/// Whether the bytes of the array are its spelling in order, since it holds no documents, arrays or scopes and its elements are
/// named by their places. Of others it says no.
pub(crate) fn is_plain_array(elem: &Elem<'_>) -> bool
    requires { elem.now.tag ≡ 4 }
    ensures { IsTrue result → elem.now.value.now ≡ spelled (ordered (elem_value elem.now)) }
{
    elem.spells();
    are_bytes(elem.value);
    are_plain(elem.elements(), elem.value.len())
}

/// Whether the bytes of the document are its spelling in order, since it holds no documents, arrays or scopes and the names of its
/// fields rise. Of others it says no, also where the first name is empty. Linear in the bytes up to the first element that isn't
/// such.
pub(crate) fn is_plain_document(elem: &Elem<'_>) -> bool
    requires { elem.now.tag ≡ 3 }
    ensures { IsTrue result → elem.now.value.now ≡ spelled (ordered (elem_value elem.now)) }
{
    elem.spells();
    are_bytes(elem.value);
    are_rising(elem.elements())
}

// Whether the element lies as it is spelled in order, since its value holds no others, or is a plain document or array.
fn is_element_in_order(elem: &Elem<'_>) -> bool
    ensures { IsTrue result → part_bytes (elem_part elem.now) ≡ element (elem.now.name.now, spelling (ordered (elem_value elem.now))) }
{
    elem.spells();
    match elem.tag {
        3 => is_plain_document(elem),
        4 => is_plain_array(elem),
        _ => is_leaf(elem),
    }
}

// Whether all elements are such and their names rise. A first name that is empty counts as one that doesn't.
fn are_in_order(elements: Elements<'_>) -> bool
    requires { AreDistinct (names_of (fields_of (parts_left elements))) }
    ensures { IsTrue result → bytes_of (parts_left elements.entry) ≡ elements_of (in_order (parts_left elements.entry)) }
{
    let mut before: &[u8] = &[];
    for elem in elements {
        if !is_behind(before, elem.name) || !is_element_in_order(&elem) {
            return false;
        }
        before = elem.name;
    }
    true
}

/// Whether the bytes of the document are its spelling in order, since the names of its fields rise, and each holds a plain document
/// or array, or a value that holds no others. Of others it says no, also where the first name is empty. Linear in the bytes up to
/// the first element that isn't such.
pub(crate) fn is_in_order(view: &View<'_>) -> bool
    ensures { IsTrue result → view_bytes view.now ≡ document_text (by_name (ordered_fields (document view.now))) }
{
    are_bytes(view.bytes());
    are_in_order(view.elements())
}
