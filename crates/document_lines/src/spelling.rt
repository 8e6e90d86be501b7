//! The spelling of a document with the fields of each level in the order of their names, from bytes that spell it.
ghost use Rattle.std.specs.Prelude.{◌≡◌, ◌+◌, ◌-◌, ◌<◌, ◌≤◌, ◌++◌, ◌∷◌, [], length, take, drop, OnOk, IfOk, map};
ghost use Rattle.std.specs.List.Sorted.{IsPermutation};
ghost use Rattle.containers.specs.Entries.{AreDistinct, names_of};
ghost use Rattle.bson_value.specs.Alike.{by_name, ordered, ordered_fields};
ghost use Rattle.bson_value.specs.Spelling.{spelling, spelled, element, elements_of, items_of, document_text, framed, count_bytes};
ghost use Rattle.bson_view.specs.Views.{document, elem_part, elem_value, parts_left};
ghost use Rattle.bson_view.specs.Parts.{bytes_of, fields_of, values_of};
ghost use Rattle.document_lines.specs.Elems.{ordered_elems, in_order, AreBelow};

use crate::name_order::order_of_names;
use crate::plain::{is_plain_array, is_plain_document};
use bson_view::{Elem, Elements, View};
use itoa::Buffer;
use std::alloc::{AllocError, Global};

// Writes the count of the bytes from `start` on, there.
fn patch(out: &mut Vec<u8>, start: usize)
    requires { start + 4 ≤ length out.old.items }
    ensures { out.new.items ≡ take start out.old.items ++ count_bytes (length out.old.items - start) ++ drop (start + 4) out.old.items }
{
    let count = ((out.len() - start) % 4294967296) as u32;
    out[start..start + 4].copy_from_slice(&count.to_le_bytes());
}

fn gathered<'a>(alloc: Global, elements: Elements<'a>) -> Result<Vec<Elem<'a>>, AllocError>
    ensures { IfOk result (λ es. map elem_part es.items ≡ parts_left elements.entry) }
{
    let mut gathered = Vec::with_capacity(alloc, 16)?;
    for elem in elements {
        gathered.push(elem)?;
    }
    Ok(gathered)
}

fn by_name<'a>(elems: Vec<Elem<'a>>) -> Vec<Elem<'a>>
    requires { AreDistinct (names_of (ordered_elems elems.items)) }
    ensures order { ordered_elems result.items ≡ by_name (ordered_elems elems.entry.items) }
    ensures moved { IsPermutation elems.entry.items result.items }
{
    let mut elems = elems;
    elems.sort_unstable_by(|a, b| order_of_names(a.name, b.name));
    elems
}

/// The elements by the bytes of their names.
pub fn sorted<'a>(
    alloc: Global,
    elements: Elements<'a>,
    room: usize,
) -> Result<Vec<Elem<'a>>, AllocError>
    requires distinct { AreDistinct (names_of (fields_of (parts_left elements))) }
    requires fits { length (bytes_of (parts_left elements)) < room }
    ensures order { IfOk result (λ es. ordered_elems es.items ≡ in_order (parts_left elements.entry)) }
    ensures below { IfOk result (λ es. AreBelow room es.items) }
{
    let elems = gathered(alloc, elements)?;
    Ok(by_name(elems))
}

#[cycle(spell)]
fn put_value(alloc: Global, out: &mut Vec<u8>, elem: &Elem<'_>) -> Result<(), AllocError>
    ensures { OnOk result (out.new.items ≡ out.old.items ++ spelled (ordered (elem_value elem.now))) }
{
    elem.spells();
    match elem.tag {
        3 => put_document_value(alloc, out, elem),
        4 => put_array_value(alloc, out, elem),
        15 => put_scoped(alloc, out, elem),
        _ => {
            out.extend_from_slice(elem.value)?;
            Ok(())
        }
    }
}

// A document that lies as it is spelled in order is copied whole.
#[cycle(spell)]
fn put_document_value(alloc: Global, out: &mut Vec<u8>, elem: &Elem<'_>) -> Result<(), AllocError>
    requires { elem.now.tag ≡ 3 }
    ensures { OnOk result (out.new.items ≡ out.old.items ++ spelled (ordered (elem_value elem.now))) }
{
    elem.spells();
    if is_plain_document(elem) {
        out.extend_from_slice(elem.value)?;
        return Ok(());
    }
    put_document(alloc, out, elem.elements(), elem.value.len())
}

// An array that lies as it is spelled in order is copied whole.
#[cycle(spell)]
fn put_array_value(alloc: Global, out: &mut Vec<u8>, elem: &Elem<'_>) -> Result<(), AllocError>
    requires { elem.now.tag ≡ 4 }
    ensures { OnOk result (out.new.items ≡ out.old.items ++ spelled (ordered (elem_value elem.now))) }
{
    elem.spells();
    if is_plain_array(elem) {
        out.extend_from_slice(elem.value)?;
        return Ok(());
    }
    put_array(alloc, out, elem.elements(), elem.value.len())
}

#[cycle(spell)]
fn put_scoped(alloc: Global, out: &mut Vec<u8>, elem: &Elem<'_>) -> Result<(), AllocError>
    requires { elem.now.tag ≡ 15 }
    ensures { OnOk result (out.new.items ≡ out.old.items ++ spelled (ordered (elem_value elem.now))) }
{
    elem.spells();
    let start = out.len();
    let (code, elements) = elem.scope();
    out.extend_from_slice(&[0, 0, 0, 0])?;
    out.extend_from_slice(code)?;
    put_document(alloc, out, elements, elem.value.len())?;
    patch(out, start);
    Ok(())
}

#[cycle(spell)]
fn put_element(
    alloc: Global,
    out: &mut Vec<u8>,
    name: &[u8],
    elem: &Elem<'_>,
) -> Result<(), AllocError>
    ensures { OnOk result (out.new.items ≡ out.old.items ++ element (name.now, spelling (ordered (elem_value elem.now)))) }
{
    elem.spells();
    out.push(elem.tag)?;
    out.extend_from_slice(name)?;
    out.push(0)?;
    put_value(alloc, out, elem)
}

#[cycle(spell)]
fn put_fields(
    alloc: Global,
    out: &mut Vec<u8>,
    elements: Elements<'_>,
    room: usize,
) -> Result<(), AllocError>
    requires distinct { AreDistinct (names_of (fields_of (parts_left elements))) }
    requires fits { length (bytes_of (parts_left elements)) < room }
    ensures { OnOk result (out.new.items ≡ out.old.items ++ elements_of (in_order (parts_left elements.entry))) }
{
    let sorted = sorted(alloc, elements, room)?;
    let fields = sorted.as_slice();
    for elem in fields {
        put_element(alloc, out, elem.name, elem)?;
    }
    Ok(())
}

#[cycle(spell)]
fn put_items(
    alloc: Global,
    out: &mut Vec<u8>,
    elements: Elements<'_>,
    room: usize,
) -> Result<(), AllocError>
    requires { length (bytes_of (parts_left elements)) < room }
    ensures { OnOk result (out.new.items ≡ out.old.items ++ items_of (map ordered (values_of (parts_left elements.entry)))) }
{
    let mut name = Buffer::new();
    let mut index: usize = 0;
    for elem in elements {
        put_element(alloc, out, name.format(index).as_bytes(), &elem)?;
        index += 1;
    }
    Ok(())
}

#[cycle(spell)]
fn put_document(
    alloc: Global,
    out: &mut Vec<u8>,
    elements: Elements<'_>,
    room: usize,
) -> Result<(), AllocError>
    requires distinct { AreDistinct (names_of (fields_of (parts_left elements))) }
    requires fits { length (bytes_of (parts_left elements)) < room }
    ensures { OnOk result (out.new.items ≡ out.old.items ++ document_text (in_order (parts_left elements.entry))) }
{
    let start = out.len();
    out.extend_from_slice(&[0, 0, 0, 0])?;
    put_fields(alloc, out, elements, room)?;
    out.push(0)?;
    patch(out, start);
    Ok(())
}

#[cycle(spell)]
fn put_array(
    alloc: Global,
    out: &mut Vec<u8>,
    elements: Elements<'_>,
    room: usize,
) -> Result<(), AllocError>
    requires { length (bytes_of (parts_left elements)) < room }
    ensures { OnOk result (out.new.items ≡ out.old.items ++ framed (items_of (map ordered (values_of (parts_left elements.entry))))) }
{
    let start = out.len();
    out.extend_from_slice(&[0, 0, 0, 0])?;
    put_items(alloc, out, elements, room)?;
    out.push(0)?;
    patch(out, start);
    Ok(())
}

/// Appends the spelling of the document, with the fields of each level, scopes of code included, by the bytes of their names.
pub fn put_ordered(alloc: Global, out: &mut Vec<u8>, view: &View<'_>) -> Result<(), AllocError>
    ensures { OnOk result (out.new.items ≡ out.old.items ++ document_text (by_name (ordered_fields (document view.now)))) }
{
    put_document(alloc, out, view.elements(), view.bytes().len())
}
