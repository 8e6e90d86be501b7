//! Documents as canonical Extended JSON, from bytes that spell them.
ghost use Rattle.std.specs.Prelude.{◌≡◌, ◌<◌, ◌++◌, length, OnOk, map};
ghost use Rattle.containers.specs.Entries.{AreDistinct, names_of};
ghost use Rattle.bson_value.specs.Alike.{by_name, ordered, ordered_fields};
ghost use Rattle.bson_value.specs.declared.value.Value.TheVariants.{Object, Array};
ghost use Rattle.bson_view.specs.Views.{document, elem_value, parts_left};
ghost use Rattle.bson_view.specs.Parts.{bytes_of, fields_of, values_of};
ghost use Rattle.document_lines.specs.Elems.{ordered_elem, in_order};
ghost use Rattle.document_lines.specs.Json.{json_of, field_json, comma};

use crate::leaves::put_leaf;
use crate::spelling::sorted;
use crate::strings::put_quoted;
use bson_view::{Elem, Elements, View};
use std::alloc::{AllocError, Global};

fn put_comma(out: &mut Vec<u8>, first: bool) -> Result<(), AllocError>
    ensures { OnOk result (out.new.items ≡ out.old.items ++ comma first) }
{
    if !first {
        out.push(44)?;
    }
    Ok(())
}

#[cycle(json)]
fn put_value(alloc: Global, out: &mut Vec<u8>, elem: &Elem<'_>) -> Result<(), AllocError>
    ensures { OnOk result (out.new.items ≡ out.old.items ++ json_of (ordered (elem_value elem.now))) }
{
    elem.spells();
    match elem.tag {
        3 => put_document(alloc, out, elem.elements(), elem.value.len()),
        4 => put_items(alloc, out, elem.elements(), elem.value.len()),
        15 => put_scoped(alloc, out, elem),
        _ => put_leaf(alloc, out, elem),
    }
}

#[cycle(json)]
fn put_scoped(alloc: Global, out: &mut Vec<u8>, elem: &Elem<'_>) -> Result<(), AllocError>
    requires { elem.now.tag ≡ 15 }
    ensures { OnOk result (out.new.items ≡ out.old.items ++ json_of (ordered (elem_value elem.now))) }
{
    elem.spells();
    let (spelled, scope) = elem.scope();
    let code = &spelled[4..spelled.len() - 1];
    out.extend_from_slice(b"{\"$code\":")?;
    put_quoted(out, code)?;
    out.extend_from_slice(b",\"$scope\":")?;
    put_document(alloc, out, scope, elem.value.len())?;
    out.push(125)?;
    Ok(())
}

#[cycle(json)]
fn put_field(alloc: Global, out: &mut Vec<u8>, elem: &Elem<'_>) -> Result<(), AllocError>
    ensures { OnOk result (out.new.items ≡ out.old.items ++ field_json (ordered_elem elem.now)) }
{
    put_quoted(out, elem.name)?;
    out.push(58)?;
    put_value(alloc, out, elem)
}

#[cycle(json)]
fn put_document(
    alloc: Global,
    out: &mut Vec<u8>,
    elements: Elements<'_>,
    room: usize,
) -> Result<(), AllocError>
    requires distinct { AreDistinct (names_of (fields_of (parts_left elements))) }
    requires fits { length (bytes_of (parts_left elements)) < room }
    ensures { OnOk result (out.new.items ≡ out.old.items ++ json_of (Object (in_order (parts_left elements.entry)))) }
{
    let sorted = sorted(alloc, elements, room)?;
    let fields = sorted.as_slice();
    out.push(123)?;
    let mut first = true;
    for elem in fields {
        put_comma(out, first)?;
        put_field(alloc, out, elem)?;
        first = false;
    }
    out.push(125)?;
    Ok(())
}

#[cycle(json)]
fn put_items(
    alloc: Global,
    out: &mut Vec<u8>,
    elements: Elements<'_>,
    room: usize,
) -> Result<(), AllocError>
    requires { length (bytes_of (parts_left elements)) < room }
    ensures { OnOk result (out.new.items ≡ out.old.items ++ json_of (Array (map ordered (values_of (parts_left elements.entry))))) }
{
    out.push(91)?;
    let mut first = true;
    for elem in elements {
        put_comma(out, first)?;
        put_value(alloc, out, &elem)?;
        first = false;
    }
    out.push(93)?;
    Ok(())
}

/// Appends the document as canonical Extended JSON, with the fields of each level by the bytes of their names.
pub fn put_json(alloc: Global, out: &mut Vec<u8>, view: &View<'_>) -> Result<(), AllocError>
    ensures { OnOk result (out.new.items ≡ out.old.items ++ json_of (Object (by_name (ordered_fields (document view.now))))) }
{
    put_document(alloc, out, view.elements(), view.bytes().len())
}
