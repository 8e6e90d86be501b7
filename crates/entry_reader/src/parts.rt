//! What the elements of an entry hold, by their kind.
ghost use Rattle.std.specs.Prelude.{◌≡◌, IfOk, option_map};
ghost use Rattle.bson_value.specs.declared.value.Value.{out-Value};
ghost use Rattle.bson_view.specs.Views.{document, elem_value};
ghost use Rattle.doc_path.specs.Played.{id_name};
ghost use Rattle.entry_model.specs.Reading.{text_in, document_in, stamp_in, is_whole, namespace_of};
ghost use Rattle.entry_reader.specs.Parts.{text_at, stamp_at, id_at};

use bson_value::{Doc, NsName, Ts, Value};
use bson_view::{Elem, View};
use std::alloc::{AllocError, Global};

fn text_of<'a>(elem: &Elem<'a>) -> Option<&'a str>
    ensures { option_map (λ t. t.now) result ≡ text_in (out-Value (elem_value elem.now)) }
{
    elem.read().as_str()
}

fn stamp_of(elem: &Elem<'_>) -> Option<Ts>
    ensures { result ≡ stamp_in (out-Value (elem_value elem.now)) }
{
    elem.read().as_ts()
}

pub(crate) fn text<'a>(elem: Option<Elem<'a>>) -> Option<&'a str>
    ensures { option_map (λ t. t.now) result ≡ text_at (option_map elem_value elem.entry) }
{
    match elem {
        Some(elem) => text_of(&elem),
        None => None,
    }
}

pub(crate) fn stamp(elem: Option<Elem<'_>>) -> Option<Ts>
    ensures { result ≡ stamp_at (option_map elem_value elem.entry) }
{
    match elem {
        Some(elem) => stamp_of(&elem),
        None => None,
    }
}

/// The document that the element is, in memory of its own.
pub(crate) fn built(alloc: Global, elem: &Elem<'_>) -> Result<Option<Doc>, AllocError>
    ensures { IfOk result (λ d. d ≡ document_in (out-Value (elem_value elem.now))) }
{
    match elem.to_value(alloc)? {
        Value::Object(doc) => Ok(Some(doc)),
        _ => Ok(None),
    }
}

/// The `_id` of the document that the element is.
pub(crate) fn id<'a>(elem: &Elem<'a>) -> Option<Elem<'a>>
    ensures { option_map elem_value result ≡ id_at (document_in (out-Value (elem_value elem.now))) }
{
    elem.document()?.field("_id")
}

/// Whether an update's fields are the whole document.
pub(crate) fn is_whole(view: &View<'_>) -> bool
    ensures { result ≡ is_whole (document view.now) }
{
    match view.elements().next() {
        None => true,
        Some(elem) => elem.name.first() != Some(&b'$'),
    }
}

pub(crate) fn namespace(alloc: Global, text: &str) -> Result<Option<NsName>, AllocError>
    ensures { IfOk result (λ ns. ns ≡ namespace_of text.now) }
{
    NsName::split(alloc, text)
}
