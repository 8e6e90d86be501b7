//! Values at places, and changes of a document at a place.
ghost use Rattle.std.specs.Prelude.{◌≡◌, ◌↔◌, Some, IsTrue, IsSome, OnOk, OnErr};
ghost use Rattle.std.specs.Option.{option_copied};
ghost use Rattle.bson_value.specs.declared.value.Value.{Object as object_of, Array as array_of};
ghost use Rattle.doc_path.specs.declared.parts.Change.TheVariants.{Put, Delete, Resize as Length};
ghost use Rattle.doc_path.specs.Played.{touch_at};
ghost use Rattle.doc_path.specs.Ways.{under, value_in, changed_along, changed_at, emptied, HasRoom, IsArrayAt, IsResizedAt, ChangesOnly, ChangesOnlyBehind};

use crate::parts::{Change, Part, Rule};
use crate::touches::Place;
use crate::writing::change_in;
use bson_value::{Doc, List, Value};
use std::alloc::AllocError;

/// The field that the part names.
fn field<'d>(doc: &'d Doc, part: &Part) -> Option<&'d Value>
    ensures { option_copied result ≡ under part.now (object_of doc.now) }
{
    match part {
        Part::Name(name) => doc.get(name.as_str()),
        Part::Index(_) => None,
    }
}

/// The element whose index the part is.
fn element<'d>(items: &'d List<Value>, part: &Part) -> Option<&'d Value>
    ensures { option_copied result ≡ under part.now (array_of items.now) }
{
    match part {
        Part::Name(_) => None,
        Part::Index(at) => items.get(*at as usize),
    }
}

/// The value that the part leads to.
fn inner<'d>(value: &'d Value, part: &Part) -> Option<&'d Value>
    ensures { option_copied result ≡ under part.now value.now }
{
    match value {
        Value::Object(doc) => field(doc, part),
        Value::Array(items) => element(items, part),
        _ => None,
    }
}

/// The value at the end of the way.
fn at_end<'d>(value: &'d Value, way: &[Part]) -> Option<&'d Value>
    ensures { option_copied result ≡ value_in way.now value.now }
{
    match way.split_first() {
        None => Some(value),
        Some((first, rest)) => at_end(inner(value, first)?, rest),
    }
}

/// The value at the place. A name leads on in a document, and an index in an array; the scope of a
/// code has no places here. It takes no memory.
pub fn at<'d>(doc: &'d Doc, place: &Place) -> Option<&'d Value>
    ensures { option_copied result ≡ value_in place.now (object_of doc.now) }
{
    let (first, rest) = place.parts().as_slice().split_first()?;
    at_end(field(doc, first)?, rest)
}

/// Sets the value at the place: in the place of the one there, or as a new field at the end, or as a
/// new element at the end.
pub fn set(doc: &mut Doc, place: &Place, value: Value) -> Result<(), AllocError>
    requires { HasRoom place.now (object_of doc.old) }
    ensures document { OnOk result (object_of doc.new ≡ changed_at place.now (Put value) (object_of doc.old)) }
    ensures there { OnOk result (value_in place.now (object_of doc.new) ≡ Some value) }
    ensures elsewhere { OnOk result (ChangesOnly (touch_at place.now (Put value)) (object_of doc.old) (object_of doc.new)) }
    ensures err { OnErr result (doc.new ≡ doc.old) }
{
    match place.parts().as_slice().split_last() {
        None => Ok(()),
        Some((last, way)) => change_in(doc, Rule::Plain, way, last, Change::Put(value)),
    }
}

/// Takes out what stands at the end of the way. It takes no memory.
fn take_out(doc: &mut Doc, way: &[Part], last: &Part)
    ensures { object_of doc.new ≡ changed_along way.now last.now Delete (object_of doc.old) }
{
    let _ = change_in(doc, Rule::Plain, way, last, Change::Delete);
}

/// Takes out the field at the place. An element there becomes null, so that those behind it stay
/// where they are. Whether there was one. It takes no memory.
pub fn unset(doc: &mut Doc, place: &Place) -> bool
    ensures answer { IsTrue result ↔ IsSome (value_in place.now (object_of doc.old)) }
    ensures document { object_of doc.new ≡ changed_at place.now Delete (object_of doc.old) }
    ensures after { value_in place.now (object_of doc.new) ≡ emptied place.now (value_in place.now (object_of doc.old)) }
    ensures elsewhere { ChangesOnly (touch_at place.now Delete) (object_of doc.old) (object_of doc.new) }
{
    let there = at(doc, place).is_some();
    match place.parts().as_slice().split_last() {
        None => false,
        Some((last, way)) => {
            take_out(doc, way, last);
            there
        }
    }
}

/// Cuts the array at the place to this length, or pads it with nulls.
pub fn resize(doc: &mut Doc, place: &Place, len: u32) -> Result<(), AllocError>
    requires { IsArrayAt place.now (object_of doc.old) }
    ensures document { OnOk result (object_of doc.new ≡ changed_at place.now (Length len) (object_of doc.old)) }
    ensures there { OnOk result (IsResizedAt place.now len (object_of doc.old) (object_of doc.new)) }
    ensures elsewhere { OnOk result (ChangesOnlyBehind place.now len (object_of doc.old) (object_of doc.new)) }
    ensures err { OnErr result (doc.new ≡ doc.old) }
{
    match place.parts().as_slice().split_last() {
        None => Ok(()),
        Some((last, way)) => change_in(doc, Rule::Plain, way, last, Change::Resize(len)),
    }
}
