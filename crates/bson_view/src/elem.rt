//! An element of a document or an array.
ghost use Rattle.std.specs.Prelude.{◌≡◌, ◌<◌, ◌^◌, length, Some, IfOk, IfSome, IsTrue, option_map};
ghost use Rattle.bson_value.specs.declared.value.Value.{out-Value};
ghost use Rattle.bson_value.specs.Spelling.{spelled, tag_of};
ghost use Rattle.bson_view.specs.Meaning.{is_value, AreValue, IsLeaf};
ghost use Rattle.bson_value.specs.WellFormed.{AreBytes};

use crate::elements::Elements;
use crate::view::View;
use bson_check::DecodeFault;
use bson_check::passing::after;
use bson_core::decode_value;
use bson_value::{CText, Value};
use std::alloc::{AllocError, Global};

/// An element of a document or an array, with the bytes of its value. The name of an array's element
/// may be any bytes: its place counts, and not its name.
#[derive(Clone, Copy, Debug)]
pub struct Elem<'a> {
    pub name: &'a [u8],
    pub tag: u8,
    pub value: &'a [u8],
    ghost spelled: { IsTrue (is_value tag value.now) },
    ghost short: { length value.now < 2 ^ 31 },
}

// Does nothing. Its caller learns that a byte has eight bits.
fn are_bytes(bytes: &[u8])
    ensures { AreBytes bytes.now }
{}

impl<'a> Elem<'a> {
    ghost use Rattle.bson_view.specs.Views.{document, elem_part, elem_value, parts_left};
    ghost use Rattle.bson_view.specs.Parts.{AreElementsOf, AreScopedParts, elements_in};
    ghost use Rattle.bson_view.specs.HeldWalk.{fields_in};
    ghost use Rattle.bson_view.specs.Paths.{value_under, value_along, part_under, part_along};

    /// Does nothing. Its caller learns that the bytes are those of the value, and the only ones where it
    /// holds no document and no array.
    pub fn spells(&self)
        ensures spelled { AreValue self.now.tag self.now.value.now (elem_value self.now) }
        ensures tag { self.now.tag ≡ tag_of (elem_value self.now) }
        ensures leaf { IsLeaf (out-Value (elem_value self.now)) → self.now.value.now ≡ spelled (elem_value self.now) }
    {
        are_bytes(self.value);
    }

    /// A copy of the value in memory of its own.
    pub fn to_value(&self, alloc: Global) -> Result<Value, AllocError>
        ensures { IfOk result (λ v. v ≡ elem_value self.now) }
    {
        match decode_value(alloc, self.tag, self.value) {
            Ok(value) => Ok(value),
            Err(DecodeFault::NoMemory) => Err(AllocError),
            Err(DecodeFault::Bad(_)) => unreachable!(),
        }
    }

    /// The elements of a document or an array, in order. Any other value has none, also a code with a
    /// scope.
    pub fn elements(&self) -> Elements<'a>
        ensures { AreElementsOf (out-Value (elem_value self.now)) self.now.value.now (parts_left result) }
    {
        if self.tag == 3 || self.tag == 4 {
            Elements::of_frame(self.value)
        } else {
            Elements::none(self.value)
        }
    }

    /// The document that the element is.
    pub fn document(&self) -> Option<View<'a>>
        ensures { option_map document result ≡ fields_in (out-Value (elem_value self.now)) }
    {
        if self.tag == 3 {
            Some(View::of_element(self.value))
        } else {
            None
        }
    }

    /// The parts of a code with a scope: its text, as it is spelled, and the elements of the scope.
    pub fn scope(&self) -> (&'a [u8], Elements<'a>)
        requires { self.now.tag ≡ 15 }
        ensures { AreScopedParts (out-Value (elem_value self.now)) self.now.value.now result.0.now (parts_left result.1) }
    {
        let behind = &self.value[4..];
        let scope = after(2, behind);
        let text = &behind[..behind.len() - scope.len()];
        are_bytes(text);
        (text, Elements::of_frame(scope))
    }

    /// The element under the name: a field of a document, or the element of an array whose index it
    /// writes.
    pub fn under(&self, name: &str) -> Option<Elem<'a>>
        ensures value { option_map elem_value result ≡ value_under (out-Value (elem_value self.now)) name.now }
        ensures spelled { IfSome result (λ e. AreValue e.tag e.value.now (elem_value e)) }
        ensures place { option_map elem_part result ≡ part_under self.now.tag (elements_in self.now.value.now) name.now }
    {
        match self.tag {
            3 => Elements::of_frame(self.value).named(name),
            4 => Elements::of_frame(self.value).item(name),
            _ => None,
        }
    }

    /// The element that the names lead to.
    pub(crate) fn along(self, names: &[CText]) -> Option<Elem<'a>>
        ensures value { option_map elem_value result ≡ value_along (Some (elem_value self.entry)) names.now }
        ensures spelled { IfSome result (λ e. AreValue e.tag e.value.now (elem_value e)) }
        ensures place { option_map elem_part result ≡ part_along (Some (elem_part self.entry)) names.now }
    {
        let mut elem = self;
        for name in names {
            elem = elem.under(name.as_str())?;
        }
        Some(elem)
    }
}
