//! A document read where it lies.
ghost use Rattle.std.specs.Prelude.{◌≡◌, ◌↔◌, None, IsOk, IfOk, IfSome, option_map, IsTrue};
ghost use Rattle.std.specs.Result.{result_err};
ghost use Rattle.containers.specs.Entries.{lookup};
ghost use Rattle.bson_check.specs.Reading.{document_of};
ghost use Rattle.bson_check.specs.Spells.{IsFrame, Spells, SpellsWithin, IsSomeDocument};
ghost use Rattle.bson_check.specs.Faults.{first_fault};
ghost use Rattle.bson_view.specs.Meaning.{is_document, AreValue};

use crate::elem::Elem;
use crate::elements::Elements;
use crate::fields::Fields;
use bson_check::{BsonFault, check};
use bson_value::{CText, List};

/// A document that was checked, borrowed from the bytes that spell it. It may be of any size and depth.
#[derive(Clone, Copy, Debug)]
pub struct View<'a> {
    bytes: &'a [u8],
    ghost checked: { IsTrue (is_document bytes.now) },
}

impl<'a> View<'a> {
    ghost use Rattle.bson_view.specs.Views.{view_bytes, document, elem_part, elem_value, parts_left};
    ghost use Rattle.bson_view.specs.FieldWalk.{field_parts};
    ghost use Rattle.bson_view.specs.Parts.{bytes_of, fields_of, elements_in};
    ghost use Rattle.bson_view.specs.Paths.{value_at, part_named, part_at};

    /// The view of the bytes, where all of them are one document of at most `max` bytes and `depth`
    /// levels. Else the first fault from the left, with its place in the bytes.
    pub fn check(bytes: &'a [u8], max: usize, depth: usize) -> Result<View<'a>, BsonFault>
        ensures spelled { IsOk result ↔ IsSomeDocument max depth bytes.now }
        ensures fault { result_err result ≡ first_fault max depth bytes.now }
        ensures bytes { IfOk result (λ v. view_bytes v ≡ bytes.now) }
        ensures document { IfOk result (λ v. SpellsWithin max depth bytes.now (document v)) }
        ensures read { IfOk result (λ v. document_of max depth bytes.now ≡ Ok (document v)) }
    {
        match check(bytes, max, depth) {
            Ok(_) => Ok(View { bytes }),
            Err(fault) => Err(fault),
        }
    }

    /// The view of the bytes of one document of at most 16,793,600 bytes and 200 levels, which are the
    /// limits of a document in an archive.
    pub fn of(bytes: &'a [u8]) -> View<'a>
        requires { first_fault 16793600 200 bytes.now ≡ None }
        ensures bytes { view_bytes result ≡ bytes.now }
        ensures document { SpellsWithin 16793600 200 bytes.now (document result) }
        ensures read { document_of 16793600 200 bytes.now ≡ Ok (document result) }
    {
        View { bytes }
    }

    // The view of the bytes of a document in another one.
    pub(crate) fn of_element(bytes: &'a [u8]) -> View<'a>
        requires { IsTrue (is_document bytes.now) }
        ensures { view_bytes result ≡ bytes.now }
    {
        View { bytes }
    }

    /// The whole spelling.
    pub fn bytes(&self) -> &'a [u8]
        ensures bytes { result.now ≡ view_bytes self.now }
        ensures spelled { Spells result.now (document self.now) }
    {
        self.bytes
    }

    /// The elements in order. Their bytes, one after the other, are all that stands between the length
    /// of the document and its last zero.
    pub fn elements(&self) -> Elements<'a>
        ensures fields { fields_of (parts_left result) ≡ document self.now }
        ensures places { IsFrame (view_bytes self.now) (bytes_of (parts_left result)) }
        ensures parts { parts_left result ≡ elements_in (view_bytes self.now) }
    {
        Elements::of_frame(self.bytes)
    }

    /// The fields in order.
    pub fn fields(&self) -> Fields<'a>
        ensures { fields_of (field_parts result) ≡ document self.now }
    {
        Fields::of(self)
    }

    /// The field of this name.
    pub fn field(&self, name: &str) -> Option<Elem<'a>>
        ensures value { option_map elem_value result ≡ lookup name.now (document self.now) }
        ensures name { IfSome result (λ e. e.name.now ≡ name.now) }
        ensures spelled { IfSome result (λ e. AreValue e.tag e.value.now (elem_value e)) }
        ensures place { option_map elem_part result ≡ part_named name.now (elements_in (view_bytes self.now)) }
    {
        self.elements().named(name)
    }

    /// The element that the path names: a name leads on in a document, and an index, in decimal digits
    /// without a zero in front, in an array. The scope of a code isn't entered. `None` exactly where
    /// the path is empty or names no value.
    pub fn get(&self, path: &List<CText>) -> Option<Elem<'a>>
        ensures value { option_map elem_value result ≡ value_at path.now (document self.now) }
        ensures spelled { IfSome result (λ e. AreValue e.tag e.value.now (elem_value e)) }
        ensures place { option_map elem_part result ≡ part_at path.now (view_bytes self.now) }
    {
        let (first, names) = path.as_slice().split_first()?;
        self.field(first.as_str())?.along(names)
    }
}
