//! The fields of a document that is read where it lies.
ghost use Rattle.std.specs.Prelude.{◌≡◌, IsTrue};
ghost use Rattle.bson_view.specs.Views.{document, parts_left};
ghost use Rattle.bson_view.specs.Parts.{fields_of, have_text_names};

use crate::elem::Elem;
use crate::elements::Elements;
use crate::view::View;
use bson_check::parts::as_text;

/// A field of a document: an element whose name is a text.
#[derive(Clone, Copy, Debug)]
pub struct Field<'a> {
    pub name: &'a str,
    pub elem: Elem<'a>,
}

/// The fields of a document that are still to come, in order.
#[derive(Clone, Copy, Debug)]
pub struct Fields<'a> {
    elements: Elements<'a>,
    ghost texts: { IsTrue (have_text_names (parts_left elements)) },
}

impl<'a> Fields<'a> {
    ghost use Rattle.bson_view.specs.FieldWalk.{field_parts};

    pub(crate) fn of(view: &View<'a>) -> Fields<'a>
        ensures { fields_of (field_parts result) ≡ document view.now }
    {
        Fields {
            elements: view.elements(),
        }
    }
}

impl<'a> Iterator for Fields<'a> {
    ghost use Rattle.std.specs.Iterator.{YieldsFirstBy, item_count};
    ghost use Rattle.bson_view.specs.FieldWalk.{field_part, field_parts};

    type Item = Field<'a>;

    ghost next_gives = { YieldsFirstBy field_part field_parts };

    ghost remaining = { item_count field_parts };

    fn next(&mut self) -> Option<Field<'a>> {
        let mut elements = self.elements;
        let elem = elements.next()?;
        *self = Fields { elements };
        match as_text(elem.name) {
            Some(name) => Some(Field { name, elem }),
            None => unreachable!(),
        }
    }
}
