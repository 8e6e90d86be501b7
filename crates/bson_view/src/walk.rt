//! Walks over the fields of a document and the values of an array, spelled or built.
ghost use Rattle.std.specs.Prelude.{◌≡◌};

use crate::elements::Elements;
use crate::fields::Fields;
use crate::held::HeldValue;
use bson_value::{CText, Value};

/// The fields of a document that are still to come, in order.
#[derive(Clone, Copy)]
pub struct HeldFields<'a> {
    walk: FieldWalk<'a>,
}

#[derive(Clone, Copy)]
enum FieldWalk<'a> {
    Spelled(Fields<'a>),
    Built(&'a [(CText, Value)]),
}

/// A field of a document: its name and its value.
#[derive(Clone, Copy)]
pub struct HeldField<'a> {
    pub name: &'a str,
    pub value: HeldValue<'a>,
}

impl<'a> HeldFields<'a> {
    ghost use Rattle.bson_view.specs.FieldWalk.{field_parts};
    ghost use Rattle.bson_view.specs.HeldWalk.{fields_left};
    ghost use Rattle.bson_view.specs.Parts.{fields_of};

    pub(crate) fn spelled(fields: Fields<'a>) -> HeldFields<'a>
        ensures { fields_left result ≡ fields_of (field_parts fields.entry) }
    {
        HeldFields {
            walk: FieldWalk::Spelled(fields),
        }
    }

    pub(crate) fn built(entries: &'a [(CText, Value)]) -> HeldFields<'a>
        ensures { fields_left result ≡ entries.now }
    {
        HeldFields {
            walk: FieldWalk::Built(entries),
        }
    }
}

impl<'a> Iterator for HeldFields<'a> {
    ghost use Rattle.std.specs.Iterator.{YieldsFirstBy, item_count};
    ghost use Rattle.bson_view.specs.HeldWalk.{field_of, fields_left};

    type Item = HeldField<'a>;

    ghost next_gives = { YieldsFirstBy field_of fields_left };

    ghost remaining = { item_count fields_left };

    fn next(&mut self) -> Option<HeldField<'a>> {
        match self.walk {
            FieldWalk::Spelled(mut fields) => {
                let field = fields.next()?;
                *self = HeldFields::spelled(fields);
                Some(HeldField {
                    name: field.name,
                    value: HeldValue::Spelled(field.elem),
                })
            }
            FieldWalk::Built(entries) => {
                let (first, rest) = entries.split_first()?;
                *self = HeldFields::built(rest);
                Some(HeldField {
                    name: first.0.as_str(),
                    value: HeldValue::Built(&first.1),
                })
            }
        }
    }
}

/// The values of an array that are still to come, in order.
#[derive(Clone, Copy)]
pub enum HeldItems<'a> {
    Spelled(Elements<'a>),
    Built(&'a [Value]),
}

impl<'a> Iterator for HeldItems<'a> {
    ghost use Rattle.std.specs.Iterator.{YieldsFirstBy, item_count};
    ghost use Rattle.bson_view.specs.Held.{held_value};
    ghost use Rattle.bson_view.specs.HeldWalk.{items_left};

    type Item = HeldValue<'a>;

    ghost next_gives = { YieldsFirstBy held_value items_left };

    ghost remaining = { item_count items_left };

    fn next(&mut self) -> Option<HeldValue<'a>> {
        match *self {
            HeldItems::Spelled(mut elements) => {
                let elem = elements.next()?;
                *self = HeldItems::Spelled(elements);
                Some(HeldValue::Spelled(elem))
            }
            HeldItems::Built(items) => {
                let (first, rest) = items.split_first()?;
                *self = HeldItems::Built(rest);
                Some(HeldValue::Built(first))
            }
        }
    }
}
