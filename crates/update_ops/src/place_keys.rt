//! Places as texts: the names of their parts, each ended by a zero.
ghost use Rattle.std.specs.Prelude.{◌≡◌, ◌++◌, ◌∷◌, [], IfOk, OnOk};
ghost use Rattle.bson_value.specs.Digits.{digits};
ghost use Rattle.doc_path.specs.Touch.{key_of};
ghost use Rattle.doc_path.specs.Places.{keys};
ghost use Rattle.update_ops.specs.Keys.{HasNoZero, HaveNoZero};
ghost use Rattle.update_ops.specs.PlaceKeys.{key_of_parts, key_of_mark as key_of_whole, IsCleanMark};

use bson_value::Bytes;
use doc_path::Part;
use std::alloc::{AllocError, Global};
use update_model::Mark;

fn push_ended(text: &mut Bytes, name: &[u8]) -> Result<(), AllocError>
    ensures { OnOk result (text.new ≡ text.old ++ (name.now ++ 0 ∷ [])) }
{
    text.extend_from_slice(name)?;
    text.push(0)
}

fn push_digits(alloc: Global, text: &mut Bytes, at: u32) -> Result<(), AllocError>
    ensures text { OnOk result (text.new ≡ text.old ++ (digits at ++ 0 ∷ [])) }
    ensures clean { HasNoZero (digits at) }
{
    let name = format!(in alloc; "{at}")?;
    push_ended(text, name.as_bytes())
}

fn push_part(alloc: Global, text: &mut Bytes, part: &Part) -> Result<(), AllocError>
    ensures text { OnOk result (text.new ≡ text.old ++ (key_of part.now ++ 0 ∷ [])) }
    ensures clean { OnOk result (HasNoZero (key_of part.now)) }
{
    match part {
        Part::Name(name) => push_ended(text, name.as_str().as_bytes()),
        Part::Index(at) => push_digits(alloc, text, *at),
    }
}

/// The text of these parts.
pub fn key_of_way(alloc: Global, way: &[Part]) -> Result<Bytes, AllocError>
    ensures text { IfOk result (λ text. text ≡ key_of_parts way.now) }
    ensures clean { OnOk result (HaveNoZero (keys way.now)) }
{
    let mut text = Bytes::new(alloc);
    for part in way {
        push_part(alloc, &mut text, part)?;
    }
    Ok(text)
}

/// The text of the mark's place.
pub fn key_of_mark(alloc: Global, mark: &Mark) -> Result<Bytes, AllocError>
    ensures text { IfOk result (λ text. text ≡ key_of_whole mark.now) }
    ensures clean { OnOk result (IsCleanMark mark.now) }
{
    let mut text = key_of_way(alloc, mark.way.as_slice())?;
    push_part(alloc, &mut text, &mark.last)?;
    Ok(text)
}
