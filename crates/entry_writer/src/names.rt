//! The names of fields that spell places.
ghost use Rattle.std.specs.Prelude.{◌≡◌, ◌++◌, OnOk, IfOk};
ghost use Rattle.doc_path.specs.Touch.{key_of};
ghost use Rattle.bson_value.specs.Digits.{digits};
ghost use Rattle.entry_model.specs.Written.{path_of};
ghost use Rattle.entry_writer.specs.Levels.{dotted};

use bson_value::Text;
use doc_path::Part;
use itoa::Buffer;
use std::alloc::{AllocError, Global};

fn push_digits(text: &mut Text, at: u32) -> Result<(), AllocError>
    ensures { OnOk result (text.new ≡ text.old ++ digits at) }
{
    let mut buffer = Buffer::new();
    text.push_str(buffer.format(at))
}

/// Appends the name of a part, or the digits of its index.
fn push_key(text: &mut Text, part: &Part) -> Result<(), AllocError>
    ensures { OnOk result (text.new ≡ text.old ++ key_of part.now) }
{
    match part {
        Part::Name(name) => text.push_str(name.as_str()),
        Part::Index(at) => push_digits(text, *at),
    }
}

/// A letter before a part.
pub(crate) fn letter_name(alloc: Global, letter: &str, part: &Part) -> Result<Text, AllocError>
    ensures { IfOk result (λ text. text ≡ letter.now ++ key_of part.now) }
{
    let mut text = Text::of(alloc, letter)?;
    push_key(&mut text, part)?;
    Ok(text)
}

/// Appends a dot before each part.
fn push_dotted(text: &mut Text, parts: &[Part]) -> Result<(), AllocError>
    ensures { OnOk result (text.new ≡ text.old ++ dotted parts.now) }
{
    for part in parts {
        text.push_str(".")?;
        push_key(text, part)?;
    }
    Ok(())
}

/// The parts with dots between them.
#[tactic(auto, using(crate::proofs::PathTexts::path_is))]
pub(crate) fn path_text(alloc: Global, parts: &[Part]) -> Result<Text, AllocError>
    ensures { IfOk result (λ text. text ≡ path_of parts.now) }
{
    let mut text = Text::new(alloc);
    let Some((first, others)) = parts.split_first() else {
        return Ok(text);
    };
    push_key(&mut text, first)?;
    push_dotted(&mut text, others)?;
    Ok(text)
}
