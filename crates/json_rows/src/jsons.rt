//! Where a text fails, and what is printed.
ghost use Rattle.std.specs.Prelude.{◌≡◌, ◌≤◌, ◌↔◌, IsTrue, IfOk, Ok, string_bytes};
ghost use Rattle.json_tree.specs.declared.tree.Tree.{Tree as Trees};
ghost use Rattle.json_text.specs.Print.{text_of};
ghost use Rattle.json_text.specs.Reading.{tree_of_text};
ghost use Rattle.json_tree.specs.Levels.{levels_of};

use anyhow::Result;
use json_text::{JsonFault, parse, print};
use json_tree::Tree;
use row_script::{answer, number, words};
use std::alloc::{AllocError, Global};

// Whether the copy of a value is another one.
fn is_copied(alloc: Global, tree: &Tree, other: &Tree) -> Result<bool, AllocError>
    ensures { IfOk result (λ is_so. IsTrue is_so ↔ (other.now ≡ tree.now)) }
{
    let copy = tree.copy(alloc)?;
    Ok(other.same(&copy))
}

// Whether a text is read as a value, and as its copy.
fn is_read(alloc: Global, text: &str, tree: &Tree) -> Result<bool>
    ensures { IfOk result (λ is_so. IsTrue is_so ↔ (tree_of_text text.now ≡ Ok tree.now)) }
{
    let again = parse(alloc, text)?;
    Ok(is_copied(alloc, tree, &again)?)
}

// What a value prints as, which is read as the value again.
fn printed(alloc: Global, tree: &Tree) -> Result<String>
    ensures { levels_of tree.now ≤ 256 → IfOk result (λ t. string_bytes t ≡ text_of tree.now) }
{
    let text = print(alloc, tree)?;
    if is_read(alloc, text.as_str(), tree)? {
        return answer(alloc, text.as_str());
    }
    answer(alloc, "another value")
}

/// What a text prints as, or the place at which it fails.
pub fn parsed(alloc: Global, text: &str) -> Result<String>
    ensures { (tree : Trees) → tree_of_text text.now ≡ Ok tree → IfOk result (λ t. string_bytes t ≡ text_of tree) }
{
    match parse(alloc, text) {
        Ok(tree) => printed(alloc, &tree),
        Err(JsonFault::Bad { at }) => Ok(format!(in alloc; "bad {at}")?),
        Err(JsonFault::NoMemory) => Err(AllocError)?,
    }
}

fn push_times(text: &mut String, count: usize, c: char) -> Result<(), AllocError> {
    for _ in 0..count {
        text.push(c)?;
    }
    Ok(())
}

fn push_arrays(text: &mut String, levels: usize, inside: &str) -> Result<(), AllocError> {
    push_times(text, levels, '[')?;
    text.push_str(inside)?;
    push_times(text, levels, ']')
}

/// The text of so many arrays, one in the other.
pub fn arrays(alloc: Global, levels: usize, inside: &str) -> Result<String> {
    let mut text = String::new(alloc);
    push_arrays(&mut text, levels, inside)?;
    Ok(text)
}

// What a text prints as: itself, or something else; or the place at which it fails.
fn parsed_again(alloc: Global, text: &str) -> Result<String> {
    let printed = parsed(alloc, text)?;
    if printed.as_str() == text {
        return answer(alloc, "itself");
    }
    Ok(printed)
}

/// So many arrays, one in the other.
pub fn nested(alloc: Global, text: &str) -> Result<String> {
    let levels = number(text)?;
    let arrays = arrays(alloc, levels, "")?;
    parsed_again(alloc, arrays.as_str())
}

// A member whose value is 0.
fn push_member(alloc: Global, text: &mut String, name: &str) -> Result<(), AllocError> {
    let member = format!(in alloc; "\"{name}\":0")?;
    text.push_str(member.as_str())
}

fn push_numbered(alloc: Global, text: &mut String, number: usize) -> Result<(), AllocError> {
    let name = format!(in alloc; "{number}")?;
    push_member(alloc, text, name.as_str())
}

fn push_members(
    alloc: Global,
    text: &mut String,
    count: usize,
    last: &str,
) -> Result<(), AllocError> {
    for i in 0..count {
        push_numbered(alloc, text, i)?;
        text.push(',')?;
    }
    push_member(alloc, text, last)
}

// An object of so many members with numbers as names, and one of this name behind them.
fn object(alloc: Global, count: usize, last: &str) -> Result<String> {
    let mut text = String::new(alloc);
    text.push('{')?;
    push_members(alloc, &mut text, count, last)?;
    text.push('}')?;
    Ok(text)
}

/// An object of so many members, and one of this name behind them.
pub fn many(alloc: Global, text: &str) -> Result<String> {
    let (count, last) = words(text)?;
    let count = number(count)?;
    let object = object(alloc, count, last)?;
    parsed_again(alloc, object.as_str())
}
