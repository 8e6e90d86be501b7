//! Printing a value.
ghost use Rattle.std.specs.Prelude.{◌≡◌, ◌+◌, ◌/◌, ◌%◌, ◌<◌, ◌≤◌, [], ◌∷◌, ◌++◌, ℕ, List, IfOk, OnOk, encode_utf8, string_bytes, map};
ghost use Rattle.std.specs.List.{flat_map};
ghost use Rattle.json_tree.specs.Levels.{levels_of};
ghost use Rattle.json_tree.specs.WellFormed.{IsWellFormed, AreWellFormedItems, IsWellFormedEntry, AreWellFormedEntries};
ghost use Rattle.json_text.specs.Reading.{tree_of_text};
ghost use Rattle.json_text.specs.Print.{hex_digit_of, escaped, escaped_or, quoted, behind_commas, text_of, entry_text, items_text, entries_text};

use containers::Text as JText;
use json_tree::{Fields, Tree};
use std::alloc::{AllocError, Global};

fn hex_digit(n: u32) -> char
    requires { n < 16 }
    ensures { result ≡ hex_digit_of n }
{
    let digit = n as u8;
    if digit < 10 {
        char::from(digit + 48)
    } else {
        char::from(digit + 87)
    }
}

fn put_control(out: &mut String, code: u32) -> Result<(), AllocError>
    requires { code < 32 }
    ensures { OnOk result (string_bytes out.new ≡ string_bytes out.old ++ 92 ∷ 117 ∷ 48 ∷ 48 ∷ hex_digit_of (code / 16) ∷ hex_digit_of (code % 16) ∷ []) }
{
    out.push_str("\\u00")?;
    out.push(hex_digit(code / 16))?;
    out.push(hex_digit(code % 16))
}

fn put_char(out: &mut String, c: char) -> Result<(), AllocError>
    ensures { OnOk result (string_bytes out.new ≡ string_bytes out.old ++ escaped_or (encode_utf8 c) c) }
{
    match c {
        '"' => out.push_str("\\\""),
        '\\' => out.push_str("\\\\"),
        '\u{8}' => out.push_str("\\b"),
        '\u{c}' => out.push_str("\\f"),
        '\n' => out.push_str("\\n"),
        '\r' => out.push_str("\\r"),
        '\t' => out.push_str("\\t"),
        _ => {
            let code = u32::from(c);
            if code < 32 {
                put_control(out, code)
            } else {
                out.push(c)
            }
        }
    }
}

fn put_escaped(out: &mut String, text: &str) -> Result<(), AllocError>
    ensures { OnOk result (string_bytes out.new ≡ string_bytes out.old ++ flat_map escaped text.now) }
{
    let mut chars = text.chars();
    'chars: while let Some(c) = chars.next() {
        put_char(out, c)?;
    }
    Ok(())
}

fn put_string(out: &mut String, text: &str) -> Result<(), AllocError>
    ensures { OnOk result (string_bytes out.new ≡ string_bytes out.old ++ quoted text.now) }
{
    out.push_str("\"")?;
    put_escaped(out, text)?;
    out.push_str("\"")
}

#[cycle(print)]
fn put_tree(out: &mut String, tree: &Tree) -> Result<(), AllocError>
    ensures text { OnOk result (string_bytes out.new ≡ string_bytes out.old ++ text_of tree.now) }
    ensures well_formed { OnOk result (IsWellFormed tree.now) }
{
    match tree {
        Tree::Null => out.push_str("null"),
        Tree::Bool(b) => out.push_str(if *b { "true" } else { "false" }),
        Tree::Number(text) => out.push_str(text.as_str()),
        Tree::Str(text) => put_string(out, text.as_str()),
        Tree::Items(items) => put_array(out, items.as_slice()),
        Tree::Object(fields) => put_object(out, fields.entries()),
    }
}

#[cycle(print)]
fn put_array(out: &mut String, items: &[Tree]) -> Result<(), AllocError>
    ensures text { OnOk result (string_bytes out.new ≡ string_bytes out.old ++ 91 ∷ (items_text items.now ++ 93 ∷ [])) }
    ensures well_formed { OnOk result (AreWellFormedItems items.now) }
{
    out.push_str("[")?;
    put_items(out, items)?;
    out.push_str("]")
}

#[cycle(print)]
fn put_items(out: &mut String, items: &[Tree]) -> Result<(), AllocError>
    ensures text { OnOk result (string_bytes out.new ≡ string_bytes out.old ++ items_text items.now) }
    ensures well_formed { OnOk result (AreWellFormedItems items.now) }
{
    for i in 0..items.len() {
        if i != 0 {
            out.push_str(",")?;
        }
        put_tree(out, &items[i])?;
    }
    Ok(())
}

#[cycle(print)]
fn put_object(out: &mut String, entries: &[(JText, Tree)]) -> Result<(), AllocError>
    ensures text { OnOk result (string_bytes out.new ≡ string_bytes out.old ++ 123 ∷ (entries_text entries.now ++ 125 ∷ [])) }
    ensures well_formed { OnOk result (AreWellFormedEntries entries.now) }
{
    out.push_str("{")?;
    put_entries(out, entries)?;
    out.push_str("}")
}

#[cycle(print)]
fn put_entries(out: &mut String, entries: &[(JText, Tree)]) -> Result<(), AllocError>
    ensures text { OnOk result (string_bytes out.new ≡ string_bytes out.old ++ entries_text entries.now) }
    ensures well_formed { OnOk result (AreWellFormedEntries entries.now) }
{
    for i in 0..entries.len() {
        if i != 0 {
            out.push_str(",")?;
        }
        put_entry(out, &entries[i])?;
    }
    Ok(())
}

#[cycle(print)]
fn put_entry(out: &mut String, entry: &(JText, Tree)) -> Result<(), AllocError>
    ensures text { OnOk result (string_bytes out.new ≡ string_bytes out.old ++ entry_text entry.now) }
    ensures well_formed { OnOk result (IsWellFormedEntry entry.now) }
{
    put_string(out, entry.0.as_str())?;
    out.push_str(":")?;
    put_tree(out, &entry.1)
}

fn printed(alloc: Global, tree: &Tree) -> Result<JText, AllocError>
    ensures text { IfOk result (λ text. text ≡ text_of tree.now) }
    ensures well_formed { OnOk result (IsWellFormed tree.now) }
{
    let mut out = String::new(alloc);
    put_tree(&mut out, tree)?;
    JText::from_string(out)
}

/// The text of a value, without spaces. In strings the quote, the backslash and the characters below
/// U+0020 are escaped, each by its letter where it has one, and nothing else. A number prints as its text.
pub fn print(alloc: Global, tree: &Tree) -> Result<JText, AllocError>
    ensures text { IfOk result (λ text. text ≡ text_of tree.now) }
    ensures well_formed { OnOk result (IsWellFormed tree.now) }

    // What is printed is read as the value.
    ensures read { levels_of tree.now ≤ 256 → IfOk result (λ text. tree_of_text text ≡ Ok tree.now) }
{
    printed(alloc, tree)
}
