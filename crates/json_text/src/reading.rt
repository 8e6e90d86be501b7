//! Reading a JSON text.
ghost use Rattle.std.specs.Prelude.{◌≡◌, ◌+◌, ◌-◌, ◌*◌, ◌<◌, ◌≤◌, ◌==◌, [], ◌∷◌, ◌++◌, ℕ, List, length, take, drop, IfOk, IfSome, true, false};
ghost use Rattle.std.specs.Option.{option_copied};
ghost use Rattle.containers.specs.Entries.{IsAbsent, names_of};
ghost use Rattle.json_text.specs.Reading.{Gives, after_space, more_at, item_at, name_at, colon_at, member_at, closing, list_at, value_at, array_at, object_at, tree_of_text};
ghost use Rattle.json_tree.specs.Levels.{levels_of};
ghost use Rattle.json_tree.specs.WellFormed.{IsWellFormed};
ghost use Rattle.json_tree.specs.declared.tree.Tree.{Tree as Datum};

use crate::fault::JsonFault;
use crate::tokens::{bad, number, space, string, word};
use containers::{List as JList, Text as JText};
use json_tree::{Fields, MembersBuilder, Tree};
use std::alloc::Global;

// Whether another one follows, and the bytes behind the comma and the space, or behind the end.
#[tactic(auto, unfolding(crate::specs::Reading::more_at))]
fn more(close: u8, end: usize, bytes: &[u8]) -> Result<(bool, &[u8]), JsonFault>
    requires { length bytes.now ≤ end }
    ensures gives { Gives (λ x. (x.0, x.1.now)) result (more_at close end bytes.now) }
    ensures fits { IfOk result (λ x. length x.1.now < length bytes.now) }
{
    match bytes {
        [] => Err(bad(end)),
        [b, rest @ ..] => {
            if *b == b',' {
                return Ok((true, space(rest)));
            }
            if *b == close {
                return Ok((false, rest));
            }
            Err(bad(end - bytes.len()))
        }
    }
}

#[tactic(auto, unfolding(crate::specs::Reading::colon_at))]
fn colon(end: usize, bytes: &[u8]) -> Result<&[u8], JsonFault>
    requires { length bytes.now ≤ end }
    ensures gives { Gives (λ x. x.now) result (colon_at end bytes.now) }
    ensures fits { IfOk result (λ x. length x.now ≤ length bytes.now) }
{
    match bytes {
        [] => Err(bad(end)),
        [b, rest @ ..] => {
            if *b == b':' {
                return Ok(space(rest));
            }
            Err(bad(end - bytes.len()))
        }
    }
}

// A name that isn't among these.
#[tactic(auto, unfolding(crate::specs::Reading::name_at))]
fn name<'a>(
    alloc: Global,
    end: usize,
    before: &MembersBuilder<Tree>,
    bytes: &'a [u8],
) -> Result<(JText, &'a [u8]), JsonFault>
    requires { length bytes.now ≤ end }
    ensures gives { Gives (λ x. (x.0, x.1.now)) result (name_at end before.now bytes.now) }
    ensures fits { IfOk result (λ x. length x.1.now ≤ length bytes.now) }
    ensures absent { IfOk result (λ x. IsAbsent x.0 (names_of before.now)) }
{
    match bytes {
        [] => Err(bad(end)),
        [b, rest @ ..] => {
            if *b != b'"' {
                return Err(bad(end - bytes.len()));
            }
            let (name, after) = string(alloc, end, rest)?;
            if before.has(name.as_str()) {
                return Err(bad(end - bytes.len()));
            }
            Ok((name, after))
        }
    }
}

// The bytes behind the end of an array or an object, where that stands here.
#[tactic(auto, unfolding(crate::specs::Reading::closing))]
fn closed(close: u8, bytes: &[u8]) -> Option<&[u8]>
    ensures value { option_copied result ≡ closing close bytes.now }
    ensures fits { IfSome result (λ rest. length rest.now ≤ length bytes.now) }
{
    match bytes {
        [] => None,
        [b, rest @ ..] => { if *b == close { Some(rest) } else { None } }
    }
}

#[tactic(auto, unfolding(crate::specs::Reading::value_with))]
#[cycle(parse)]
fn value(alloc: Global, levels: usize, end: usize, bytes: &[u8]) -> Result<(Tree, &[u8]), JsonFault>
    requires { length bytes.now ≤ end }
    ensures gives { Gives (λ x. (x.0, x.1.now)) result (value_at levels end bytes.now) }
    ensures fits { IfOk result (λ x. length x.1.now ≤ length bytes.now) }
{
    let [first, rest @ ..] = bytes else {
        return Err(bad(end));
    };
    let start = end - bytes.len();
    match *first {
        b'[' => {
            let (items, after) = array(alloc, levels, end, rest)?;
            Ok((Tree::Items(items), after))
        }
        b'{' => {
            let (fields, after) = object(alloc, levels, end, rest)?;
            Ok((Tree::Object(fields), after))
        }
        b'"' => {
            let (text, after) = string(alloc, end, rest)?;
            Ok((Tree::Str(text), after))
        }
        b'n' => {
            let after = word(b"ull", start, end, rest)?;
            Ok((Tree::Null, after))
        }
        b't' => {
            let after = word(b"rue", start, end, rest)?;
            Ok((Tree::Bool(true), after))
        }
        b'f' => {
            let after = word(b"alse", start, end, rest)?;
            Ok((Tree::Bool(false), after))
        }
        _ => {
            let (text, after) = number(alloc, start, end, bytes)?;
            Ok((Tree::Number(text), after))
        }
    }
}

#[cycle(parse)]
fn array(
    alloc: Global,
    levels: usize,
    end: usize,
    bytes: &[u8],
) -> Result<(JList<Tree>, &[u8]), JsonFault>
    requires { length bytes.now < end }
    ensures gives { Gives (λ x. (x.0, x.1.now)) result (array_at levels end bytes.now) }
    ensures fits { IfOk result (λ x. length x.1.now ≤ length bytes.now) }
{
    if levels == 0 {
        return Err(bad(end - bytes.len() - 1));
    }
    items(alloc, levels - 1, end, space(bytes))
}

#[tactic(auto, unfolding(crate::specs::Reading::item_at))]
#[cycle(parse)]
fn item(
    alloc: Global,
    levels: usize,
    end: usize,
    bytes: &[u8],
) -> Result<(Tree, bool, &[u8]), JsonFault>
    requires { length bytes.now ≤ end }
    ensures gives { (done : List Datum) → Gives (λ x. ((x.0 ∷ [], x.1), x.2.now)) result (item_at (value_at levels) end done bytes.now) }
    ensures fits { IfOk result (λ x. length x.2.now < length bytes.now) }
{
    let (tree, rest) = value(alloc, levels, end, bytes)?;
    let (more, after) = more(b']', end, space(rest))?;
    Ok((tree, more, after))
}

#[cycle(parse)]
fn items(
    alloc: Global,
    levels: usize,
    end: usize,
    bytes: &[u8],
) -> Result<(JList<Tree>, &[u8]), JsonFault>
    requires { length bytes.now ≤ end }
    ensures gives { Gives (λ x. (x.0, x.1.now)) result (list_at 93 (item_at (value_at levels) end) end bytes.now) }
    ensures fits { IfOk result (λ x. length x.1.now ≤ length bytes.now) }
{
    let mut items = JList::new(alloc);
    if let Some(after) = closed(b']', bytes) {
        return Ok((items, after));
    }
    let mut rest = bytes;
    'items: loop {
        let (tree, more, after) = item(alloc, levels, end, rest)?;
        items.push(tree)?;
        if !more {
            return Ok((items, after));
        }
        rest = after;
    }
}

#[cycle(parse)]
fn object(
    alloc: Global,
    levels: usize,
    end: usize,
    bytes: &[u8],
) -> Result<(Fields, &[u8]), JsonFault>
    requires { length bytes.now < end }
    ensures gives { Gives (λ x. (x.0, x.1.now)) result (object_at levels end bytes.now) }
    ensures fits { IfOk result (λ x. length x.1.now ≤ length bytes.now) }
{
    if levels == 0 {
        return Err(bad(end - bytes.len() - 1));
    }
    members(alloc, levels - 1, end, space(bytes))
}

#[tactic(auto, unfolding(crate::specs::Reading::member_at))]
#[cycle(parse)]
fn member<'a>(
    alloc: Global,
    levels: usize,
    end: usize,
    before: &MembersBuilder<Tree>,
    bytes: &'a [u8],
) -> Result<((JText, Tree), bool, &'a [u8]), JsonFault>
    requires { length bytes.now ≤ end }
    ensures gives { Gives (λ x. ((x.0 ∷ [], x.1), x.2.now)) result (member_at (value_at levels) end before.now bytes.now) }
    ensures fits { IfOk result (λ x. length x.2.now < length bytes.now) }
    ensures absent { IfOk result (λ x. IsAbsent x.0.0 (names_of before.now)) }
{
    let (name, rest) = name(alloc, end, before, bytes)?;
    let rest = colon(end, space(rest))?;
    let (tree, rest) = value(alloc, levels, end, rest)?;
    let (more, after) = more(b'}', end, space(rest))?;
    Ok(((name, tree), more, after))
}

#[cycle(parse)]
fn members(
    alloc: Global,
    levels: usize,
    end: usize,
    bytes: &[u8],
) -> Result<(Fields, &[u8]), JsonFault>
    requires { length bytes.now ≤ end }
    ensures gives { Gives (λ x. (x.0, x.1.now)) result (list_at 125 (member_at (value_at levels) end) end bytes.now) }
    ensures fits { IfOk result (λ x. length x.1.now ≤ length bytes.now) }
{
    let mut before = MembersBuilder::new(alloc);
    if let Some(after) = closed(b'}', bytes) {
        return Ok((before.into_members(), after));
    }
    let mut rest = bytes;
    'members: loop {
        let ((name, tree), more, after) = member(alloc, levels, end, &before, rest)?;
        before = before.with(alloc, name, tree)?;
        if !more {
            return Ok((before.into_members(), after));
        }
        rest = after;
    }
}

// The whole text.
#[tactic(auto, unfolding(crate::specs::Reading::tree_of_text))]
fn whole(alloc: Global, text: &str) -> Result<Tree, JsonFault>
    ensures { Gives (λ t. t) result (tree_of_text text.now) }
{
    let bytes = text.as_bytes();
    let end = bytes.len();
    let (tree, rest) = value(alloc, 256, end, space(bytes))?;
    let rest = space(rest);
    if !rest.is_empty() {
        return Err(bad(end - rest.len()));
    }
    Ok(tree)
}

/// The value that the text is: one JSON text (RFC 8259) with distinct names in each object, paired
/// surrogates and at most 256 levels of arrays and objects.
///
/// The time is n log n for a text of n bytes: a name is looked for in a set where its object has more than
/// some tens.
pub fn parse(alloc: Global, text: &str) -> Result<Tree, JsonFault>
    ensures gives { Gives (λ t. t) result (tree_of_text text.now) }
    ensures well_formed { IfOk result (λ t. IsWellFormed t) }
    ensures levels { IfOk result (λ t. levels_of t ≤ 256) }
{
    whole(alloc, text)
}
