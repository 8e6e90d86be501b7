//! Reading a document.
ghost use Rattle.std.specs.Prelude.{◌≡◌, ◌<◌, ◌≤◌, ◌++◌, ◌∷◌, [], ℕ, length, IfOk, IfSome, Contains};
ghost use Rattle.containers.specs.Entries.{IsAbsent, names_of};
ghost use Rattle.plain_json.specs.Reading.{IsNameRead, IsValueRead, IsItemPut, AreItemsRead, IsArrayRead, IsMemberPut, AreMembersRead, IsObjectRead, IsDocumentOf};

use crate::names::names_wrapper;
use crate::numbers::int;
use crate::refusal::Refusal;
use crate::tokens::{closed, colon, more, space, string, word};
use bson_value::{CText, Doc, List, Text, Value};
use std::alloc::{AllocError, Global};

// So many members an object has at most, since a name is looked for among all before it.
const MEMBERS: usize = 64;

// Room for so many values is made first: most arrays and objects within a document have one, and a schedule may hold many.
const FEW: usize = 1;

// As many levels as a JSON text has at most.
const LEVELS: usize = 256;

// A string as a value.
#[inline(always)]
fn text(alloc: Global, bytes: &[u8]) -> Result<(Value, &[u8]), Refusal>
    ensures read { (levels : ℕ) → IfOk result (λ x. IsValueRead levels (34 ∷ bytes.now) x.0 x.1.now) }
    ensures fits { IfOk result (λ x. length x.1.now ≤ length bytes.now) }
{
    match string(bytes) {
        Some((text, rest)) => Ok((Value::Str(Text::of(alloc, text)?), rest)),
        None => Err(Refusal::NotPlain),
    }
}

// A value that is a word.
fn constant(bytes: &[u8]) -> Result<(Value, &[u8]), Refusal>
    ensures read { (levels : ℕ) → IfOk result (λ x. IsValueRead levels bytes.now x.0 x.1.now) }
    ensures fits { IfOk result (λ x. length x.1.now ≤ length bytes.now) }
{
    if let Some(rest) = word(b"null", bytes) {
        return Ok((Value::Null, rest));
    }
    if let Some(rest) = word(b"true", bytes) {
        return Ok((Value::Bool(true), rest));
    }
    if let Some(rest) = word(b"false", bytes) {
        return Ok((Value::Bool(false), rest));
    }
    Err(Refusal::NotPlain)
}

// A value that has no parts and is no string.
#[inline(always)]
fn leaf(bytes: &[u8]) -> Result<(Value, &[u8]), Refusal>
    ensures read { (levels : ℕ) → IfOk result (λ x. IsValueRead levels bytes.now x.0 x.1.now) }
    ensures fits { IfOk result (λ x. length x.1.now ≤ length bytes.now) }
{
    match bytes {
        [] => Err(Refusal::NotPlain),
        [first, ..] => {
            if *first < 58 {
                let (number, rest) = int(bytes)?;
                return Ok((Value::Int(number), rest));
            }
            constant(bytes)
        }
    }
}

// Inlined where the value is put, with what reads the small ones, since a `Value` is large to hand on.
#[cycle(object)]
#[inline(always)]
fn value(alloc: Global, levels: usize, bytes: &[u8]) -> Result<(Value, &[u8]), Refusal>
    ensures read { IfOk result (λ x. IsValueRead levels bytes.now x.0 x.1.now) }
    ensures fits { IfOk result (λ x. length x.1.now ≤ length bytes.now) }
{
    let Some((first, rest)) = bytes.split_first() else {
        return Err(Refusal::NotPlain);
    };
    match *first {
        b'"' => text(alloc, rest),
        b'[' => {
            let (items, after) = array(alloc, levels, rest)?;
            Ok((Value::Array(items), after))
        }
        b'{' => {
            let (doc, after) = object(alloc, levels, rest)?;
            Ok((Value::Object(doc), after))
        }
        _ => leaf(bytes),
    }
}

// An array behind its bracket.
#[cycle(object)]
fn array(alloc: Global, levels: usize, bytes: &[u8]) -> Result<(List<Value>, &[u8]), Refusal>
    ensures read { IfOk result (λ x. IsArrayRead levels bytes.now x.0 x.1.now) }
    ensures fits { IfOk result (λ x. length x.1.now ≤ length bytes.now) }
{
    if levels == 0 {
        return Err(Refusal::NotPlain);
    }
    items(alloc, levels - 1, space(bytes))
}

// Puts a value behind the items.
#[cycle(object)]
fn item<'a>(
    alloc: Global,
    levels: usize,
    items: &mut List<Value>,
    bytes: &'a [u8],
) -> Result<(bool, &'a [u8]), Refusal>
    ensures read { IfOk result (λ x. IsItemPut levels bytes.now items.old items.new x.0 x.1.now) }
    ensures fits { IfOk result (λ x. length x.1.now < length bytes.now) }
{
    let (value, rest) = value(alloc, levels, bytes)?;
    items.push(value)?;
    more(b']', space(rest))
}

#[cycle(object)]
fn items(alloc: Global, levels: usize, bytes: &[u8]) -> Result<(List<Value>, &[u8]), Refusal>
    ensures read { IfOk result (λ x. AreItemsRead levels bytes.now x.0 x.1.now) }
    ensures fits { IfOk result (λ x. length x.1.now ≤ length bytes.now) }
{
    let mut items = List::with_capacity(alloc, FEW)?;
    if let Some(after) = closed(b']', bytes) {
        return Ok((items, after));
    }
    let mut rest = bytes;
    'items: loop {
        let (more, after) = item(alloc, levels, &mut items, rest)?;
        if !more {
            return Ok((items, after));
        }
        rest = after;
    }
}

// An object behind its bracket.
#[cycle(object)]
fn object(alloc: Global, levels: usize, bytes: &[u8]) -> Result<(Doc, &[u8]), Refusal>
    ensures read { IfOk result (λ x. IsObjectRead levels bytes.now x.0 x.1.now) }
    ensures fits { IfOk result (λ x. length x.1.now ≤ length bytes.now) }
{
    if levels == 0 {
        return Err(Refusal::NotPlain);
    }
    members(alloc, levels - 1, space(bytes))
}

// A name that isn't among these and names no wrapper, and the bytes behind it.
fn name<'a>(before: &Doc, bytes: &'a [u8]) -> Result<(&'a str, &'a [u8]), Refusal>
    ensures read { IfOk result (λ x. IsNameRead (names_of before.now) bytes.now x.0.now x.1.now) }
    ensures fits { IfOk result (λ x. length x.1.now ≤ length bytes.now) }
    ensures absent { IfOk result (λ x. IsAbsent x.0.now (names_of before.now)) }
    ensures no_zero { IfOk result (λ x. Contains x.0.now 0 → ⊥) }
{
    let Some((b'"', rest)) = bytes.split_first() else {
        return Err(Refusal::NotPlain);
    };
    let Some((name, after)) = string(rest) else {
        return Err(Refusal::NotPlain);
    };
    if MEMBERS <= before.len() || names_wrapper(name) || before.place(name).is_some() {
        return Err(Refusal::NotPlain);
    }
    Ok((name, after))
}

// Puts a member behind the fields.
#[cycle(object)]
fn member<'a>(
    alloc: Global,
    levels: usize,
    doc: &mut Doc,
    bytes: &'a [u8],
) -> Result<(bool, &'a [u8]), Refusal>
    ensures read { IfOk result (λ x. IsMemberPut levels bytes.now doc.old doc.new x.0 x.1.now) }
    ensures fits { IfOk result (λ x. length x.1.now < length bytes.now) }
{
    let (name, rest) = name(doc, bytes)?;
    let rest = colon(space(rest))?;
    let (value, rest) = value(alloc, levels, rest)?;
    doc.add(CText::of_text(alloc, name)?, value)?;
    more(b'}', space(rest))
}

#[cycle(object)]
fn members(alloc: Global, levels: usize, bytes: &[u8]) -> Result<(Doc, &[u8]), Refusal>
    ensures read { IfOk result (λ x. AreMembersRead levels bytes.now x.0 x.1.now) }
    ensures fits { IfOk result (λ x. length x.1.now ≤ length bytes.now) }
{
    let fields = Vec::with_capacity(alloc, FEW)?;
    let mut doc = Doc::of_distinct(fields);
    if let Some(after) = closed(b'}', bytes) {
        return Ok((doc, after));
    }
    let mut rest = bytes;
    'members: loop {
        let (more, after) = member(alloc, levels, &mut doc, rest)?;
        if !more {
            return Ok((doc, after));
        }
        rest = after;
    }
}

// The whole text.
fn document(alloc: Global, bytes: &[u8]) -> Result<Doc, Refusal>
    ensures { IfOk result (λ doc. IsDocumentOf bytes.now doc) }
{
    let Some((b'{', rest)) = space(bytes).split_first() else {
        return Err(Refusal::NotPlain);
    };
    let (doc, rest) = object(alloc, LEVELS, rest)?;
    if !space(rest).is_empty() {
        return Err(Refusal::NotPlain);
    }
    Ok(doc)
}

/// The document that a plain JSON text is, read in one pass and with no tree between. Plain are objects
/// and arrays of strings without escapes, of whole numbers of at most nine digits and of `true`, `false`
/// and `null`, where no object has the outermost name of a wrapper, or more than some tens of members.
/// `None` tells nothing of the text: it may still be a document.
///
/// The time is linear in the text.
pub fn plain_document(alloc: Global, text: &str) -> Result<Option<Doc>, AllocError>
    ensures { IfOk result (λ o. IfSome o (λ doc. IsDocumentOf text.now doc)) }
{
    match document(alloc, text.as_bytes()) {
        Ok(doc) => Ok(Some(doc)),
        Err(Refusal::NotPlain) => Ok(None),
        Err(Refusal::NoMemory) => Err(AllocError),
    }
}
