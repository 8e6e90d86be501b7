//! The tree of a value.
ghost use Rattle.std.specs.Prelude.{◌≡◌, ℕ, List, IfOk, codes, reverse, string_bytes};
ghost use Rattle.std.specs.Fmt.{decimal};
ghost use Rattle.containers.specs.Entries.{AreDistinct, names_of};
ghost use Rattle.bson_value.specs.WellFormed.{IsWellFormed as IsWellFormedValue};
ghost use Rattle.json_tree.specs.WellFormed.{IsWellFormed};
ghost use Rattle.extjson.specs.Trees.{wrapped, paired, hex_text, double_tree, decimal_tree, binary_tree, undefined_tree, oid_tree, int_tree, long_tree, date_tree, regex_tree, pointer_tree, code_tree, scoped_tree, symbol_tree, stamp_tree, min_tree, max_tree, tree_of, items_of, fields_of};

use base64::engine::general_purpose::STANDARD;
use bson_value::{CText, Value};
use containers::{List as JList, Text as JText};
use json_tree::{Fields, Number, Tree};
use std::alloc::{AllocError, Global};

// The doubles 1 and -1, the low byte first.
pub(crate) const ONE: [u8; 8] = [0, 0, 0, 0, 0, 0, 240, 63];

pub(crate) const MINUS_ONE: [u8; 8] = [0, 0, 0, 0, 0, 0, 240, 191];

fn text(alloc: Global, text: &str) -> Result<Tree, AllocError>
    ensures { IfOk result (λ t. t ≡ Tree.Str text.now) }
{
    Ok(Tree::Str(JText::of(alloc, text)?))
}

fn string(text: String) -> Result<Tree, AllocError>
    ensures { IfOk result (λ t. t ≡ Tree.Str (string_bytes text)) }
{
    Ok(Tree::Str(JText::from_string(text)?))
}

fn number(alloc: Global, n: u32) -> Result<Tree, AllocError>
    ensures { IfOk result (λ t. t ≡ Tree.Number (decimal n)) }
{
    let digits = JText::from_string(n.to_string(alloc)?)?;
    Ok(Tree::Number(Number::of(digits)))
}

// An object with one member.
fn wrap(alloc: Global, name: &str, tree: Tree) -> Result<Tree, AllocError>
    ensures { IfOk result (λ t. t ≡ wrapped name.now tree) }
{
    let mut fields = Fields::new(alloc);
    fields.add(JText::of(alloc, name)?, tree)?;
    Ok(Tree::Object(fields))
}

// An object with two members.
fn pair(
    alloc: Global,
    name: &str,
    tree: Tree,
    other: &str,
    second: Tree,
) -> Result<Tree, AllocError>
    requires { other.now ≡ name.now → ⊥ }
    ensures { IfOk result (λ t. t ≡ paired name.now tree other.now second) }
{
    let mut fields = Fields::new(alloc);
    fields.add(JText::of(alloc, name)?, tree)?;
    fields.add(JText::of(alloc, other)?, second)?;
    Ok(Tree::Object(fields))
}

fn hex(alloc: Global, bytes: &[u8]) -> Result<Tree, AllocError>
    ensures { IfOk result (λ t. t ≡ hex_text bytes.now) }
{
    string(hex::encode(alloc, bytes)?)
}

// Bits are kept with the low byte first, and print with the high byte first.
fn bits(alloc: Global, bytes: &[u8]) -> Result<Tree, AllocError>
    ensures { IfOk result (λ t. t ≡ hex_text (reverse bytes.now)) }
{
    let high_first: Vec<u8> = bytes.iter().rev().copied().collect(alloc)?;
    hex(alloc, high_first.as_slice())
}

fn double(alloc: Global, bytes: &[u8; 8]) -> Result<Tree, AllocError>
    ensures { IfOk result (λ t. t ≡ double_tree bytes.now) }
{
    if *bytes == ONE {
        return wrap(alloc, "$numberDouble", text(alloc, "1.0")?);
    }
    if *bytes == MINUS_ONE {
        return wrap(alloc, "$numberDouble", text(alloc, "-1.0")?);
    }
    wrap(alloc, "$numberDoubleBits", bits(alloc, bytes)?)
}

fn decimal(alloc: Global, bytes: &[u8; 16]) -> Result<Tree, AllocError>
    ensures { IfOk result (λ t. t ≡ decimal_tree bytes.now) }
{
    wrap(alloc, "$numberDecimalBits", bits(alloc, bytes)?)
}

fn binary(alloc: Global, subtype: u8, bytes: &[u8]) -> Result<Tree, AllocError>
    ensures { IfOk result (λ t. t ≡ binary_tree subtype bytes.now) }
{
    let encoded = STANDARD.encode(alloc, bytes)?;
    let subtype = hex(alloc, &[subtype])?;
    let inner = pair(alloc, "base64", string(encoded)?, "subType", subtype)?;
    wrap(alloc, "$binary", inner)
}

fn undefined(alloc: Global) -> Result<Tree, AllocError>
    ensures { IfOk result (λ t. t ≡ undefined_tree) }
{
    wrap(alloc, "$undefined", Tree::Bool(true))
}

fn oid(alloc: Global, id: &[u8]) -> Result<Tree, AllocError>
    ensures { IfOk result (λ t. t ≡ oid_tree id.now) }
{
    wrap(alloc, "$oid", hex(alloc, id)?)
}

pub(crate) fn int(alloc: Global, n: i32) -> Result<Tree, AllocError>
    ensures { IfOk result (λ t. t ≡ int_tree n) }
{
    let digits = n.to_string(alloc)?;
    wrap(alloc, "$numberInt", string(digits)?)
}

pub(crate) fn long(alloc: Global, n: i64) -> Result<Tree, AllocError>
    ensures { IfOk result (λ t. t ≡ long_tree n) }
{
    let digits = n.to_string(alloc)?;
    wrap(alloc, "$numberLong", string(digits)?)
}

fn date(alloc: Global, n: i64) -> Result<Tree, AllocError>
    ensures { IfOk result (λ t. t ≡ date_tree n) }
{
    wrap(alloc, "$date", long(alloc, n)?)
}

fn regex(alloc: Global, pattern: &str, options: &str) -> Result<Tree, AllocError>
    ensures { IfOk result (λ t. t ≡ regex_tree pattern.now options.now) }
{
    let pattern = text(alloc, pattern)?;
    let options = text(alloc, options)?;
    let inner = pair(alloc, "pattern", pattern, "options", options)?;
    wrap(alloc, "$regularExpression", inner)
}

fn pointer(alloc: Global, ns: &str, id: &[u8]) -> Result<Tree, AllocError>
    ensures { IfOk result (λ t. t ≡ pointer_tree ns.now id.now) }
{
    let ns = text(alloc, ns)?;
    let id = oid(alloc, id)?;
    let inner = pair(alloc, "$ref", ns, "$id", id)?;
    wrap(alloc, "$dbPointer", inner)
}

fn code(alloc: Global, code: &str) -> Result<Tree, AllocError>
    ensures { IfOk result (λ t. t ≡ code_tree code.now) }
{
    wrap(alloc, "$code", text(alloc, code)?)
}

fn scoped(alloc: Global, code: &str, scope: Fields) -> Result<Tree, AllocError>
    ensures { IfOk result (λ t. t ≡ scoped_tree code.now scope) }
{
    let code = text(alloc, code)?;
    pair(alloc, "$code", code, "$scope", Tree::Object(scope))
}

fn symbol(alloc: Global, symbol: &str) -> Result<Tree, AllocError>
    ensures { IfOk result (λ t. t ≡ symbol_tree symbol.now) }
{
    wrap(alloc, "$symbol", text(alloc, symbol)?)
}

fn stamp(alloc: Global, secs: u32, inc: u32) -> Result<Tree, AllocError>
    ensures { IfOk result (λ t. t ≡ stamp_tree secs inc) }
{
    let secs = number(alloc, secs)?;
    let inc = number(alloc, inc)?;
    let inner = pair(alloc, "t", secs, "i", inc)?;
    wrap(alloc, "$timestamp", inner)
}

// The number of a least or a greatest key.
fn key_number(alloc: Global) -> Result<Tree, AllocError>
    ensures { IfOk result (λ t. t ≡ Tree.Number (codes "1")) }
{
    Ok(Tree::Number(Number::of(JText::of(alloc, "1")?)))
}

fn least(alloc: Global) -> Result<Tree, AllocError>
    ensures { IfOk result (λ t. t ≡ min_tree) }
{
    wrap(alloc, "$minKey", key_number(alloc)?)
}

fn greatest(alloc: Global) -> Result<Tree, AllocError>
    ensures { IfOk result (λ t. t ≡ max_tree) }
{
    wrap(alloc, "$maxKey", key_number(alloc)?)
}

#[cycle(tree_of)]
fn tree(alloc: Global, value: &Value) -> Result<Tree, AllocError>
    ensures { IfOk result (λ t. t ≡ tree_of value.now) }
{
    match value {
        Value::Double(bytes) => double(alloc, bytes),
        Value::Str(t) => text(alloc, t.as_str()),
        Value::Object(doc) => Ok(Tree::Object(fields(alloc, doc.entries())?)),
        Value::Array(list) => Ok(Tree::Items(items(alloc, list.as_slice())?)),
        Value::Binary { subtype, bytes } => binary(alloc, *subtype, bytes.as_slice()),
        Value::Undefined => undefined(alloc),
        Value::Oid(id) => oid(alloc, id),
        Value::Bool(b) => Ok(Tree::Bool(*b)),
        Value::Date(n) => date(alloc, *n),
        Value::Null => Ok(Tree::Null),
        Value::Regex { pattern, options } => regex(alloc, pattern.as_str(), options.as_str()),
        Value::DbPointer { ns, id } => pointer(alloc, ns.as_str(), id),
        Value::Code(t) => code(alloc, t.as_str()),
        Value::Symbol(t) => symbol(alloc, t.as_str()),
        Value::ScopedCode { code, scope } => {
            let scope = fields(alloc, scope.entries())?;
            scoped(alloc, code.as_str(), scope)
        }
        Value::Int(n) => int(alloc, *n),
        Value::Stamp(ts) => stamp(alloc, ts.secs, ts.inc),
        Value::Long(n) => long(alloc, *n),
        Value::Decimal(bytes) => decimal(alloc, bytes),
        Value::MinKey => least(alloc),
        Value::MaxKey => greatest(alloc),
    }
}

#[cycle(tree_of)]
fn items(alloc: Global, list: &[Value]) -> Result<JList<Tree>, AllocError>
    ensures { IfOk result (λ made. made ≡ items_of list.now) }
{
    let mut trees = JList::new(alloc);
    for item in list {
        trees.push(tree(alloc, item)?)?;
    }
    Ok(trees)
}

#[cycle(tree_of)]
fn fields(alloc: Global, list: &[(CText, Value)]) -> Result<Fields, AllocError>
    requires { AreDistinct (names_of list.now) }
    ensures { IfOk result (λ made. made ≡ fields_of list.now) }
{
    let mut entries = Vec::new(alloc);
    for field in list {
        entries.push(entry(alloc, field)?)?;
    }
    Ok(Fields::of_distinct(entries))
}

#[cycle(tree_of)]
fn entry(alloc: Global, field: &(CText, Value)) -> Result<(JText, Tree), AllocError>
    ensures { IfOk result (λ e. e ≡ (field.now.0, tree_of field.now.1)) }
{
    let name = JText::of(alloc, field.0.as_str())?;
    let tree = tree(alloc, &field.1)?;
    Ok((name, tree))
}

/// The tree of a value, by the table of docs/extended-json.md.
pub fn tree_of(alloc: Global, value: &Value) -> Result<Tree, AllocError>
    ensures tree { IfOk result (λ t. t ≡ tree_of value.now) }
    ensures well_formed { IfOk result (λ t. IsWellFormed t) }
    ensures from_well_formed { IsWellFormedValue value.now }
{
    value.is_well_formed();
    let tree = tree(alloc, value)?;
    tree.is_well_formed();
    Ok(tree)
}
