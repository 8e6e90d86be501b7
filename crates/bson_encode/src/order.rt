//! The order of two `_id`s by their keys.
ghost use Rattle.std.specs.Prelude.{◌≡◌, ◌+◌, ◌<◌, ◌%◌, ◌^◌, ◌++◌, ◌∷◌, [], length, List, ℕ, if◌then◌else◌};
ghost use Rattle.std.specs.Int.{w32, to_le_bytes};
ghost use Rattle.std.specs.Ordering.{nat_cmp};
ghost use Rattle.std.specs.Cmp.Lexicographic.{slice_cmp};
ghost use Rattle.std.specs.declared.cmp.Ordering.TheVariants.{Equal};
ghost use Rattle.bson_value.specs.Spelling.{count_bytes, counted, document_text, element, elements_of, framed, items_of, spelled, spelling, tag_of, text_bytes};
ghost use Rattle.bson_encode.specs.Key.{key_of};
ghost use Rattle.bson_encode.specs.Leading.{Leads, LeadsIfShort};

use crate::writing::{name_of, type_of};
use bson_value::{BoxedCText, BoxedText, CText, Doc, Text, Ts, Value};
use std::cmp::Ordering;

/// Compares the keys of two `_id`s by their bytes, where neither value has 2^31 bytes of spelling or
/// more: a length in it couldn't tell how long it is. It needs no memory. The time is at most the number
/// of values in both times their levels.
pub fn cmp_keys(a: &Value, b: &Value) -> Ordering
    ensures { length (spelled a.now) < 2 ^ 31 → length (spelled b.now) < 2 ^ 31 → result ≡ slice_cmp nat_cmp (key_of a.now) (key_of b.now) }
{
    let types = byte(type_of(a), type_of(b));
    if types.is_ne() {
        return types;
    }
    value(a, b)
}

fn run(a: &[u8], b: &[u8]) -> Ordering
    ensures leads { length a.now ≡ length b.now → Leads a.now b.now result }
    ensures equal { result ≡ Equal → a.now ≡ b.now }
{
    a.cmp(b)
}

fn byte(a: u8, b: u8) -> Ordering
    ensures { Leads (a ∷ []) (b ∷ []) result }
{
    a.cmp(&b)
}

fn bit(bit: bool) -> u8
    ensures { result ≡ if bit then 1 else 0 }
{
    if bit { 1 } else { 0 }
}

fn word(a: u32, b: u32) -> Ordering
    ensures leads { Leads (to_le_bytes w32 a) (to_le_bytes w32 b) result }
    ensures equal { result ≡ Equal → to_le_bytes w32 a ≡ to_le_bytes w32 b }
{
    run(&a.to_le_bytes(), &b.to_le_bytes())
}

fn count(a: usize, b: usize) -> Ordering
    ensures leads { Leads (count_bytes a) (count_bytes b) result }
    ensures equal { result ≡ Equal → count_bytes a ≡ count_bytes b }
{
    word((a % 4294967296) as u32, (b % 4294967296) as u32)
}

fn text(a: &Text, b: &Text) -> Ordering
    ensures { LeadsIfShort (text_bytes a.now) (text_bytes b.now) result }
{
    let a = a.as_str().as_bytes();
    let b = b.as_str().as_bytes();
    let order = count(a.len() + 1, b.len() + 1);
    if order.is_ne() {
        return order;
    }
    run(a, b)
}

fn boxed_text(a: &BoxedText, b: &BoxedText) -> Ordering
    ensures { LeadsIfShort (text_bytes a.now) (text_bytes b.now) result }
{
    text(a.text(), b.text())
}

fn name(a: &CText, b: &CText) -> Ordering
    ensures { Leads (a.now ++ 0 ∷ []) (b.now ++ 0 ∷ []) result }
{
    name_of(a).as_bytes().cmp(name_of(b).as_bytes())
}

fn binary(first: u8, a: &[u8], second: u8, b: &[u8]) -> Ordering
    ensures { LeadsIfShort (count_bytes (length a.now) ++ first ∷ a.now) (count_bytes (length b.now) ++ second ∷ b.now) result }
{
    let order = count(a.len(), b.len());
    if order.is_ne() {
        return order;
    }
    let order = byte(first, second);
    if order.is_ne() {
        return order;
    }
    run(a, b)
}

fn regex(a: &BoxedCText, s: &BoxedCText, b: &BoxedCText, t: &BoxedCText) -> Ordering
    ensures { Leads ((a.now ++ 0 ∷ []) ++ (s.now ++ 0 ∷ [])) ((b.now ++ 0 ∷ []) ++ (t.now ++ 0 ∷ [])) result }
{
    let order = name(a.text(), b.text());
    if order.is_ne() {
        return order;
    }
    name(s.text(), t.text())
}

fn pointer(a: &BoxedText, s: &[u8], b: &BoxedText, t: &[u8]) -> Ordering
    requires { length s.now ≡ length t.now }
    ensures { LeadsIfShort (text_bytes a.now ++ s.now) (text_bytes b.now ++ t.now) result }
{
    let order = boxed_text(a, b);
    if order.is_ne() {
        return order;
    }
    run(s, t)
}

fn stamp(a: Ts, b: Ts) -> Ordering
    ensures { Leads (to_le_bytes w32 a.inc ++ to_le_bytes w32 a.secs) (to_le_bytes w32 b.inc ++ to_le_bytes w32 b.secs) result }
{
    let order = word(a.inc, b.inc);
    if order.is_ne() {
        return order;
    }
    word(a.secs, b.secs)
}

#[cycle(keys)]
fn value(a: &Value, b: &Value) -> Ordering
    ensures { tag_of a.now ≡ tag_of b.now → LeadsIfShort (spelled a.now) (spelled b.now) result }
{
    match a {
        Value::Double(x) => match b {
            Value::Double(y) => run(x, y),
            _ => Ordering::Equal,
        },
        Value::Str(x) => match b {
            Value::Str(y) => text(x, y),
            _ => Ordering::Equal,
        },
        Value::Object(x) => match b {
            Value::Object(y) => document(x, y),
            _ => Ordering::Equal,
        },
        Value::Array(x) => match b {
            Value::Array(y) => {
                array(
                    a.spelling_len(),
                    x.as_slice(),
                    b.spelling_len(),
                    y.as_slice(),
                )
            }
            _ => Ordering::Equal,
        },
        Value::Binary {
            subtype: first,
            bytes: x,
        } => match b {
            Value::Binary {
                subtype: second,
                bytes: y,
            } => binary(*first, x.as_slice(), *second, y.as_slice()),
            _ => Ordering::Equal,
        },
        Value::Undefined => Ordering::Equal,
        Value::Oid(x) => match b {
            Value::Oid(y) => run(x, y),
            _ => Ordering::Equal,
        },
        Value::Bool(x) => match b {
            Value::Bool(y) => byte(bit(*x), bit(*y)),
            _ => Ordering::Equal,
        },
        Value::Date(x) => match b {
            Value::Date(y) => run(&x.to_le_bytes(), &y.to_le_bytes()),
            _ => Ordering::Equal,
        },
        Value::Null => Ordering::Equal,
        Value::Regex {
            pattern: x,
            options: s,
        } => match b {
            Value::Regex {
                pattern: y,
                options: t,
            } => regex(x, s, y, t),
            _ => Ordering::Equal,
        },
        Value::DbPointer { ns: x, id: s } => match b {
            Value::DbPointer { ns: y, id: t } => pointer(x, s, y, t),
            _ => Ordering::Equal,
        },
        Value::Code(x) => match b {
            Value::Code(y) => text(x, y),
            _ => Ordering::Equal,
        },
        Value::Symbol(x) => match b {
            Value::Symbol(y) => text(x, y),
            _ => Ordering::Equal,
        },
        Value::ScopedCode { code: x, scope: s } => match b {
            Value::ScopedCode { code: y, scope: t } => {
                scoped(a.spelling_len(), x, s, b.spelling_len(), y, t)
            }
            _ => Ordering::Equal,
        },
        Value::Int(x) => match b {
            Value::Int(y) => run(&x.to_le_bytes(), &y.to_le_bytes()),
            _ => Ordering::Equal,
        },
        Value::Stamp(x) => match b {
            Value::Stamp(y) => stamp(*x, *y),
            _ => Ordering::Equal,
        },
        Value::Long(x) => match b {
            Value::Long(y) => run(&x.to_le_bytes(), &y.to_le_bytes()),
            _ => Ordering::Equal,
        },
        Value::Decimal(x) => match b {
            Value::Decimal(y) => run(x, y),
            _ => Ordering::Equal,
        },
        Value::MinKey => Ordering::Equal,
        Value::MaxKey => Ordering::Equal,
    }
}

#[cycle(keys)]
fn scoped(first: usize, a: &BoxedText, s: &Doc, second: usize, b: &BoxedText, t: &Doc) -> Ordering
    requires first { first ≡ length (counted (text_bytes a.now ++ document_text s.now)) % 2 ^ 64 }
    requires second { second ≡ length (counted (text_bytes b.now ++ document_text t.now)) % 2 ^ 64 }
    ensures { LeadsIfShort (counted (text_bytes a.now ++ document_text s.now)) (counted (text_bytes b.now ++ document_text t.now)) result }
{
    let order = count(first, second);
    if order.is_ne() {
        return order;
    }
    code(a, s, b, t)
}

#[cycle(keys)]
fn code(a: &BoxedText, s: &Doc, b: &BoxedText, t: &Doc) -> Ordering
    ensures { LeadsIfShort (text_bytes a.now ++ document_text s.now) (text_bytes b.now ++ document_text t.now) result }
{
    let order = boxed_text(a, b);
    if order.is_ne() {
        return order;
    }
    document(s, t)
}

#[cycle(keys)]
fn document(a: &Doc, b: &Doc) -> Ordering
    ensures { LeadsIfShort (document_text a.now) (document_text b.now) result }
{
    let order = count(a.spelling_len(), b.spelling_len());
    if order.is_ne() {
        return order;
    }
    fields(a.entries(), b.entries())
}

#[cycle(keys)]
fn array(first: usize, a: &[Value], second: usize, b: &[Value]) -> Ordering
    requires first { first ≡ length (framed (items_of a.now)) % 2 ^ 64 }
    requires second { second ≡ length (framed (items_of b.now)) % 2 ^ 64 }
    ensures { LeadsIfShort (framed (items_of a.now)) (framed (items_of b.now)) result }
{
    let order = count(first, second);
    if order.is_ne() {
        return order;
    }
    elements(a, b)
}

#[cycle(keys)]
fn fields(a: &[(CText, Value)], b: &[(CText, Value)]) -> Ordering
    ensures { LeadsIfShort (elements_of a.now ++ 0 ∷ []) (elements_of b.now ++ 0 ∷ []) result }
{
    for i in 0..a.len() {
        if b.len() <= i {
            return Ordering::Greater;
        }
        let order = field(&a[i], &b[i]);
        if order.is_ne() {
            return order;
        }
    }
    a.len().cmp(&b.len())
}

#[cycle(keys)]
fn field(a: &(CText, Value), b: &(CText, Value)) -> Ordering
    ensures { LeadsIfShort (element (a.now.0, spelling a.now.1)) (element (b.now.0, spelling b.now.1)) result }
{
    let order = byte(type_of(&a.1), type_of(&b.1));
    if order.is_ne() {
        return order;
    }
    let order = name(&a.0, &b.0);
    if order.is_ne() {
        return order;
    }
    value(&a.1, &b.1)
}

#[cycle(keys)]
fn elements(a: &[Value], b: &[Value]) -> Ordering
    ensures { LeadsIfShort (items_of a.now ++ 0 ∷ []) (items_of b.now ++ 0 ∷ []) result }
{
    for i in 0..a.len() {
        if b.len() <= i {
            return Ordering::Greater;
        }
        let order = one(&a[i], &b[i]);
        if order.is_ne() {
            return order;
        }
    }
    a.len().cmp(&b.len())
}

// Two elements of arrays that have the same place.
#[cycle(keys)]
fn one(a: &Value, b: &Value) -> Ordering
    ensures { (n : List ℕ) → LeadsIfShort (element (n, spelling a.now)) (element (n, spelling b.now)) result }
{
    let order = byte(type_of(a), type_of(b));
    if order.is_ne() {
        return order;
    }
    value(a, b)
}
