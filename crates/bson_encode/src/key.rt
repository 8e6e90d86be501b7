//! Keys of `_id`s, compared without being written.
ghost use Rattle.std.specs.Prelude.{◌≡◌, ◌+◌, ◌%◌, ◌^◌, ◌++◌, ◌∷◌, [], length};
ghost use Rattle.std.specs.Ordering.{nat_cmp};
ghost use Rattle.std.specs.Cmp.Lexicographic.{slice_cmp};
ghost use Rattle.bson_value.specs.Spelling.{count_bytes, counted, document_text, element, elements_of, framed, items_of, spelled, spelling, text_bytes};
ghost use Rattle.bson_encode.specs.Comparing.{step, behind, at_end};
ghost use Rattle.bson_encode.specs.Key.{key_of};

use crate::writing::type_of;
use bson_value::{BoxedCText, BoxedText, CText, Doc, Text, Value};
use itoa::Buffer;
use std::cmp::Ordering;

// A text that is compared with another one, piece by piece.
#[derive(Drop)]
struct Comparison<'a> {
    order: Ordering,
    rest: &'a [u8],
}

/// Compares the key of an `_id`, its type byte and its spelling, with a type byte and bytes, by their
/// bytes. It needs no memory. The time is at most the number of values in it times its levels.
pub fn cmp_key(id: &Value, tag: u8, bytes: &[u8]) -> Ordering
    ensures { result ≡ slice_cmp nat_cmp (key_of id.now) (tag ∷ bytes.now) }
{
    let start = Comparison {
        order: type_of(id).cmp(&tag),
        rest: bytes,
    };
    last(value(start, id))
}

fn last(so_far: Comparison<'_>) -> Ordering
    ensures { result ≡ at_end so_far.entry.order so_far.entry.rest.now }
{
    if so_far.order.is_eq() && !so_far.rest.is_empty() {
        return Ordering::Less;
    }
    so_far.order
}

fn next<'a>(so_far: Comparison<'a>, byte: u8) -> Comparison<'a>
    ensures { (result.order, result.rest.now) ≡ step so_far.entry.order so_far.entry.rest.now byte }
{
    if so_far.order.is_ne() {
        return so_far;
    }
    match so_far.rest.split_first() {
        None => Comparison {
            order: Ordering::Greater,
            rest: so_far.rest,
        },
        Some((first, rest)) => Comparison {
            order: byte.cmp(first),
            rest,
        },
    }
}

fn piece<'a>(so_far: Comparison<'a>, bytes: &[u8]) -> Comparison<'a>
    ensures { (result.order, result.rest.now) ≡ behind so_far.entry.order so_far.entry.rest.now bytes.now }
{
    let mut now = so_far;
    for byte in bytes {
        now = next(now, *byte);
    }
    now
}

fn count<'a>(so_far: Comparison<'a>, len: usize) -> Comparison<'a>
    ensures { (result.order, result.rest.now) ≡ behind so_far.entry.order so_far.entry.rest.now (count_bytes len) }
{
    let count = (len % 4294967296) as u32;
    piece(so_far, &count.to_le_bytes())
}

fn text<'a>(so_far: Comparison<'a>, text: &Text) -> Comparison<'a>
    ensures { (result.order, result.rest.now) ≡ behind so_far.entry.order so_far.entry.rest.now (text_bytes text.now) }
{
    let text = text.as_str();
    let now = count(so_far, text.len() + 1);
    let now = piece(now, text.as_bytes());
    next(now, 0)
}

fn name<'a>(so_far: Comparison<'a>, name: &CText) -> Comparison<'a>
    ensures { (result.order, result.rest.now) ≡ behind so_far.entry.order so_far.entry.rest.now (name.now ++ 0 ∷ []) }
{
    let now = piece(so_far, name.as_str().as_bytes());
    next(now, 0)
}

fn boxed_text<'a>(so_far: Comparison<'a>, boxed: &BoxedText) -> Comparison<'a>
    ensures { (result.order, result.rest.now) ≡ behind so_far.entry.order so_far.entry.rest.now (text_bytes boxed.now) }
{
    text(so_far, boxed.text())
}

fn boxed_name<'a>(so_far: Comparison<'a>, boxed: &BoxedCText) -> Comparison<'a>
    ensures { (result.order, result.rest.now) ≡ behind so_far.entry.order so_far.entry.rest.now (boxed.now ++ 0 ∷ []) }
{
    name(so_far, boxed.text())
}

#[cycle(key)]
fn value<'a>(so_far: Comparison<'a>, value: &Value) -> Comparison<'a>
    ensures { (result.order, result.rest.now) ≡ behind so_far.entry.order so_far.entry.rest.now (spelled value.now) }
{
    match value {
        Value::Double(d) => piece(so_far, d),
        Value::Str(t) => text(so_far, t),
        Value::Object(doc) => document(so_far, doc),
        Value::Array(list) => array(so_far, value.spelling_len(), list.as_slice()),
        Value::Binary { subtype, bytes } => {
            let now = count(so_far, bytes.len());
            piece(next(now, *subtype), bytes.as_slice())
        }
        Value::Undefined => so_far,
        Value::Oid(id) => piece(so_far, id),
        Value::Bool(b) => next(so_far, if *b { 1 } else { 0 }),
        Value::Date(n) => piece(so_far, &n.to_le_bytes()),
        Value::Null => so_far,
        Value::Regex { pattern, options } => boxed_name(boxed_name(so_far, pattern), options),
        Value::DbPointer { ns, id } => piece(boxed_text(so_far, ns), id),
        Value::Code(t) => text(so_far, t),
        Value::Symbol(t) => text(so_far, t),
        Value::ScopedCode { code, scope } => scoped(so_far, value.spelling_len(), code, scope),
        Value::Int(n) => piece(so_far, &n.to_le_bytes()),
        Value::Stamp(ts) => {
            let now = piece(so_far, &ts.inc.to_le_bytes());
            piece(now, &ts.secs.to_le_bytes())
        }
        Value::Long(n) => piece(so_far, &n.to_le_bytes()),
        Value::Decimal(d) => piece(so_far, d),
        Value::MinKey => so_far,
        Value::MaxKey => so_far,
    }
}

#[cycle(key)]
fn scoped<'a>(so_far: Comparison<'a>, len: usize, code: &BoxedText, scope: &Doc) -> Comparison<'a>
    requires { len ≡ length (counted (text_bytes code.now ++ document_text scope.now)) % 2 ^ 64 }
    ensures { (result.order, result.rest.now) ≡ behind so_far.entry.order so_far.entry.rest.now (counted (text_bytes code.now ++ document_text scope.now)) }
{
    let now = boxed_text(count(so_far, len), code);
    document(now, scope)
}

#[cycle(key)]
fn document<'a>(so_far: Comparison<'a>, doc: &Doc) -> Comparison<'a>
    ensures { (result.order, result.rest.now) ≡ behind so_far.entry.order so_far.entry.rest.now (document_text doc.now) }
{
    if so_far.order.is_ne() {
        return so_far;
    }
    let now = count(so_far, doc.spelling_len());
    next(fields(now, doc.entries()), 0)
}

#[cycle(key)]
fn array<'a>(so_far: Comparison<'a>, len: usize, items: &[Value]) -> Comparison<'a>
    requires { len ≡ length (framed (items_of items.now)) % 2 ^ 64 }
    ensures { (result.order, result.rest.now) ≡ behind so_far.entry.order so_far.entry.rest.now (framed (items_of items.now)) }
{
    next(elements(count(so_far, len), items), 0)
}

#[cycle(key)]
fn fields<'a>(so_far: Comparison<'a>, fields: &[(CText, Value)]) -> Comparison<'a>
    ensures { (result.order, result.rest.now) ≡ behind so_far.entry.order so_far.entry.rest.now (elements_of fields.now) }
{
    let mut now = so_far;
    for i in 0..fields.len() {
        now = field(now, &fields[i]);
    }
    now
}

#[cycle(key)]
fn field<'a>(so_far: Comparison<'a>, field: &(CText, Value)) -> Comparison<'a>
    ensures { (result.order, result.rest.now) ≡ behind so_far.entry.order so_far.entry.rest.now (element (field.now.0, spelling field.now.1)) }
{
    one(so_far, field.0.as_str().as_bytes(), &field.1)
}

#[cycle(key)]
fn elements<'a>(so_far: Comparison<'a>, items: &[Value]) -> Comparison<'a>
    ensures { (result.order, result.rest.now) ≡ behind so_far.entry.order so_far.entry.rest.now (items_of items.now) }
{
    let mut now = so_far;
    for i in 0..items.len() {
        let mut digits = Buffer::new();
        now = one(now, digits.format(i).as_bytes(), &items[i]);
    }
    now
}

#[cycle(key)]
fn one<'a>(so_far: Comparison<'a>, name: &[u8], inner: &Value) -> Comparison<'a>
    ensures { (result.order, result.rest.now) ≡ behind so_far.entry.order so_far.entry.rest.now (element (name.now, spelling inner.now)) }
{
    let now = next(so_far, type_of(inner));
    let now = next(piece(now, name), 0);
    value(now, inner)
}
