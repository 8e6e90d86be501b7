//! Equality up to the order of fields.
ghost use Rattle.std.specs.Prelude.{◌≡◌, ◌↔◌, IsTrue, map};
ghost use Rattle.bson_value.specs.Alike.{by_name, ordered, ordered_fields, HasAlike, AreAlike, ◌~◌};

use crate::fields::Fields;
use crate::value::{Doc, Value};
use containers::CText;

/// Whether the two are equal up to the order of fields at every level, scopes of code included.
///
/// Where the fields of both stand in one order, the time is linear in their number. Each field that
/// stands elsewhere in the other document is looked for from its front.
pub fn same_up_to_order(a: &Doc, b: &Doc) -> bool
    ensures { IsTrue result ↔ AreAlike a.now b.now }
{
    alike_fields(a, b)
}

#[cycle(alike)]
fn alike(a: &Value, b: &Value) -> bool
    ensures { IsTrue result ↔ (a.now ~ b.now) }
{
    match a {
        Value::Object(c) => match b {
            Value::Object(d) => alike_fields(c, d),
            _ => false,
        },
        Value::Array(c) => match b {
            Value::Array(d) => alike_items(c.as_slice(), d.as_slice()),
            _ => false,
        },
        Value::ScopedCode { code: c, scope: e } => match b {
            Value::ScopedCode { code: d, scope: f } => {
                c.as_str() == d.as_str() && alike_fields(e, f)
            }
            _ => false,
        },
        _ => a.same(b),
    }
}

#[cycle(alike)]
fn alike_items(a: &[Value], b: &[Value]) -> bool
    ensures { IsTrue result ↔ (map ordered a.now ≡ map ordered b.now) }
{
    if a.len() != b.len() {
        return false;
    }
    for i in 0..a.len() {
        if !alike(&a[i], &b[i]) {
            return false;
        }
    }
    true
}

#[cycle(alike)]
fn alike_fields(a: &Fields<Value>, b: &Fields<Value>) -> bool
    ensures { IsTrue result ↔ (by_name (ordered_fields a.now) ≡ by_name (ordered_fields b.now)) }
{
    if a.len() != b.len() {
        return false;
    }
    let entries = a.entries();
    for i in 0..entries.len() {
        if !has_alike(i, &entries[i], b) {
            return false;
        }
    }
    true
}

#[cycle(alike)]
fn has_alike(at: usize, entry: &(CText, Value), other: &Fields<Value>) -> bool
    ensures { IsTrue result ↔ HasAlike entry.now other.now }
{
    match other.get_near(at, entry.0.as_str()) {
        Some(value) => alike(&entry.1, value),
        None => false,
    }
}
