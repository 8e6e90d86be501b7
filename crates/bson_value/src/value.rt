//! Values and documents.
ghost use Rattle.std.specs.Prelude.{◌≡◌, ◌↔◌, IsTrue, IfOk};

use crate::fields::Fields;
use containers::{BoxedCText, BoxedText, Bytes, CText, List, Text};
use std::alloc::{AllocError, Global};

/// A document: names and values, with distinct names at every level.
pub type Doc = Fields<Value>;

/// A timestamp of the oplog: seconds since 1970, and an ordinal among those of one second. It is
/// ordered by the seconds, and then by the ordinal.
#[derive(Clone, Copy, Debug, PartialEq, Eq)]
pub struct Ts {
    pub secs: u32,
    pub inc: u32,
}

impl Ts {
    ghost use Rattle.bson_value.specs.Timestamp.{stamp_number};

    /// The number that BSON writes for it: the seconds in the high 32 bits, and the ordinal in the low
    /// ones. Its order is that of timestamps.
    pub fn as_u64(self) -> u64
        ensures { result ≡ stamp_number self }
    {
        u64::from(self.secs) * 4294967296 + u64::from(self.inc)
    }
}

/// A value of BSON. Rare texts have memory of their own, so that a value takes 40 bytes.
#[derive(Drop)]
pub enum Value {
    Double([u8; 8]),
    Str(Text),
    Object(Doc),
    Array(List<Value>),
    Binary {
        subtype: u8,
        bytes: Bytes,
    },
    Undefined,
    Oid([u8; 12]),
    Bool(bool),
    Date(i64),
    Null,
    Regex {
        pattern: BoxedCText,
        options: BoxedCText,
    },
    DbPointer {
        ns: BoxedText,
        id: [u8; 12],
    },
    Code(Text),
    Symbol(Text),
    ScopedCode {
        code: BoxedText,
        scope: Doc,
    },
    Int(i32),
    Stamp(Ts),
    Long(i64),
    Decimal([u8; 16]),
    MinKey,
    MaxKey,
}

impl Value {
    /// Whether the two are equal, with types and order of fields.
    #[cycle(same)]
    pub fn same(&self, other: &Value) -> bool
        ensures { IsTrue result ↔ (self.now ≡ other.now) }
    {
        match self {
            Value::Double(a) => match other {
                Value::Double(b) => *a == *b,
                _ => false,
            },
            Value::Str(a) => match other {
                Value::Str(b) => a.as_str() == b.as_str(),
                _ => false,
            },
            Value::Object(a) => match other {
                Value::Object(b) => same_fields(a.entries(), b.entries()),
                _ => false,
            },
            Value::Array(a) => match other {
                Value::Array(b) => same_items(a.as_slice(), b.as_slice()),
                _ => false,
            },
            Value::Binary {
                subtype: a,
                bytes: c,
            } => match other {
                Value::Binary {
                    subtype: b,
                    bytes: d,
                } => { *a == *b && c.as_slice() == d.as_slice() }
                _ => false,
            },
            Value::Undefined => matches!(other, Value::Undefined),
            Value::Oid(a) => match other {
                Value::Oid(b) => *a == *b,
                _ => false,
            },
            Value::Bool(a) => match other {
                Value::Bool(b) => *a == *b,
                _ => false,
            },
            Value::Date(a) => match other {
                Value::Date(b) => *a == *b,
                _ => false,
            },
            Value::Null => matches!(other, Value::Null),
            Value::Regex {
                pattern: a,
                options: c,
            } => match other {
                Value::Regex {
                    pattern: b,
                    options: d,
                } => { a.as_str() == b.as_str() && c.as_str() == d.as_str() }
                _ => false,
            },
            Value::DbPointer { ns: a, id: c } => match other {
                Value::DbPointer { ns: b, id: d } => { a.as_str() == b.as_str() && *c == *d }
                _ => false,
            },
            Value::Code(a) => match other {
                Value::Code(b) => a.as_str() == b.as_str(),
                _ => false,
            },
            Value::Symbol(a) => match other {
                Value::Symbol(b) => a.as_str() == b.as_str(),
                _ => false,
            },
            Value::ScopedCode { code: a, scope: c } => match other {
                Value::ScopedCode { code: b, scope: d } => {
                    a.as_str() == b.as_str() && same_fields(c.entries(), d.entries())
                }
                _ => false,
            },
            Value::Int(a) => match other {
                Value::Int(b) => *a == *b,
                _ => false,
            },
            Value::Stamp(a) => match other {
                Value::Stamp(b) => a.secs == b.secs && a.inc == b.inc,
                _ => false,
            },
            Value::Long(a) => match other {
                Value::Long(b) => *a == *b,
                _ => false,
            },
            Value::Decimal(a) => match other {
                Value::Decimal(b) => *a == *b,
                _ => false,
            },
            Value::MinKey => matches!(other, Value::MinKey),
            Value::MaxKey => matches!(other, Value::MaxKey),
        }
    }
}

#[cycle(same)]
fn same_items(a: &[Value], b: &[Value]) -> bool
    ensures { IsTrue result ↔ (a.now ≡ b.now) }
{
    if a.len() != b.len() {
        return false;
    }
    for i in 0..a.len() {
        if !a[i].same(&b[i]) {
            return false;
        }
    }
    true
}

#[cycle(same)]
fn same_fields(a: &[(CText, Value)], b: &[(CText, Value)]) -> bool
    ensures { IsTrue result ↔ (a.now ≡ b.now) }
{
    if a.len() != b.len() {
        return false;
    }
    for i in 0..a.len() {
        if !same_entry(&a[i], &b[i]) {
            return false;
        }
    }
    true
}

#[cycle(same)]
fn same_entry(a: &(CText, Value), b: &(CText, Value)) -> bool
    ensures { IsTrue result ↔ (a.now ≡ b.now) }
{
    a.0.as_str() == b.0.as_str() && a.1.same(&b.1)
}
