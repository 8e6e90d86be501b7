//! A value that is read where it lies.
ghost use Rattle.std.specs.Prelude.{◌≡◌, option_map};
ghost use Rattle.bson_view.specs.Views.{elem_value};
ghost use Rattle.bson_view.specs.References.{value_meant, str_in, int_in, long_in, bool_in, object_in, stamp_in};
ghost use Rattle.bson_view.specs.Held.{held_document, held_value};

use crate::elem::Elem;
use crate::held::{Held, HeldValue};
use crate::leaf::leaf;
use crate::view::View;
use crate::walk::HeldItems;
use bson_check::parts::text;
use bson_value::{Ts, Value};

/// A value, with its texts and bytes lent from where they lie.
#[derive(Clone, Copy)]
pub enum ValueRef<'a> {
    Double([u8; 8]),
    Str(&'a str),
    Object(Held<'a>),
    Array(HeldItems<'a>),
    Binary { subtype: u8, bytes: &'a [u8] },
    Undefined,
    Oid([u8; 12]),
    Bool(bool),
    Date(i64),
    Null,
    Regex { pattern: &'a str, options: &'a str },
    DbPointer { ns: &'a str, id: [u8; 12] },
    Code(&'a str),
    Symbol(&'a str),
    ScopedCode { code: &'a str, scope: Held<'a> },
    Int(i32),
    Stamp(Ts),
    Long(i64),
    Decimal([u8; 16]),
    MinKey,
    MaxKey,
}

impl<'a> ValueRef<'a> {
    /// The text, where the value is a string.
    pub fn as_str(&self) -> Option<&'a str>
        ensures { option_map (λ t. t.now) result ≡ str_in self.now }
    {
        match *self {
            ValueRef::Str(text) => Some(text),
            _ => None,
        }
    }

    /// The number, where the value is an int32.
    pub fn as_i32(&self) -> Option<i32>
        ensures { result ≡ int_in self.now }
    {
        match *self {
            ValueRef::Int(number) => Some(number),
            _ => None,
        }
    }

    /// The number, where the value is an int64.
    pub fn as_i64(&self) -> Option<i64>
        ensures { result ≡ long_in self.now }
    {
        match *self {
            ValueRef::Long(number) => Some(number),
            _ => None,
        }
    }

    /// The truth, where the value is a boolean.
    pub fn as_bool(&self) -> Option<bool>
        ensures { result ≡ bool_in self.now }
    {
        match *self {
            ValueRef::Bool(truth) => Some(truth),
            _ => None,
        }
    }

    /// The document, where the value is one.
    pub fn as_document(&self) -> Option<Held<'a>>
        ensures { option_map held_document result ≡ object_in self.now }
    {
        match *self {
            ValueRef::Object(document) => Some(document),
            _ => None,
        }
    }

    /// The timestamp, where the value is one.
    pub fn as_ts(&self) -> Option<Ts>
        ensures { result ≡ stamp_in self.now }
    {
        match *self {
            ValueRef::Stamp(ts) => Some(ts),
            _ => None,
        }
    }
}

fn object<'a>(elem: &Elem<'a>) -> ValueRef<'a>
    requires { elem.now.tag ≡ 3 }
    ensures { value_meant result ≡ elem_value elem.now }
{
    ValueRef::Object(Held::Spelled(View::of_element(elem.value)))
}

// The text and the scope fill what stands behind the length.
fn scoped_code<'a>(elem: &Elem<'a>) -> ValueRef<'a>
    requires { elem.now.tag ≡ 15 }
    ensures { value_meant result ≡ elem_value elem.now }
{
    let behind = &elem.value[4..];
    match text(behind.len(), behind) {
        Ok((code, scope)) => ValueRef::ScopedCode {
            code,
            scope: Held::Spelled(View::of_element(scope)),
        },
        Err(_) => ValueRef::Null,
    }
}

fn array<'a>(elem: &Elem<'a>) -> ValueRef<'a>
    requires { elem.now.tag ≡ 4 }
    ensures { value_meant result ≡ elem_value elem.now }
{
    ValueRef::Array(HeldItems::Spelled(elem.elements()))
}

impl<'a> Elem<'a> {
    /// The value, with what is in it lent from its bytes.
    pub fn read(&self) -> ValueRef<'a>
        ensures { value_meant result ≡ elem_value self.now }
    {
        match self.tag {
            3 => object(self),
            4 => array(self),
            15 => scoped_code(self),
            tag => leaf(tag, self.value),
        }
    }
}

fn built(value: &Value) -> ValueRef<'_>
    ensures { value_meant result ≡ value.now }
{
    match value {
        Value::Double(bits) => ValueRef::Double(*bits),
        Value::Str(text) => ValueRef::Str(text.as_str()),
        Value::Object(doc) => ValueRef::Object(Held::Built(doc)),
        Value::Array(items) => ValueRef::Array(HeldItems::Built(items.as_slice())),
        Value::Binary { subtype, bytes } => ValueRef::Binary {
            subtype: *subtype,
            bytes: bytes.as_slice(),
        },
        Value::Undefined => ValueRef::Undefined,
        Value::Oid(id) => ValueRef::Oid(*id),
        Value::Bool(truth) => ValueRef::Bool(*truth),
        Value::Date(millis) => ValueRef::Date(*millis),
        Value::Null => ValueRef::Null,
        Value::Regex { pattern, options } => ValueRef::Regex {
            pattern: pattern.as_str(),
            options: options.as_str(),
        },
        Value::DbPointer { ns, id } => ValueRef::DbPointer {
            ns: ns.as_str(),
            id: *id,
        },
        Value::Code(code) => ValueRef::Code(code.as_str()),
        Value::Symbol(text) => ValueRef::Symbol(text.as_str()),
        Value::ScopedCode { code, scope } => ValueRef::ScopedCode {
            code: code.as_str(),
            scope: Held::Built(scope),
        },
        Value::Int(number) => ValueRef::Int(*number),
        Value::Stamp(ts) => ValueRef::Stamp(*ts),
        Value::Long(number) => ValueRef::Long(*number),
        Value::Decimal(bits) => ValueRef::Decimal(*bits),
        Value::MinKey => ValueRef::MinKey,
        Value::MaxKey => ValueRef::MaxKey,
    }
}

impl<'a> HeldValue<'a> {
    /// The value, with what is in it lent from where it is held.
    pub fn read(&self) -> ValueRef<'a>
        ensures { value_meant result ≡ held_value self.now }
    {
        match *self {
            HeldValue::Spelled(elem) => elem.read(),
            HeldValue::Built(value) => built(value),
        }
    }
}
