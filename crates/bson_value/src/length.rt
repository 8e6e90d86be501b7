//! The length of a spelling, without writing it.
ghost use Rattle.std.specs.Prelude.{◌≡◌, ◌+◌, ◌%◌, ◌^◌, length};
ghost use Rattle.bson_value.specs.Spelling.{document_text, elements_of, element, items_of, spelled, spelling};

use crate::fields::Fields;
use crate::size::digit_count;
use crate::value::Value;
use containers::CText;

impl Value {
    /// The number of bytes of the value's spelling, without its type and name, modulo 2^64.
    #[cycle(length)]
    pub fn spelling_len(&self) -> usize
        ensures { result ≡ length (spelled self.now) % 2 ^ 64 }
    {
        match self {
            Value::Object(doc) => doc.spelling_len(),
            Value::Array(list) => items(list.as_slice()),
            Value::ScopedCode { code, scope } => sum(sum(code.len(), 9), scope.spelling_len()),
            Value::Str(text) => sum(text.len(), 5),
            Value::Code(text) => sum(text.len(), 5),
            Value::Symbol(text) => sum(text.len(), 5),
            Value::Binary { bytes, .. } => sum(bytes.len(), 5),
            Value::Regex { pattern, options } => sum(sum(pattern.len(), options.len()), 2),
            Value::DbPointer { ns, id } => sum(sum(ns.len(), 5), id.as_slice().len()),
            Value::Double(bits) => bits.as_slice().len(),
            Value::Decimal(bits) => bits.as_slice().len(),
            Value::Oid(id) => id.as_slice().len(),
            Value::Date(_) => 8,
            Value::Stamp(_) => 8,
            Value::Long(_) => 8,
            Value::Int(_) => 4,
            Value::Bool(_) => 1,
            Value::Undefined | Value::Null | Value::MinKey | Value::MaxKey => 0,
        }
    }
}

impl Fields<Value> {
    /// The number of bytes of the document's spelling, modulo 2^64.
    #[cycle(length)]
    pub fn spelling_len(&self) -> usize
        ensures { result ≡ length (document_text self.now) % 2 ^ 64 }
    {
        sum(fields(self.entries()), 5)
    }
}

fn sum(a: usize, b: usize) -> usize
    ensures { result ≡ (a + b) % 2 ^ 64 }
{
    a.wrapping_add(b)
}

#[cycle(length)]
fn fields(entries: &[(CText, Value)]) -> usize
    ensures { result ≡ length (elements_of entries.now) % 2 ^ 64 }
{
    let mut len = 0;
    for i in 0..entries.len() {
        len = sum(len, field(&entries[i]));
    }
    len
}

#[cycle(length)]
fn field(entry: &(CText, Value)) -> usize
    ensures { result ≡ length (element (entry.now.0, spelling entry.now.1)) % 2 ^ 64 }
{
    sum(sum(entry.0.len(), 2), entry.1.spelling_len())
}

#[cycle(length)]
fn items(items: &[Value]) -> usize
    ensures { result ≡ (length (items_of items.now) + 5) % 2 ^ 64 }
{
    let mut len = 5;
    for i in 0..items.len() {
        len = sum(len, sum(sum(digit_count(i), 2), items[i].spelling_len()));
    }
    len
}
