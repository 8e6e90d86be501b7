//! Copies of values.
ghost use Rattle.std.specs.Prelude.{◌≡◌, IfOk};

use crate::fields::Fields;
use crate::value::{Doc, Value};
use containers::{CText, List};
use std::alloc::{AllocError, Global};

impl Value {
    /// An equal value.
    #[cycle(copy)]
    pub fn copy(&self, alloc: Global) -> Result<Value, AllocError>
        ensures { IfOk result (λ v. v ≡ self.now) }
    {
        match self {
            Value::Double(d) => Ok(Value::Double(*d)),
            Value::Str(text) => Ok(Value::Str(text.copy(alloc)?)),
            Value::Object(doc) => Ok(Value::Object(doc.copy(alloc)?)),
            Value::Array(items) => Ok(Value::Array(copy_items(alloc, items.as_slice())?)),
            Value::Binary { subtype, bytes } => Ok(Value::Binary {
                subtype: *subtype,
                bytes: bytes.copy(alloc)?,
            }),
            Value::Undefined => Ok(Value::Undefined),
            Value::Oid(id) => Ok(Value::Oid(*id)),
            Value::Bool(b) => Ok(Value::Bool(*b)),
            Value::Date(n) => Ok(Value::Date(*n)),
            Value::Null => Ok(Value::Null),
            Value::Regex { pattern, options } => Ok(Value::Regex {
                pattern: pattern.copy(alloc)?,
                options: options.copy(alloc)?,
            }),
            Value::DbPointer { ns, id } => Ok(Value::DbPointer {
                ns: ns.copy(alloc)?,
                id: *id,
            }),
            Value::Code(text) => Ok(Value::Code(text.copy(alloc)?)),
            Value::Symbol(text) => Ok(Value::Symbol(text.copy(alloc)?)),
            Value::ScopedCode { code, scope } => Ok(Value::ScopedCode {
                code: code.copy(alloc)?,
                scope: scope.copy(alloc)?,
            }),
            Value::Int(n) => Ok(Value::Int(*n)),
            Value::Stamp(ts) => Ok(Value::Stamp(*ts)),
            Value::Long(n) => Ok(Value::Long(*n)),
            Value::Decimal(d) => Ok(Value::Decimal(*d)),
            Value::MinKey => Ok(Value::MinKey),
            Value::MaxKey => Ok(Value::MaxKey),
        }
    }
}

#[cycle(copy)]
fn copy_items(alloc: Global, items: &[Value]) -> Result<List<Value>, AllocError>
    ensures { IfOk result (λ list. list ≡ items.now) }
{
    let mut list = List::with_capacity(alloc, items.len())?;
    for item in items {
        list.push(item.copy(alloc)?)?;
    }
    Ok(list)
}

impl Fields<Value> {
    /// An equal document.
    #[cycle(copy)]
    pub fn copy(&self, alloc: Global) -> Result<Doc, AllocError>
        ensures { IfOk result (λ doc. doc ≡ self.now) }
    {
        let mut entries = Vec::with_capacity(alloc, self.len())?;
        for entry in self.entries() {
            entries.push(copy_entry(alloc, entry)?)?;
        }
        Ok(Fields::of_distinct(entries))
    }
}

#[cycle(copy)]
fn copy_entry(alloc: Global, entry: &(CText, Value)) -> Result<(CText, Value), AllocError>
    ensures { IfOk result (λ copy. copy ≡ entry.now) }
{
    let name = entry.0.copy(alloc)?;
    let value = entry.1.copy(alloc)?;
    Ok((name, value))
}
