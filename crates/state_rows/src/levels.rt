//! Values of many levels.
use anyhow::Result;
use bson_value::{CText, Doc, Value};
use std::alloc::Global;

// A document with this value alone.
fn around(alloc: Global, value: Value) -> Result<Value> {
    let name = CText::of_text(alloc, "d")?;
    let mut doc = Doc::new(alloc);
    doc.set(name, value)?;
    Ok(Value::Object(doc))
}

/// So many documents, one in the other.
pub fn levels(alloc: Global, count: usize) -> Result<Value> {
    let mut value = Value::Null;
    for _ in 0..count {
        value = around(alloc, value)?;
    }
    Ok(value)
}
