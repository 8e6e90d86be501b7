//! Values and documents as JSON.
ghost use Rattle.std.specs.Prelude.{◌≡◌, ◌++◌, OnOk, string_bytes};
ghost use Rattle.row_script.specs.Jsons.{value_text};
ghost use Rattle.entry_rows.specs.Rows.{document_json};

use anyhow::Result;
use bson_value::{Doc, Value};
use row_script::jsons::shown;
use std::alloc::Global;

/// Writes a value as JSON.
pub fn put_value(alloc: Global, out: &mut String, value: &Value) -> Result<()>
    ensures { OnOk result (string_bytes out.new ≡ string_bytes out.old ++ value_text value.now) }
{
    let text = shown(alloc, value)?;
    Ok(out.push_str(text.as_str())?)
}

/// Writes a document as JSON.
pub fn put_document(alloc: Global, out: &mut String, doc: &Doc) -> Result<()>
    ensures { OnOk result (string_bytes out.new ≡ string_bytes out.old ++ document_json doc.now) }
{
    let copy = doc.copy(alloc)?;
    put_value(alloc, out, &Value::Object(copy))
}
