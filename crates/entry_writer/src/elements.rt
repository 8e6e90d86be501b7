//! Elements of documents, as bytes.
ghost use Rattle.std.specs.Prelude.{◌≡◌, ◌-◌, ◌≤◌, ◌∷◌, ◌++◌, [], length, take, drop, OnOk};
ghost use Rattle.bson_value.specs.declared.value.Value.{Object};
ghost use Rattle.bson_value.specs.Spelling.{spelling, element, elements_of, framed};
ghost use Rattle.entry_writer.specs.Elements.{opening, opening_array};

use bson_encode::{encode_into, put_key, type_of};
use bson_value::{CText, Doc, Value};
use std::alloc::AllocError;

/// Appends a field.
pub(crate) fn put_element(out: &mut Vec<u8>, name: &str, value: &Value) -> Result<(), AllocError>
    ensures { OnOk result (out.new.items ≡ out.old.items ++ element (name.now, spelling value.now)) }
{
    out.push(type_of(value))?;
    out.extend_from_slice(name.as_bytes())?;
    let end = out.len();
    // The value's key begins with a type byte, where the zero behind the name stands.
    put_key(out, value)?;
    out[end] = 0;
    Ok(())
}

/// Appends a field that is a document.
pub(crate) fn put_document(out: &mut Vec<u8>, name: &str, doc: &Doc) -> Result<(), AllocError>
    ensures { OnOk result (out.new.items ≡ out.old.items ++ elements_of ((name.now, Object doc.now) ∷ [])) }
{
    out.push(3)?;
    out.extend_from_slice(name.as_bytes())?;
    out.push(0)?;
    encode_into(out, doc)
}

/// Appends fields.
pub(crate) fn put_fields(out: &mut Vec<u8>, fields: &[(CText, Value)]) -> Result<(), AllocError>
    ensures { OnOk result (out.new.items ≡ out.old.items ++ elements_of fields.now) }
{
    for (name, value) in fields {
        put_element(out, name.as_str(), value)?;
    }
    Ok(())
}

/// Begins a field that is a document: its elements come next, and then `close`.
pub(crate) fn open(out: &mut Vec<u8>, name: &str) -> Result<(), AllocError>
    ensures { OnOk result (out.new.items ≡ out.old.items ++ opening name.now) }
{
    out.push(3)?;
    out.extend_from_slice(name.as_bytes())?;
    out.extend_from_slice(&[0, 0, 0, 0, 0])?;
    Ok(())
}

/// Begins a field that is an array: its elements come next, and then `close`.
pub(crate) fn open_array(out: &mut Vec<u8>, name: &str) -> Result<(), AllocError>
    ensures { OnOk result (out.new.items ≡ out.old.items ++ opening_array name.now) }
{
    out.push(4)?;
    out.extend_from_slice(name.as_bytes())?;
    out.extend_from_slice(&[0, 0, 0, 0, 0])?;
    Ok(())
}

/// Ends a document whose elements begin here. The four bytes before them are for its length.
pub(crate) fn close(out: &mut Vec<u8>, start: usize) -> Result<(), AllocError>
    requires room { 4 ≤ start }
    requires within { start ≤ length out.old.items }
    ensures { OnOk result (out.new.items ≡ take (start - 4) out.old.items ++ framed (drop start out.old.items)) }
{
    out.push(0)?;
    let count = ((out.len() - start + 4) as u64 % 4294967296) as u32;
    out[start - 4..start].copy_from_slice(&count.to_le_bytes());
    Ok(())
}
