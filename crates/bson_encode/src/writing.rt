//! Documents as bytes.
ghost use Rattle.std.specs.Prelude.{◌≡◌, ◌+◌, ◌-◌, ◌<◌, ◌≤◌, ◌^◌, true, ◌++◌, ◌∷◌, [], ℕ, length, take, drop, OnOk, OnErr, IfOk, map};
ghost use Rattle.std.specs.Str.{is_utf8};
ghost use Rattle.std.specs.List.{AllByRecursion};
ghost use Rattle.bson_check.specs.Spells.{IsName, Spells};
ghost use Rattle.bson_encode.specs.Key.{key_of};
ghost use Rattle.bson_value.specs.WellFormed.{AreBytes, IsWellFormed, AreWellFormedItems, AreWellFormedFields, IsWellFormedDocument};
ghost use Rattle.bson_value.specs.Spelling.{spelling, tag_of, spelled, typed_fields, numbered, counted, text_bytes, elements_of, items_of, element, count_bytes, framed, document_text};

use bson_value::{Bytes, CText, Doc, Text, Value, type_byte};
use itoa::Buffer;
use std::alloc::{AllocError, Global};

// Writes the count of the bytes from `start` on, there.
fn patch(out: &mut Vec<u8>, start: usize)
    requires { start + 4 ≤ length out.old.items }
    ensures { out.new.items ≡ take start out.old.items ++ count_bytes (length out.old.items - start) ++ drop (start + 4) out.old.items }
{
    let count = ((out.len() - start) % 4294967296) as u32;
    out[start..start + 4].copy_from_slice(&count.to_le_bytes());
}

fn text_of(text: &Text) -> &str
    ensures value { result.now ≡ text.now }
    ensures utf8 { is_utf8 text.now ≡ true }
{
    text.as_str()
}

pub(crate) fn name_of(name: &CText) -> &str
    ensures value { result.now ≡ name.now }
    ensures name { IsName name.now }
{
    name.as_str()
}

fn put_text(out: &mut Vec<u8>, text: &Text) -> Result<(), AllocError>
    ensures bytes { OnOk result (out.new.items ≡ out.old.items ++ text_bytes text.now) }
    ensures utf8 { is_utf8 text.now ≡ true }
{
    let text = text_of(text);
    let count = ((text.len() as u64 + 1) % 4294967296) as u32;
    out.extend_from_slice(&count.to_le_bytes())?;
    out.extend_from_slice(text.as_bytes())?;
    out.push(0)?;
    Ok(())
}

fn put_name(out: &mut Vec<u8>, name: &CText) -> Result<(), AllocError>
    ensures bytes { OnOk result (out.new.items ≡ out.old.items ++ name.now ++ 0 ∷ []) }
    ensures name { IsName name.now }
{
    let name = name_of(name);
    out.extend_from_slice(name.as_bytes())?;
    out.push(0)?;
    Ok(())
}

fn put_run(out: &mut Vec<u8>, run: &[u8]) -> Result<(), AllocError>
    ensures bytes { OnOk result (out.new.items ≡ out.old.items ++ run.now) }
    ensures are_bytes { AreBytes run.now }
{
    out.extend_from_slice(run)?;
    Ok(())
}

fn put_binary(out: &mut Vec<u8>, subtype: u8, bytes: &[u8]) -> Result<(), AllocError>
    ensures are_bytes { AreBytes bytes.now }
    ensures bytes { OnOk result (out.new.items ≡ out.old.items ++ count_bytes (length bytes.now) ++ subtype ∷ bytes.now) }
{
    let count = (bytes.len() as u64 % 4294967296) as u32;
    out.extend_from_slice(&count.to_le_bytes())?;
    out.push(subtype)?;
    out.extend_from_slice(bytes)?;
    Ok(())
}

/// The byte of the value's type.
pub fn type_of(value: &Value) -> u8
    ensures { result ≡ tag_of value.now }
{
    match value {
        Value::Double(_) => type_byte::DOUBLE,
        Value::Str(_) => type_byte::STRING,
        Value::Object(_) => type_byte::DOCUMENT,
        Value::Array(_) => type_byte::ARRAY,
        Value::Binary { .. } => type_byte::BINARY,
        Value::Undefined => type_byte::UNDEFINED,
        Value::Oid(_) => type_byte::OBJECT_ID,
        Value::Bool(_) => type_byte::BOOLEAN,
        Value::Date(_) => type_byte::DATE,
        Value::Null => type_byte::NULL,
        Value::Regex { .. } => type_byte::REGEX,
        Value::DbPointer { .. } => type_byte::DB_POINTER,
        Value::Code(_) => type_byte::CODE,
        Value::Symbol(_) => type_byte::SYMBOL,
        Value::ScopedCode { .. } => type_byte::SCOPED_CODE,
        Value::Int(_) => type_byte::INT32,
        Value::Stamp(_) => type_byte::TIMESTAMP,
        Value::Long(_) => type_byte::INT64,
        Value::Decimal(_) => type_byte::DECIMAL128,
        Value::MinKey => type_byte::MIN_KEY,
        Value::MaxKey => type_byte::MAX_KEY,
    }
}

#[tactic(auto, using(bson_value::proofs::WellFormed::well_formed))]
#[cycle(encode)]
fn put_value(out: &mut Vec<u8>, value: &Value) -> Result<(), AllocError>
    ensures bytes { OnOk result (out.new.items ≡ out.old.items ++ spelled value.now) }
    ensures well_formed { OnOk result (IsWellFormed value.now) }
{
    match value {
        Value::Double(d) => put_run(out, d),
        Value::Str(text) => put_text(out, text),
        Value::Object(doc) => put_document(out, doc),
        Value::Array(items) => put_array(out, items.as_slice()),
        Value::Binary { subtype, bytes } => put_binary(out, *subtype, bytes.as_slice()),
        Value::Undefined => Ok(()),
        Value::Oid(id) => put_run(out, id),
        Value::Bool(b) => {
            out.push(if *b { 1 } else { 0 })?;
            Ok(())
        }
        Value::Date(n) => {
            out.extend_from_slice(&n.to_le_bytes())?;
            Ok(())
        }
        Value::Null => Ok(()),
        Value::Regex { pattern, options } => {
            put_name(out, pattern.text())?;
            put_name(out, options.text())
        }
        Value::DbPointer { ns, id } => {
            put_text(out, ns.text())?;
            put_run(out, id)
        }
        Value::Code(text) => put_text(out, text),
        Value::Symbol(text) => put_text(out, text),
        Value::ScopedCode { code, scope } => put_scoped(out, code.text(), scope),
        Value::Int(n) => {
            out.extend_from_slice(&n.to_le_bytes())?;
            Ok(())
        }
        Value::Stamp(ts) => {
            out.extend_from_slice(&ts.inc.to_le_bytes())?;
            out.extend_from_slice(&ts.secs.to_le_bytes())?;
            Ok(())
        }
        Value::Long(n) => {
            out.extend_from_slice(&n.to_le_bytes())?;
            Ok(())
        }
        Value::Decimal(d) => put_run(out, d),
        Value::MinKey => Ok(()),
        Value::MaxKey => Ok(()),
    }
}

#[cycle(encode)]
fn put_scoped(out: &mut Vec<u8>, code: &Text, scope: &Doc) -> Result<(), AllocError>
    ensures bytes { OnOk result (out.new.items ≡ out.old.items ++ counted (text_bytes code.now ++ document_text scope.now)) }
    ensures well_formed { OnOk result ((is_utf8 code.now ≡ true) × IsWellFormedDocument scope.now) }
{
    let start = out.len();
    out.extend_from_slice(&[0, 0, 0, 0])?;
    put_text(out, code)?;
    put_document(out, scope)?;
    patch(out, start);
    Ok(())
}

#[cycle(encode)]
fn put_document(out: &mut Vec<u8>, doc: &Doc) -> Result<(), AllocError>
    ensures bytes { OnOk result (out.new.items ≡ out.old.items ++ document_text doc.now) }
    ensures well_formed { OnOk result (IsWellFormedDocument doc.now) }
{
    let start = out.len();
    out.extend_from_slice(&[0, 0, 0, 0])?;
    put_fields(out, doc.entries())?;
    out.push(0)?;
    patch(out, start);
    Ok(())
}

#[cycle(encode)]
fn put_array(out: &mut Vec<u8>, items: &[Value]) -> Result<(), AllocError>
    ensures bytes { OnOk result (out.new.items ≡ out.old.items ++ framed (items_of items.now)) }
    ensures well_formed { OnOk result (AreWellFormedItems items.now) }
{
    let start = out.len();
    out.extend_from_slice(&[0, 0, 0, 0])?;
    put_items(out, items)?;
    out.push(0)?;
    patch(out, start);
    Ok(())
}

#[cycle(encode)]
fn put_fields(out: &mut Vec<u8>, fields: &[(CText, Value)]) -> Result<(), AllocError>
    ensures bytes { OnOk result (out.new.items ≡ out.old.items ++ elements_of fields.now) }
    ensures well_formed { OnOk result (AllByRecursion (λ e. IsName e.0) fields.now × AreWellFormedFields fields.now) }
{
    for field in fields {
        put_field(out, field)?;
    }
    Ok(())
}

#[cycle(encode)]
fn put_field(out: &mut Vec<u8>, field: &(CText, Value)) -> Result<(), AllocError>
    ensures bytes { OnOk result (out.new.items ≡ out.old.items ++ element (field.now.0, spelling field.now.1)) }
    ensures well_formed { OnOk result (IsName field.now.0 × IsWellFormed field.now.1) }
{
    let name = name_of(&field.0);
    put_element(out, name.as_bytes(), &field.1)
}

#[cycle(encode)]
fn put_items(out: &mut Vec<u8>, items: &[Value]) -> Result<(), AllocError>
    ensures bytes { OnOk result (out.new.items ≡ out.old.items ++ items_of items.now) }
    ensures well_formed { OnOk result (AreWellFormedItems items.now) }
{
    for i in 0..items.len() {
        let mut digits = Buffer::new();
        put_element(out, digits.format(i).as_bytes(), &items[i])?;
    }
    Ok(())
}

#[cycle(encode)]
fn put_element(out: &mut Vec<u8>, name: &[u8], value: &Value) -> Result<(), AllocError>
    ensures bytes { OnOk result (out.new.items ≡ out.old.items ++ element (name.now, spelling value.now)) }
    ensures well_formed { OnOk result (IsWellFormed value.now) }
{
    out.push(type_of(value))?;
    out.extend_from_slice(name)?;
    out.push(0)?;
    put_value(out, value)
}

fn whole(alloc: Global, doc: &Doc) -> Result<Bytes, AllocError>
    ensures bytes { IfOk result (λ bytes. bytes ≡ document_text doc.now) }
    ensures well_formed { OnOk result (IsWellFormedDocument doc.now) }
{
    let mut out = Vec::with_capacity(alloc, doc.spelling_len())?;
    put_document(&mut out, doc)?;
    Ok(Bytes::from_vec(out))
}

/// The spelling of the document, with array names "0", "1" and so on. A length is written modulo
/// 2 ^ 32, so a document of 2 ^ 31 bytes or more isn't read again. It asks for memory once.
pub fn encode(alloc: Global, doc: &Doc) -> Result<Bytes, AllocError>
    ensures bytes { IfOk result (λ bytes. bytes ≡ document_text doc.now) }
    ensures spells { IfOk result (λ bytes. length bytes < 2 ^ 31 → Spells bytes doc.now) }
{
    whole(alloc, doc)
}

/// Appends the spelling of the document, as `encode` makes it. It asks for memory once at most. After
/// an error a part of the spelling may stand behind what was there.
pub fn encode_into(out: &mut Vec<u8>, doc: &Doc) -> Result<(), AllocError>
    ensures { OnOk result (out.new.items ≡ out.old.items ++ document_text doc.now) }
{
    out.reserve(doc.spelling_len())?;
    put_document(out, doc)
}

/// Appends the key of an `_id`: its type byte and its spelling. It asks for memory once at most. After
/// an error a part of the key may stand behind what was there.
pub fn put_key(out: &mut Vec<u8>, id: &Value) -> Result<(), AllocError>
    ensures { OnOk result (out.new.items ≡ out.old.items ++ key_of id.now) }
{
    out.reserve(id.spelling_len().saturating_add(1))?;
    out.push(type_of(id))?;
    put_value(out, id)
}
