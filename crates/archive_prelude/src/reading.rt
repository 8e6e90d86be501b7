//! Reading the documents of a prelude.
ghost use Rattle.std.specs.Prelude.{◌≡◌, ◌⊎◌, Ok, None, OnOk, IfOk, IfErr};
ghost use Rattle.archive_format.specs.Shapes.{header_fault, meta_fault, meta_of, field, string_of, int_of};
ghost use Rattle.archive_prelude.specs.Faults.{IsPreludeFault, ReadsPart};
ghost use Rattle.archive_prelude.specs.Parts.{metadata_of};

use crate::fault::PreludeFault;
use crate::prelude::Meta;
use archive_format::is_namespace;
use bson_value::{Doc, NsName, Text, Value};
use std::alloc::Global;

fn missing(alloc: Global, name: &str) -> PreludeFault
    ensures { (result ≡ PreludeFault.NoMemory) ⊎ (result ≡ PreludeFault.MissingField name.now) }
{
    match Text::of(alloc, name) {
        Ok(name) => PreludeFault::MissingField(name),
        Err(_) => PreludeFault::NoMemory,
    }
}

fn wrong_type(alloc: Global, name: &str) -> PreludeFault
    ensures { (result ≡ PreludeFault.NoMemory) ⊎ (result ≡ PreludeFault.WrongType name.now) }
{
    match Text::of(alloc, name) {
        Ok(name) => PreludeFault::WrongType(name),
        Err(_) => PreludeFault::NoMemory,
    }
}

fn string<'a>(alloc: Global, doc: &'a Doc, name: &str) -> Result<&'a str, PreludeFault>
    ensures { ReadsPart (λ t. t.now) result (field string_of name.now doc.now) }
{
    match doc.get(name) {
        None => Err(missing(alloc, name)),
        Some(Value::Str(text)) => Ok(text.as_str()),
        Some(_) => Err(wrong_type(alloc, name)),
    }
}

fn int(alloc: Global, doc: &Doc, name: &str) -> Result<i32, PreludeFault>
    ensures { ReadsPart (λ z. z) result (field int_of name.now doc.now) }
{
    match doc.get(name) {
        None => Err(missing(alloc, name)),
        Some(Value::Int(number)) => Ok(*number),
        Some(_) => Err(wrong_type(alloc, name)),
    }
}

/// Whether the document is the header of an archive of version 0.1. Other fields are passed over.
pub fn read_header(alloc: Global, doc: &Doc) -> Result<(), PreludeFault>
    ensures ok { OnOk result (header_fault doc.now ≡ None) }
    ensures err { IfErr result (λ f. IsPreludeFault f (header_fault doc.now)) }
{
    int(alloc, doc, "concurrent_collections")?;
    let version = string(alloc, doc, "version")?;
    string(alloc, doc, "server_version")?;
    string(alloc, doc, "tool_version")?;
    if version != "0.1" {
        return Err(PreludeFault::Version(Text::of(alloc, version)?));
    }
    Ok(())
}

/// The namespace and the text of a metadata document, that of the oplog too. Other fields are passed over.
pub fn read_meta(alloc: Global, doc: &Doc) -> Result<Meta, PreludeFault>
    ensures ok { IfOk result (λ m. meta_of doc.now ≡ Ok (metadata_of m)) }
    ensures err { IfErr result (λ f. IsPreludeFault f (meta_fault doc.now)) }
{
    let db = string(alloc, doc, "db")?;
    let coll = string(alloc, doc, "collection")?;
    let text = string(alloc, doc, "metadata")?;
    if !is_namespace(db, coll) {
        return Err(PreludeFault::BadNs);
    }
    let ns = NsName {
        db: Text::of(alloc, db)?,
        coll: Text::of(alloc, coll)?,
    };
    let text = Text::of(alloc, text)?;
    Ok(Meta { ns, text })
}
