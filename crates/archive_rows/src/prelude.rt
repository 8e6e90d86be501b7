//! Preludes of the versions 0.0.0, and their documents.
ghost use Rattle.std.specs.Prelude.{◌≡◌, [], ◌∷◌, ◌++◌, Option, Ok, IfOk, OnOk, codes, string_bytes};
ghost use Rattle.row_script.specs.Documents.{Document};
ghost use Rattle.row_script.specs.Names.{ns_text};
ghost use Rattle.row_script.specs.Rows.{before_blank};
ghost use Rattle.row_script.specs.Spellings.{Write};
ghost use Rattle.archive_format.specs.Shapes.{ShapeFault, header_fault, meta_of};
ghost use Rattle.archive_format.specs.Written.{prelude_text};
ghost use Rattle.archive_prelude.specs.Faults.{IsPreludeFault};
ghost use Rattle.archive_rows.specs.Rows.{TellsWritten, Writes, meta_answer, metas_named, own_header, own_metadata, own_namespace, prelude_over, shape_answer};

use crate::texts::{failing, own_namespace, written};
use anyhow::Result;
use archive_prelude::{Meta, Prelude, PreludeFault, read_header, read_meta, write};
use bson_value::{Doc, List, NsName, Text};
use row_script::{answer, spellings, words};
use std::alloc::{AllocError, Global};
use tool_io::{Fault, MemSink};

// The prelude without metadata.
fn bare(alloc: Global) -> Result<Prelude, AllocError>
    ensures { IfOk result (λ prelude. prelude ≡ prelude_over []) }
{
    let server = Text::of(alloc, "0.0.0")?;
    let tool = Text::of(alloc, "0.0.0")?;
    Ok(Prelude {
        concurrent: 1,
        server,
        tool,
        metas: List::new(alloc),
    })
}

// The metadata of `a.b`.
fn own_metadata(alloc: Global) -> Result<Meta, AllocError>
    ensures { IfOk result (λ meta. meta ≡ own_metadata) }
{
    let ns = own_namespace(alloc)?;
    let text = Text::of(alloc, "{}")?;
    Ok(Meta { ns, text })
}

fn with_metadata(alloc: Global) -> Result<Prelude, AllocError>
    ensures { IfOk result (λ prelude. prelude ≡ prelude_over (own_metadata ∷ [])) }
{
    let mut prelude = bare(alloc)?;
    let meta = own_metadata(alloc)?;
    prelude.metas.push(meta)?;
    Ok(prelude)
}

fn write_bare(alloc: Global, sink: &mut MemSink) -> Result<Result<(), Fault>>
    ensures { IfOk result (λ answer. Writes answer sink.old.written sink.new.written (prelude_text own_header [])) }
{
    let prelude = bare(alloc)?;
    Ok(write(alloc, &prelude, sink))
}

fn write_with_metadata(alloc: Global, sink: &mut MemSink) -> Result<Result<(), Fault>>
    ensures { IfOk result (λ answer. Writes answer sink.old.written sink.new.written (prelude_text own_header (record { ns = own_namespace; text = codes "{}" } ∷ []))) }
{
    let prelude = with_metadata(alloc)?;
    Ok(write(alloc, &prelude, sink))
}

// A prelude without metadata, or with them.
fn write_named(alloc: Global, name: &str, sink: &mut MemSink) -> Result<Result<(), Fault>>
    ensures { IfOk result (λ answer. Writes answer sink.old.written sink.new.written (prelude_text own_header (metas_named name.now))) }
{
    if name == "bare" {
        write_bare(alloc, sink)
    } else {
        write_with_metadata(alloc, sink)
    }
}

/// A prelude without metadata, or with those of `a.b` and the text `{}`, where these calls of the sink fail.
pub fn prelude(alloc: Global, text: &str) -> Result<String>
    ensures { IfOk result (λ answer. TellsWritten (prelude_text own_header (metas_named (before_blank text.now))) (string_bytes answer)) }
{
    let (metadata, fails) = words(text)?;
    let mut sink = failing(alloc, fails)?;
    let answer = write_named(alloc, metadata, &mut sink)?;
    written(alloc, answer, &sink)
}

// Why a document has another shape.
fn fault_text(alloc: Global, fault: &PreludeFault) -> Result<String>
    ensures told { IfOk result (λ answer. (shape : Option ShapeFault) → IsPreludeFault fault.now shape → string_bytes answer ≡ shape_answer shape) }
    ensures memory { OnOk result (fault.now ≡ PreludeFault.NoMemory → ⊥) }
{
    match fault {
        PreludeFault::MissingField(name) => {
            Ok(format!(in alloc; "MissingField {}", name.as_str())?)
        }
        PreludeFault::WrongType(name) => Ok(format!(in alloc; "WrongType {}", name.as_str())?),
        PreludeFault::Version(version) => Ok(format!(in alloc; "Version {}", version.as_str())?),
        PreludeFault::BadNs => answer(alloc, "BadNs"),
        PreludeFault::NoMemory => Err(AllocError)?,
    }
}

fn header_of(alloc: Global, doc: &Doc) -> Result<String>
    ensures { IfOk result (λ answer. string_bytes answer ≡ shape_answer (header_fault doc.now)) }
{
    match read_header(alloc, doc) {
        Ok(()) => answer(alloc, "ok"),
        Err(fault) => fault_text(alloc, &fault),
    }
}

/// Whether a document is a header, or its first fault.
pub fn header(alloc: Global, text: &str) -> Result<String>
    ensures { IfOk result (λ answer. (doc : Document) × Write text.now doc × (string_bytes answer ≡ shape_answer (header_fault doc))) }
{
    let doc = spellings::written(alloc, text)?;
    header_of(alloc, &doc)
}

fn meta_text(alloc: Global, ns: &NsName, text: &Text) -> Result<String>
    ensures { IfOk result (λ answer. string_bytes answer ≡ ns_text ns.now ++ codes " " ++ text.now) }
{
    Ok(format!(in alloc; "{}.{} {}", ns.db.as_str(), ns.coll.as_str(), text.as_str())?)
}

fn metadata_of(alloc: Global, doc: &Doc) -> Result<String>
    ensures { IfOk result (λ answer. string_bytes answer ≡ meta_answer (meta_of doc.now)) }
{
    match read_meta(alloc, doc) {
        Ok(meta) => meta_text(alloc, &meta.ns, &meta.text),
        Err(fault) => fault_text(alloc, &fault),
    }
}

/// The metadata that a document is, or its first fault.
pub fn metadata(alloc: Global, text: &str) -> Result<String>
    ensures { IfOk result (λ answer. (doc : Document) × Write text.now doc × (string_bytes answer ≡ meta_answer (meta_of doc))) }
{
    let doc = spellings::written(alloc, text)?;
    metadata_of(alloc, &doc)
}
