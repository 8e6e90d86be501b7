//! Writing a prelude.
ghost use Rattle.std.specs.Prelude.{◌≡◌, ◌<◌, ◌≤◌, ◌++◌, ◌∷◌, [], Contains, OnOk, OnErr, IfOk, IsErrOf, flat_map, map};
ghost use Rattle.std.specs.Io.KnownBytes.{Appends};
ghost use Rattle.containers.specs.Entries.{IsAbsent, names_of};
ghost use Rattle.tool_io.specs.Causes.{Rose, AppendsFront};
ghost use Rattle.archive_format.specs.Written.{header_text, meta_text, prelude_text};
ghost use Rattle.archive_prelude.specs.Parts.{header_of_prelude, metadata_of, PreludeFits};

use crate::prelude::{Meta, Prelude};
use archive_format::{MAGIC, TERMINATOR};
use bson_encode::encode;
use bson_value::{Bytes, CText, Doc, Text, Value};
use std::alloc::{AllocError, Global};
use tool_io::{Fault, Sink};

fn add(alloc: Global, doc: &mut Doc, name: &str, value: Value) -> Result<(), AllocError>
    requires no_zero { Contains name.now 0 → ⊥ }
    requires absent { IsAbsent name.now (names_of doc.old) }
    ensures { OnOk result (doc.new ≡ doc.old ++ (name.now, value) ∷ []) }
{
    let name = CText::of_text(alloc, name)?;
    doc.add(name, value)
}

fn add_text(alloc: Global, doc: &mut Doc, name: &str, text: &str) -> Result<(), AllocError>
    requires no_zero { Contains name.now 0 → ⊥ }
    requires absent { IsAbsent name.now (names_of doc.old) }
    ensures { OnOk result (doc.new ≡ doc.old ++ (name.now, Value.Str text.now) ∷ []) }
{
    let text = Text::of(alloc, text)?;
    add(alloc, doc, name, Value::Str(text))
}

#[tactic(auto, unfolding(archive_format::specs::Written::header_text))]
fn header(alloc: Global, prelude: &Prelude) -> Result<Bytes, AllocError>
    ensures { IfOk result (λ b. b ≡ header_text (header_of_prelude prelude.now)) }
{
    let mut doc = Doc::new(alloc);
    add(
        alloc,
        &mut doc,
        "concurrent_collections",
        Value::Int(prelude.concurrent),
    )?;
    add_text(alloc, &mut doc, "version", "0.1")?;
    add_text(alloc, &mut doc, "server_version", prelude.server.as_str())?;
    add_text(alloc, &mut doc, "tool_version", prelude.tool.as_str())?;
    encode(alloc, &doc)
}

#[tactic(auto, unfolding(archive_format::specs::Written::meta_text))]
fn metadata(alloc: Global, meta: &Meta) -> Result<Bytes, AllocError>
    ensures { IfOk result (λ b. b ≡ meta_text (metadata_of meta.now)) }
{
    let mut doc = Doc::new(alloc);
    add_text(alloc, &mut doc, "db", meta.ns.db.as_str())?;
    add_text(alloc, &mut doc, "collection", meta.ns.coll.as_str())?;
    add_text(alloc, &mut doc, "metadata", meta.text.as_str())?;
    add(alloc, &mut doc, "size", Value::Int(0))?;
    add_text(alloc, &mut doc, "type", "collection")?;
    encode(alloc, &doc)
}

// The metadata documents one after the other.
fn write_metas<K: Sink>(alloc: Global, metas: &[Meta], sink: &mut K) -> Result<(), Fault>
    ensures ok { OnOk result (Appends (K.end sink.old).bytes (K.end sink.new).bytes (flat_map (λ m. meta_text (metadata_of m)) metas.now)) }
    ensures err { OnErr result (AppendsFront (K.end sink.old).bytes (K.end sink.new).bytes (flat_map (λ m. meta_text (metadata_of m)) metas.now)) }
    ensures later { (K.end sink.old).faults ≤ (K.end sink.new).faults }
    ensures failed { IsErrOf result Fault.Failed → Rose (K.end sink.old).faults (K.end sink.new).faults }
{
    for meta in metas {
        let bytes = metadata(alloc, meta)?;
        sink.write(bytes.as_slice())?;
    }
    Ok(())
}

/// Writes the magic number, the header, the metadata documents, and a terminator. Magic number and header are one write,
/// and so is each document and the terminator. Behind an error some front of it was written.
pub fn write<K: Sink>(alloc: Global, prelude: &Prelude, sink: &mut K) -> Result<(), Fault>
    requires { PreludeFits prelude.now }
    ensures ok { OnOk result (Appends (K.end sink.old).bytes (K.end sink.new).bytes (prelude_text (header_of_prelude prelude.now) (map metadata_of prelude.now.metas))) }
    ensures err { OnErr result (AppendsFront (K.end sink.old).bytes (K.end sink.new).bytes (prelude_text (header_of_prelude prelude.now) (map metadata_of prelude.now.metas))) }
    ensures later { (K.end sink.old).faults ≤ (K.end sink.new).faults }
    ensures failed { IsErrOf result Fault.Failed → Rose (K.end sink.old).faults (K.end sink.new).faults }
{
    let mut front = Bytes::of(alloc, &MAGIC)?;
    front.extend_from_slice(header(alloc, prelude)?.as_slice())?;
    sink.write(front.as_slice())?;
    write_metas(alloc, prelude.metas.as_slice(), sink)?;
    sink.write(&TERMINATOR)
}
