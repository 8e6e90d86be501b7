//! The blocks of a namespace, written one after the other.
ghost use Rattle.std.specs.Prelude.{◌≡◌, ◌<◌, ◌≤◌, ◌++◌, ◌∷◌, [], Contains, OnOk, OnErr, IfOk, IsErrOf, pos, true, false};
ghost use Rattle.std.specs.Io.KnownBytes.{Appends};
ghost use Rattle.containers.specs.Entries.{IsAbsent, names_of};
ghost use Rattle.tool_io.specs.Causes.{Rose, AppendsFront};
ghost use Rattle.archive_format.specs.Crc.{crc_on};
ghost use Rattle.archive_format.specs.Written.{joined, head_text, block_text, end_text, begun, with_documents, HeadFits};

use crate::crc::Crc;
use archive_format::TERMINATOR;
use bson_encode::encode;
use bson_value::{Bytes, CText, Doc, List, NsName, Value};
use std::alloc::{AllocError, Global};
use std::marker::Model;
use tool_io::{Fault, Sink};

fn add(alloc: Global, doc: &mut Doc, name: &str, value: Value) -> Result<(), AllocError>
    requires no_zero { Contains name.now 0 → ⊥ }
    requires absent { IsAbsent name.now (names_of doc.old) }
    ensures { OnOk result (doc.new ≡ doc.old ++ (name.now, value) ∷ []) }
{
    let name = CText::of_text(alloc, name)?;
    doc.add(name, value)
}

// The header of a block, or of the namespace's end.
#[tactic(auto, unfolding(archive_format::specs::Written::head_text))]
fn head(alloc: Global, ns: &NsName, eof: bool, crc: i64) -> Result<Bytes, AllocError>
    ensures { IfOk result (λ b. b ≡ head_text ns.now eof crc) }
{
    let mut doc = Doc::new(alloc);
    add(alloc, &mut doc, "db", Value::Str(ns.db.copy(alloc)?))?;
    add(
        alloc,
        &mut doc,
        "collection",
        Value::Str(ns.coll.copy(alloc)?),
    )?;
    add(alloc, &mut doc, "EOF", Value::Bool(eof))?;
    add(alloc, &mut doc, "CRC", Value::Long(crc))?;
    encode(alloc, &doc)
}

// The documents one after the other. Their sum is taken.
fn write_all<K: Sink>(docs: &[Bytes], sum: &mut Crc, sink: &mut K) -> Result<(), Fault>
    ensures ok { OnOk result (Appends (K.end sink.old).bytes (K.end sink.new).bytes (joined docs.now)) }
    ensures err { OnErr result (AppendsFront (K.end sink.old).bytes (K.end sink.new).bytes (joined docs.now)) }
    ensures sum { OnOk result (sum.new ≡ crc_on sum.old (joined docs.now)) }
    ensures later { (K.end sink.old).faults ≤ (K.end sink.new).faults }
    ensures failed { IsErrOf result Fault.Failed → Rose (K.end sink.old).faults (K.end sink.new).faults }
{
    for doc in docs {
        sink.write(doc.as_slice())?;
        sum.add(doc.as_slice());
    }
    Ok(())
}

/// Writes the blocks of one namespace and its end. In contracts it is the namespace, and the sum of the documents that
/// were written so far.
#[derive(Drop)]
pub struct BlockWriter {
    alloc: Global,
    ns: NsName,
    sum: Crc,
}

impl Model for BlockWriter {
    ghost use Rattle.archive_format.specs.Crc.{crc_on};
    ghost use Rattle.archive_format.specs.Written.{Writing};

    ghost Value = { Writing };

    ghost view = { λ w. record { ns = w.ns; sum = w.sum } };
}

impl BlockWriter {
    /// A writer of this namespace's blocks. A header has at most 16,793,600 bytes, as every document of an archive.
    pub fn new(alloc: Global, ns: NsName) -> BlockWriter
        requires { HeadFits ns }
        ensures { result ≡ begun ns }
    {
        BlockWriter {
            alloc,
            ns,
            sum: Crc::new(),
        }
    }

    /// Writes a block: header, documents, terminator. Without documents nothing is written. Header, documents and
    /// terminator are writes of their own. Behind an error the writer is of no use: some front of the block was written.
    pub fn block<K: Sink>(&mut self, docs: &List<Bytes>, sink: &mut K) -> Result<(), Fault>
        ensures ok { OnOk result (Appends (K.end sink.old).bytes (K.end sink.new).bytes (block_text self.old.ns docs.now)) }
        ensures err { OnErr result (AppendsFront (K.end sink.old).bytes (K.end sink.new).bytes (block_text self.old.ns docs.now)) }
        ensures sum { OnOk result (self.new ≡ with_documents self.old docs.now) }
        ensures later { (K.end sink.old).faults ≤ (K.end sink.new).faults }
        ensures failed { IsErrOf result Fault.Failed → Rose (K.end sink.old).faults (K.end sink.new).faults }
    {
        if docs.is_empty() {
            return Ok(());
        }
        let head = head(self.alloc, &self.ns, false, 0)?;
        sink.write(head.as_slice())?;
        write_all(docs.as_slice(), &mut self.sum, sink)?;
        sink.write(&TERMINATOR)
    }

    /// Writes the end of the namespace, with the checksum of the documents of all its blocks, in one write. Behind an
    /// error some front of it was written.
    pub fn end<K: Sink>(&mut self, sink: &mut K) -> Result<(), Fault>
        ensures ok { OnOk result (Appends (K.end sink.old).bytes (K.end sink.new).bytes (end_text self.old.ns self.old.sum)) }
        ensures err { OnErr result (AppendsFront (K.end sink.old).bytes (K.end sink.new).bytes (end_text self.old.ns self.old.sum)) }
        ensures same { self.new ≡ self.old }
        ensures later { (K.end sink.old).faults ≤ (K.end sink.new).faults }
        ensures failed { IsErrOf result Fault.Failed → Rose (K.end sink.old).faults (K.end sink.new).faults }
    {
        let mut bytes = head(self.alloc, &self.ns, true, self.sum.sum().cast_signed())?;
        bytes.extend_from_slice(&TERMINATOR)?;
        sink.write(bytes.as_slice())
    }
}
