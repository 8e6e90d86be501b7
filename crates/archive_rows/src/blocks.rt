//! Checksums, headers of blocks, and blocks of the namespace `a.b`.
ghost use Rattle.std.specs.Prelude.{◌≡◌, ℕ, List, [], ◌∷◌, Ok, IfOk, false, string_bytes};
ghost use Rattle.std.specs.Fmt.{radix_digits};
ghost use Rattle.hex.specs.Hex.{decode_of};
ghost use Rattle.row_script.specs.Rows.{behind_blank};
ghost use Rattle.archive_format.specs.Archive.{fields_of};
ghost use Rattle.archive_format.specs.Crc.{crc_of};
ghost use Rattle.archive_format.specs.Shapes.{ShapeFault, named};
ghost use Rattle.archive_format.specs.Written.{begun};
ghost use Rattle.archive_blocks.specs.Heads.{IsHeadFault};
ghost use Rattle.archive_rows.specs.Rows.{AreDocuments, TellsWritten, Writes, crc_text, head_answer_in, head_line, namespace_text, own_namespace, shape_word};

use crate::texts::{failing, own_namespace, written};
use anyhow::Result;
use archive_blocks::{BlockWriter, Crc, HeadFault, NsHead, read_ns_head};
use bson_check::{MAX_DOCUMENT_BYTES, check};
use bson_value::{Bytes, List};
use row_script::{answer, bytes, words};
use std::alloc::{AllocError, Global};
use tool_io::{Fault, MemSink};

#[tactic(auto, unfolding(archive_format::specs::Crc::crc_of))]
fn sum_text(alloc: Global, bytes: &[u8]) -> Result<String, AllocError>
    ensures { IfOk result (λ text. string_bytes text ≡ radix_digits 16 false (crc_of bytes.now)) }
{
    let mut crc = Crc::new();
    crc.add(bytes);
    let sum = crc.sum();
    format!(in alloc; "{sum:x}")
}

/// The checksum of bytes.
pub fn sum(alloc: Global, text: &str) -> Result<String>
    ensures { IfOk result (λ answer. (bytes : List ℕ) × (decode_of text.now ≡ Ok bytes) × (string_bytes answer ≡ radix_digits 16 false (crc_of bytes))) }
{
    let bytes = bytes(alloc, text)?;
    Ok(sum_text(alloc, &bytes)?)
}

fn crc_text(alloc: Global, crc: Option<i64>) -> Result<String, AllocError>
    ensures { IfOk result (λ text. string_bytes text ≡ crc_text crc) }
{
    match crc {
        Some(crc) => format!(in alloc; "{crc}"),
        None => String::from_str(alloc, "none"),
    }
}

// What a header says.
fn head_line(alloc: Global, head: NsHead<'_>) -> Result<String, AllocError>
    ensures { IfOk result (λ text. string_bytes text
        ≡ head_line (record { ns = named head.entry.db.now head.entry.coll.now; eof = head.entry.eof; crc = head.entry.crc })) }
{
    let crc = crc_text(alloc, head.crc)?;
    format!(in alloc; "{}.{} {} {crc}", head.db, head.coll, head.eof)
}

// Why a document is no header, in a word.
fn shape_word(fault: HeadFault) -> &'static str
    ensures { (shape : ShapeFault) → IsHeadFault fault (Some shape) → result.now ≡ shape_word shape }
{
    match fault {
        HeadFault::MissingField => "MissingField",
        HeadFault::WrongType => "WrongType",
        HeadFault::BadNs => "BadNs",
    }
}

// The header that a document is, or its first fault.
#[tactic(auto, unfolding(archive_format::specs::Archive::fault_in, archive_format::specs::Archive::fields_of, bson_check::specs::Faults::first_fault))]
fn head_text(alloc: Global, bytes: &[u8]) -> Result<String, AllocError>
    ensures { IfOk result (λ answer. string_bytes answer ≡ head_answer_in (fields_of bytes.now)) }
{
    match check(bytes, MAX_DOCUMENT_BYTES, 200) {
        Err(_) => String::from_str(alloc, "no document"),
        Ok(()) => match read_ns_head(bytes) {
            Ok(head) => head_line(alloc, head),
            Err(fault) => String::from_str(alloc, shape_word(fault)),
        },
    }
}

/// The header of a block.
pub fn head(alloc: Global, text: &str) -> Result<String>
    ensures { IfOk result (λ answer. (bytes : List ℕ) × (decode_of text.now ≡ Ok bytes) × (string_bytes answer ≡ head_answer_in (fields_of bytes))) }
{
    let bytes = bytes(alloc, text)?;
    Ok(head_text(alloc, &bytes)?)
}

fn writer(alloc: Global) -> Result<BlockWriter, AllocError>
    ensures { IfOk result (λ writer. writer ≡ begun own_namespace) }
{
    let ns = own_namespace(alloc)?;
    Ok(BlockWriter::new(alloc, ns))
}

// The block of the documents, and the end behind it.
fn write(alloc: Global, docs: &List<Bytes>, sink: &mut MemSink) -> Result<Result<(), Fault>>
    ensures { IfOk result (λ answer. Writes answer sink.old.written sink.new.written (namespace_text docs.now)) }
{
    let mut writer = writer(alloc)?;
    match writer.block(docs, sink) {
        Ok(()) => Ok(writer.end(sink)),
        Err(fault) => Ok(Err(fault)),
    }
}

fn list_of(alloc: Global, doc: Bytes) -> Result<List<Bytes>, AllocError>
    ensures { IfOk result (λ docs. docs ≡ doc ∷ []) }
{
    let mut docs = List::new(alloc);
    docs.push(doc)?;
    Ok(docs)
}

// The document, or none of an empty text.
fn documents(alloc: Global, text: &str) -> Result<List<Bytes>>
    ensures { IfOk result (λ docs. AreDocuments text.now docs) }
{
    if text.is_empty() {
        return Ok(List::new(alloc));
    }
    let bytes = bytes(alloc, text)?;
    Ok(list_of(alloc, Bytes::from_vec(bytes))?)
}

// What is written of the documents where these calls of the sink fail.
fn written_blocks(alloc: Global, docs: &List<Bytes>, fails: &str) -> Result<String>
    ensures { IfOk result (λ answer. TellsWritten (namespace_text docs.now) (string_bytes answer)) }
{
    let mut sink = failing(alloc, fails)?;
    let answer = write(alloc, docs, &mut sink)?;
    written(alloc, answer, &sink)
}

/// A block of the document, or of none, and the end behind it, where these calls of the sink fail.
pub fn blocks(alloc: Global, text: &str) -> Result<String>
    ensures { IfOk result (λ answer. (docs : List (List ℕ)) × AreDocuments (behind_blank text.now) docs × TellsWritten (namespace_text docs) (string_bytes answer)) }
{
    let (fails, docs) = words(text)?;
    let docs = documents(alloc, docs)?;
    written_blocks(alloc, &docs, fails)
}
