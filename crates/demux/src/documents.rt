//! The documents of an archive, read from their bytes.
ghost use Rattle.std.specs.Prelude.{◌≡◌, ⊤, List, Option, Some, None, Ok, IfOk, IfErr, OnOk, option_map, is_some};
ghost use Rattle.archive_format.specs.Shapes.{named};
ghost use Rattle.archive_format.specs.Archive.{header_in, metadata_in, head_in, fault_in, fields_of};
ghost use Rattle.archive_prelude.specs.Parts.{metadata_of};
ghost use Rattle.demux.specs.Steps.{IsUnread, Unread};

use crate::fault::DemuxFault;
use archive_blocks::{NsHead, read_ns_head};
use archive_format::FormatFault;
use archive_prelude::{Meta, PreludeFault, read_header, read_meta};
use bson_check::{BsonFault, DecodeFault, MAX_DOCUMENT_BYTES, MAX_LEVELS, check};
use bson_core::decode;
use bson_value::Doc;
use std::alloc::Global;

/// The bytes are a document.
#[tactic(auto, unfolding(archive_format::specs::Archive::fault_in, archive_format::specs::Archive::fields_of, bson_check::specs::Faults::first_fault))]
pub fn checked(at: u64, bytes: &[u8]) -> Result<(), FormatFault>
    ensures ok { OnOk result (fault_in bytes.now ≡ None) }
    ensures err { IfErr result (λ f. IsUnread f at (fault_in bytes.now)) }
{
    match check(bytes, MAX_DOCUMENT_BYTES, MAX_LEVELS) {
        Ok(()) => Ok(()),
        Err(fault) => Err(FormatFault::BadBson {
            at,
            kind: fault.kind,
        }),
    }
}

#[tactic(auto, unfolding(archive_format::specs::Archive::fault_in, archive_format::specs::Archive::fields_of, bson_check::specs::Faults::first_fault))]
fn decoded(alloc: Global, at: u64, bytes: &[u8]) -> Result<Doc, DemuxFault>
    ensures ok { IfOk result (λ doc. fields_of bytes.now ≡ Ok doc) }
    ensures err { IfErr result (λ f. Unread f at (fault_in bytes.now)) }
{
    match decode(alloc, bytes, MAX_DOCUMENT_BYTES, MAX_LEVELS) {
        Ok(doc) => Ok(doc),
        Err(DecodeFault::NoMemory) => Err(DemuxFault::NoMemory),
        Err(DecodeFault::Bad(fault)) => Err(DemuxFault::Format(FormatFault::BadBson {
            at,
            kind: fault.kind,
        })),
    }
}

/// Whether the bytes are a header.
#[tactic(auto, unfolding(archive_format::specs::Archive::fault_in, archive_format::specs::Archive::header_in))]
pub fn is_header(alloc: Global, at: u64, bytes: &[u8]) -> Result<bool, DemuxFault>
    ensures ok { IfOk result (λ b. (fault_in bytes.now ≡ None) × (is_some (header_in bytes.now) ≡ b)) }
    ensures err { IfErr result (λ f. Unread f at (fault_in bytes.now)) }
{
    let doc = decoded(alloc, at, bytes)?;
    match read_header(alloc, &doc) {
        Ok(()) => Ok(true),
        Err(PreludeFault::NoMemory) => Err(DemuxFault::NoMemory),
        Err(_) => Ok(false),
    }
}

/// The namespace and the text, if the bytes are metadata.
#[tactic(auto, unfolding(archive_format::specs::Archive::fault_in, archive_format::specs::Archive::metadata_in))]
pub fn metadata(alloc: Global, at: u64, bytes: &[u8]) -> Result<Option<Meta>, DemuxFault>
    ensures ok { IfOk result (λ o. (fault_in bytes.now ≡ None) × (metadata_in bytes.now ≡ option_map metadata_of o)) }
    ensures err { IfErr result (λ f. Unread f at (fault_in bytes.now)) }
{
    let doc = decoded(alloc, at, bytes)?;
    match read_meta(alloc, &doc) {
        Ok(meta) => Ok(Some(meta)),
        Err(PreludeFault::NoMemory) => Err(DemuxFault::NoMemory),
        Err(_) => Ok(None),
    }
}

/// What a block's header says, if the bytes are one. It takes no memory.
pub fn head(at: u64, bytes: &[u8]) -> Result<Option<NsHead<'_>>, FormatFault>
    ensures ok { IfOk result (λ o. (fault_in bytes.now ≡ None) × (head_in bytes.now ≡ option_map (λ h. record { ns = named h.db.now h.coll.now; eof = h.eof; crc = h.crc }) o)) }
    ensures err { IfErr result (λ f. IsUnread f at (fault_in bytes.now)) }
{
    checked(at, bytes)?;
    match read_ns_head(bytes) {
        Ok(head) => Ok(Some(head)),
        Err(_) => Ok(None),
    }
}
