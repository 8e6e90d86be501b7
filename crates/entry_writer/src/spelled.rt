//! Entries of one document that is given in its bytes.
ghost use Rattle.std.specs.Prelude.{◌≡◌, ◌∷◌, ◌++◌, [], ℕ, List, codes, pos, OnOk, IfOk};
ghost use Rattle.bson_value.specs.declared.value.Value.{Value as Datum, Long, Stamp};
ghost use Rattle.bson_value.specs.Spelling.{elements_of, document_text};
ghost use Rattle.doc_path.specs.declared.parts.Form.{Form};
ghost use Rattle.doc_path.specs.declared.touches.Touch.{Touch};
ghost use Rattle.entry_model.specs.declared.entry.Action.TheVariants.{Put, Whole, Delta};
ghost use Rattle.entry_model.specs.declared.entry.Entry.{Entry as Record};
ghost use Rattle.entry_model.specs.Spelling.{entry_fields, update_body, body_fields, level_limit};
ghost use Rattle.entry_model.specs.Touches.{written};
ghost use Rattle.entry_writer.specs.Bodies.{whole_fields};

use crate::body::put_update_head;
use crate::elements::close;
use crate::heading::{put_front, put_heading, put_wall};
use bson_value::{Bytes, NsName, Ts, Value};
use std::alloc::{AllocError, Global};

/// So many bytes an entry that puts a document has beside the document and the names of its namespace.
const PUT_LEN: usize = 76;

/// So many bytes an update has beside its document, the names of its namespace and the value of the `_id`.
const UPDATE_LEN: usize = 94;

/// The bytes with which an entry begins, the first four of which are for its length. There is memory for the names of its
/// namespace and so many bytes.
fn front(alloc: Global, ts: Ts, ns: &NsName, len: usize) -> Result<Vec<u8>, AllocError>
    ensures { IfOk result (λ out. out.items ≡ (0 ∷ 0 ∷ 0 ∷ 0 ∷ []) ++ elements_of ((codes "ts", Stamp ts) ∷ (codes "t", Long (pos 1)) ∷ (codes "v", Long (pos 2)) ∷ [])) }
{
    let names = ns.db.as_str().len().saturating_add(ns.coll.as_str().len());
    let mut out = Vec::with_capacity(alloc, len.saturating_add(names))?;
    out.extend_from_slice(&[0, 0, 0, 0])?;
    put_front(&mut out, ts)?;
    Ok(out)
}

/// Appends the document.
fn put_spelled(out: &mut Vec<u8>, doc: &[u8]) -> Result<(), AllocError>
    ensures { OnOk result (out.new.items ≡ out.old.items ++ 3 ∷ 111 ∷ 0 ∷ doc.now) }
{
    out.extend_from_slice(&[3, b'o', 0])?;
    out.extend_from_slice(doc)?;
    Ok(())
}

/// The bytes of an entry that puts a document, which is given in its bytes, in memory of their own size.
/// The time is that of copying the document.
pub fn write_put(alloc: Global, ts: Ts, ns: &NsName, doc: &[u8]) -> Result<Bytes, AllocError>
    ensures { (d : List (List ℕ × Datum)) → doc.now ≡ document_text d → IfOk result (λ bytes. bytes ≡ document_text (entry_fields (record { ts = ts; ns = ns.now; action = Put d }))) }
{
    let mut out = front(alloc, ts, ns, doc.len().saturating_add(PUT_LEN))?;
    put_heading(&mut out, b'i', ns)?;
    put_spelled(&mut out, doc)?;
    put_wall(&mut out, ts.secs)?;
    close(&mut out, 4)?;
    Ok(Bytes::from_vec(out))
}

/// The bytes of an entry whose `o2` is this `_id`, and whose document is given in its bytes.
fn update_bytes(
    alloc: Global,
    ts: Ts,
    ns: &NsName,
    id: &Value,
    doc: &[u8],
) -> Result<Bytes, AllocError>
    ensures { (e : Record) → (d : List (List ℕ × Datum)) → e.ts ≡ ts → doc.now ≡ document_text d → whole_fields e ≡ body_fields (update_body ns.now id.now d) [] → IfOk result (λ bytes. bytes ≡ document_text (entry_fields e)) }
{
    let id_len = id.spelling_len().saturating_add(UPDATE_LEN);
    let mut out = front(alloc, ts, ns, doc.len().saturating_add(id_len))?;
    put_update_head(&mut out, ns, id)?;
    put_spelled(&mut out, doc)?;
    put_wall(&mut out, ts.secs)?;
    close(&mut out, 4)?;
    Ok(Bytes::from_vec(out))
}

/// The bytes of an update of the document of an `_id`, which puts a document whole, or plays a delta: either is given in its
/// bytes. The entry is in memory of its own size. The time is that of copying what is given.
pub fn write_update(
    alloc: Global,
    ts: Ts,
    ns: &NsName,
    id: &Value,
    doc: &[u8],
) -> Result<Bytes, AllocError>
    ensures whole { (d : List (List ℕ × Datum)) → doc.now ≡ document_text d → IfOk result (λ bytes. bytes ≡ document_text (entry_fields (record { ts = ts; ns = ns.now; action = Whole id.now d }))) }
    ensures delta { (form : Form) → (touches : List Touch) → doc.now ≡ document_text (written form level_limit touches) → IfOk result (λ bytes. bytes ≡ document_text (entry_fields (record { ts = ts; ns = ns.now; action = Delta id.now form touches }))) }
{
    update_bytes(alloc, ts, ns, id, doc)
}
