//! Entries with groups.
ghost use Rattle.std.specs.Prelude.{◌≡◌, ◌++◌, [], codes, map, OnOk, IfOk};
ghost use Rattle.std.specs.Fmt.{decimal};
ghost use Rattle.bson_value.specs.declared.value.Value.{Array};
ghost use Rattle.bson_value.specs.Spelling.{spelling, element, elements_of, items_of, document_text};
ghost use Rattle.entry_model.specs.Spelling.{command_body, body_fields, item_value, entry_fields, level_limit};
ghost use Rattle.entry_model.specs.Touches.{written};
ghost use Rattle.entry_writer.specs.Bodies.{whole_fields};

use crate::body::{namespace_text, put_form, put_head, put_plain};
use crate::elements::{close, open, open_array};
use crate::heading::{put_front, put_wall};
use bson_value::{Bytes, NsName};
use doc_path::{Form, Touch};
use entry_model::{Action, Entry};
use itoa::Buffer;
use std::alloc::{AllocError, Global};

/// Appends an item of a group.
fn put_item(alloc: Global, out: &mut Vec<u8>, at: usize, entry: &Entry) -> Result<(), AllocError>
    ensures { OnOk result (out.new.items ≡ out.old.items ++ element (decimal at, spelling (item_value entry.now))) }
{
    let mut buffer = Buffer::new();
    open(out, buffer.format(at))?;
    let start = out.len();
    put_plain(alloc, out, &entry.ns, &entry.action)?;
    close(out, start)
}

fn put_items(alloc: Global, out: &mut Vec<u8>, entries: &[Entry]) -> Result<(), AllocError>
    ensures { OnOk result (out.new.items ≡ out.old.items ++ items_of (map item_value entries.now)) }
{
    for at in 0..entries.len() {
        put_item(alloc, out, at, &entries[at])?;
    }
    Ok(())
}

fn put_group(
    alloc: Global,
    out: &mut Vec<u8>,
    ns: &NsName,
    entries: &[Entry],
) -> Result<(), AllocError>
    ensures { OnOk result (out.new.items ≡ out.old.items ++ elements_of (body_fields (command_body ns.now (codes "applyOps") (Array (map item_value entries.now)) []) [])) }
{
    let text = namespace_text(alloc, ns.db.as_str(), "$cmd")?;
    put_head(alloc, out, "c", text)?;
    open(out, "o")?;
    let start = out.len();
    open_array(out, "applyOps")?;
    let first = out.len();
    put_items(alloc, out, entries)?;
    close(out, first)?;
    close(out, start)
}

fn put_body(alloc: Global, out: &mut Vec<u8>, entry: &Entry) -> Result<(), AllocError>
    ensures { OnOk result (out.new.items ≡ out.old.items ++ elements_of (whole_fields entry.now)) }
{
    match &entry.action {
        Action::Group { entries } => put_group(alloc, out, &entry.ns, entries.as_slice()),
        _ => put_plain(alloc, out, &entry.ns, &entry.action),
    }
}

/// Most entries have no more bytes.
const USUAL_LEN: usize = 512;

/// The bytes of the document of an entry, in memory of their own size. They are written at once, and what the entry holds
/// isn't copied before.
/// The time is that of the bytes, and of a delta of several touches in the second form also that of looking each up in a tree at
/// each level of its place. Such trees are made of a single touch only where its place goes through an array.
pub fn write(alloc: Global, entry: &Entry) -> Result<Bytes, AllocError>
    ensures { IfOk result (λ bytes. bytes ≡ document_text (entry_fields entry.now)) }
{
    let mut out = Vec::with_capacity(alloc, USUAL_LEN)?;
    out.extend_from_slice(&[0, 0, 0, 0])?;
    put_front(&mut out, entry.ts)?;
    put_body(alloc, &mut out, entry)?;
    put_wall(&mut out, entry.ts.secs)?;
    close(&mut out, 4)?;
    let bytes = Bytes::of(alloc, out.as_slice())?;
    Ok(bytes)
}

/// The bytes of a delta in this form: the document that an update's entry has in its field `o`.
/// The time is that of the bytes, and of several touches in the second form also that of looking each up in a tree at each level
/// of its place. Such trees are made of a single touch only where its place goes through an array.
pub fn write_delta(alloc: Global, form: Form, touches: &[Touch]) -> Result<Bytes, AllocError>
    ensures { IfOk result (λ bytes. bytes ≡ document_text (written form level_limit touches.now)) }
{
    let mut out = Vec::with_capacity(alloc, USUAL_LEN)?;
    out.extend_from_slice(&[0, 0, 0, 0])?;
    put_form(alloc, &mut out, form, touches)?;
    close(&mut out, 4)?;
    Ok(Bytes::from_vec(out))
}
