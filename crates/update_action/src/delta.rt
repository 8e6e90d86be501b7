//! The delta of an update, and the touches that are read of it.
ghost use Rattle.std.specs.Prelude.{◌≡◌, IfOk, map};
ghost use Rattle.bson_value.specs.declared.value.Value.{Object};
ghost use Rattle.bson_check.specs.Reading.{document_of};
ghost use Rattle.entry_model.specs.Spelling.{level_limit};
ghost use Rattle.update_action.specs.Recorded.{without_length, delta_text, touches_in, byte_limit};

use bson_check::DecodeFault;
use bson_core::decode;
use bson_value::{Bytes, Doc, List};
use doc_path::{Form, Place, Touch, at};
use entry_model::EntryFault;
use entry_writer::write_delta;
use oplog_entry::read_delta;
use std::alloc::{AllocError, Global};

/// A Set of the whole array that stands at the place, in place of its length.
fn whole_array(alloc: Global, new: &Doc, place: &Place, len: u32) -> Result<Touch, AllocError>
    ensures { IfOk result (λ t. t ≡ without_length (Object new.now) (Touch.Resize place.now len)) }
{
    let place_copy = place.copy(alloc)?;
    match at(new, place) {
        Some(value) => Ok(Touch::Set {
            place: place_copy,
            value: value.copy(alloc)?,
            fresh: false,
        }),
        None => Ok(Touch::Resize {
            place: place_copy,
            len,
        }),
    }
}

/// An equal touch.
fn copied(alloc: Global, touch: &Touch) -> Result<Touch, AllocError>
    ensures { IfOk result (λ t. t ≡ touch.now) }
{
    match touch {
        Touch::Set {
            place,
            value,
            fresh,
        } => Ok(Touch::Set {
            place: place.copy(alloc)?,
            value: value.copy(alloc)?,
            fresh: *fresh,
        }),
        Touch::Unset { place } => Ok(Touch::Unset {
            place: place.copy(alloc)?,
        }),
        Touch::Resize { place, len } => Ok(Touch::Resize {
            place: place.copy(alloc)?,
            len: *len,
        }),
    }
}

/// The same touches.
pub(crate) fn all_copied(alloc: Global, touches: &[Touch]) -> Result<List<Touch>, AllocError>
    ensures { IfOk result (λ ts. ts ≡ touches.now) }
{
    let mut all = List::with_capacity(alloc, touches.len())?;
    for touch in touches {
        all.push(copied(alloc, touch)?)?;
    }
    Ok(all)
}

/// The touch with a Set of the whole array in the place of its length.
fn without_length(alloc: Global, new: &Doc, touch: &Touch) -> Result<Touch, AllocError>
    ensures { IfOk result (λ t. t ≡ without_length (Object new.now) touch.now) }
{
    match touch {
        Touch::Set { .. } | Touch::Unset { .. } => copied(alloc, touch),
        Touch::Resize { place, len } => whole_array(alloc, new, place, *len),
    }
}

/// The touches without lengths. Their indexes are spelled as the names of the first form.
fn all_without_length(
    alloc: Global,
    new: &Doc,
    touches: &[Touch],
) -> Result<List<Touch>, AllocError>
    ensures { IfOk result (λ ts. ts ≡ map (without_length (Object new.now)) touches.now) }
{
    let mut all = List::new(alloc);
    for touch in touches {
        all.push(without_length(alloc, new, touch)?)?;
    }
    Ok(all)
}

/// The bytes of the delta.
pub(crate) fn delta_text(
    alloc: Global,
    form: Form,
    new: &Doc,
    touches: &[Touch],
) -> Result<Bytes, AllocError>
    ensures { IfOk result (λ bytes. bytes ≡ delta_text form new.now touches.now) }
{
    match form {
        Form::V1 => {
            let all = all_without_length(alloc, new, touches)?;
            write_delta(alloc, form, all.as_slice())
        }
        Form::V2 => write_delta(alloc, form, touches),
    }
}

// No entry has more bytes, nor more levels.
const MAX_BYTES: usize = 16_793_600;

const MAX_LEVELS: usize = 200;

/// The touches that are read of a delta, in the order of its fields.
pub(crate) fn read_again(
    alloc: Global,
    bytes: &[u8],
) -> Result<Option<(Form, List<Touch>)>, AllocError>
    ensures { IfOk result (λ r. r ≡ touches_in (document_of byte_limit level_limit bytes.now)) }
{
    let doc = match decode(alloc, bytes, MAX_BYTES, MAX_LEVELS) {
        Ok(doc) => doc,
        Err(DecodeFault::NoMemory) => return Err(AllocError),
        Err(DecodeFault::Bad(_)) => return Ok(None),
    };
    match read_delta(alloc, &doc) {
        Ok(delta) => Ok(Some(delta)),
        Err(EntryFault::NoMemory) => Err(AllocError),
        Err(_) => Ok(None),
    }
}
