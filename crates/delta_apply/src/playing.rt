//! Touches that are played on a document, one after the other.
ghost use Rattle.std.specs.Prelude.{◌≡◌, map, OnOk, OnErr};
ghost use Rattle.bson_value.specs.declared.value.Value.{Object as object_of};
ghost use Rattle.doc_path.specs.Played.{touch_at, touch_of, played, played_all};
ghost use Rattle.delta_apply.specs.Touched.{untouched};

use crate::backup::Backup;
use crate::left::is_left;
use bson_value::{Doc, List};
use doc_path::{Change, Form, Place, Touch, change_document};
use std::alloc::AllocError;

/// A change at a place, unless it is left at once.
fn play_at(doc: &mut Doc, form: Form, place: &Place, action: Change) -> Result<(), AllocError>
    ensures ok { OnOk result (object_of doc.new ≡ played form (touch_at place.now action) (object_of doc.old)) }
    ensures err { OnErr result (doc.new ≡ doc.old) }
{
    let parts = place.parts().as_slice();
    match parts.split_last() {
        None => Ok(()),
        Some((last, way)) => {
            if is_left(parts, &action) {
                Ok(())
            } else {
                change_document(doc, form, way, last, action)
            }
        }
    }
}

fn play_one(doc: &mut Doc, form: Form, touch: &Touch) -> Result<(), AllocError>
    ensures ok { OnOk result (object_of doc.new ≡ played form (touch_of touch.now) (object_of doc.old)) }
    ensures err { OnErr result (doc.new ≡ doc.old) }
{
    match touch {
        Touch::Set { place, value, .. } => {
            let value = value.copy(doc.alloc())?;
            play_at(doc, form, place, Change::Put(value))
        }
        Touch::Unset { place } => play_at(doc, form, place, Change::Delete),
        Touch::Resize { place, len } => play_at(doc, form, place, Change::Resize(*len)),
    }
}

// Without memory some of the touches are played already.
fn play_all(doc: &mut Doc, touches: &[Touch], form: Form) -> Result<(), AllocError>
    ensures ok { OnOk result (object_of doc.new ≡ played_all form (map touch_of touches.now) (object_of doc.old)) }
    ensures err { OnErr result (untouched touches.now doc.new ≡ untouched touches.now doc.old) }
{
    for touch in touches {
        play_one(doc, form, touch)?;
    }
    Ok(())
}

fn play_or_restore(doc: &mut Doc, touches: &[Touch], form: Form) -> Result<(), AllocError>
    ensures ok { OnOk result (object_of doc.new ≡ played_all form (map touch_of touches.now) (object_of doc.old)) }
    ensures err { OnErr result (doc.new ≡ doc.old) }
{
    let backup = Backup::of(touches, doc)?;
    match play_all(doc, touches, form) {
        Ok(()) => Ok(()),
        Err(e) => {
            backup.restore(touches, doc);
            Err(e)
        }
    }
}

/// Plays the touches on the document, one after the other, by the rules of the form. It grows by the
/// document's own allocator, and is unchanged where memory runs out.
///
/// The document is changed where it stands. One touch copies its own value alone. Of more touches the
/// fields of the document are copied first to which they go, and brought back where memory runs out.
pub fn play(doc: &mut Doc, touches: &List<Touch>, form: Form) -> Result<(), AllocError>
    ensures ok { OnOk result (object_of doc.new ≡ played_all form (map touch_of touches.now) (object_of doc.old)) }
    ensures err { OnErr result (doc.new ≡ doc.old) }
{
    match touches.as_slice() {
        [] => Ok(()),
        [touch] => play_one(doc, form, touch),
        touches => play_or_restore(doc, touches, form),
    }
}
