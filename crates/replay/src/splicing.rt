//! Touches that are played in the bytes of a document.
ghost use Rattle.std.specs.Prelude.{◌≡◌, ◌↔◌, ◌+◌, ◌<◌, ◌≤◌, ◌^◌, Some, true, false, IfOk, IfSome, IsNone, IsSome, IsTrue};
ghost use Rattle.std.specs.List.{list_all};
ghost use Rattle.bson_value.specs.Levels.{levels_of};
ghost use Rattle.bson_value.specs.Spelling.{document_text};
ghost use Rattle.bson_encode.specs.Key.{key_of};
ghost use Rattle.bson_view.specs.Kept.{kept_bytes, kept_document};
ghost use Rattle.bson_view.specs.Views.{document, view_bytes};
ghost use Rattle.coll_state.specs.Changes.{document_at, number_at, put};
ghost use Rattle.coll_state.specs.Kept.{is_short};
ghost use Rattle.coll_state.specs.Rows.{id_of, key_in};
ghost use Rattle.spliced_documents.specs.Splicing.{IsShortSpelling};
ghost use Rattle.replay.specs.Splicing.{AreBuilt, IsThere, IsPlayed, IsPlayedThere, IsPlayedAlone, stays_within};

use crate::touched_fields::{common_field, only_below, only_field, taken_below, taken_field};
use bson_value::{CText, Doc, List, NsName, Value};
use bson_view::{DocumentBytes, Held, View};
use coll_state::State;
use delta_apply::play;
use doc_path::{Form, Touch};
use spliced_documents::{with_field, with_field_below, without_field, without_field_below};
use std::alloc::{AllocError, Global};

/// The document of this `_id` and its number, where it is kept as its spelling.
pub(crate) fn own_view<'s>(state: &'s State, ns: &NsName, id: &Value) -> Option<(u128, View<'s>)>
    ensures there { IfSome result (λ f. IsThere ns.now id.now state.now f.0 (document f.1)) }
    ensures levels { IfSome result (λ f. levels_of (document f.1) ≤ 100) }
    ensures text { IfSome result (λ f. view_bytes f.1 ≡ document_text (document f.1)) }
    ensures short { IfSome result (λ f. is_short (document f.1) ≡ true) }
    ensures others { IsNone result → AreBuilt (document_at ns.now (key_of id.now) state.now.tables) }
{
    match state.find(ns, id)? {
        (number, Held::Spelled(view)) => Some((number, view)),
        (_, Held::Built(_)) => None,
    }
}

/// Puts the changed document, where there is one, in the place of that under this number, and says whether it did.
pub(crate) fn replace(
    state: &mut State,
    ns: &NsName,
    number: u128,
    changed: Option<DocumentBytes>,
) -> bool
    requires spelling { IfSome changed (λ b. IsShortSpelling (kept_bytes b) (kept_document b)) }
    requires number { IfSome changed (λ b. number_at ns.now (key_in (id_of (kept_document b))) state.old.tables ≡ Some number) }
    requires count { state.old.count < 2 ^ 127 }
    ensures put { IfSome changed (λ b. state.new ≡ put ns.now (kept_document b) state.old) }
    ensures done { IsTrue result ↔ IsSome changed }
    ensures left { result ≡ false → state.new ≡ state.old }
    ensures count { state.new.count ≤ state.old.count + 1 }
{
    match changed {
        Some(bytes) => {
            state.replace_spelling(ns, number, bytes);
            true
        }
        None => false,
    }
}

/// The document after the touches, where they are one that takes a field out of a document that a field
/// holds.
fn play_unset_below(
    alloc: Global,
    view: &View<'_>,
    form: Form,
    touches: &List<Touch>,
) -> Result<Option<DocumentBytes>, AllocError>
    requires levels { levels_of (document view.now) ≤ 100 }
    requires text { view_bytes view.now ≡ document_text (document view.now) }
    ensures played { IfOk result (λ o. IfSome o (λ b. IsPlayed form touches.now (document view.now) (kept_document b))) }
    ensures spelling { IfOk result (λ o. IfSome o (λ b. IsShortSpelling (kept_bytes b) (kept_document b))) }
{
    match taken_below(touches.as_slice()) {
        Some((field, name)) => without_field_below(alloc, view, field.as_str(), name.as_str()),
        None => Ok(None),
    }
}

/// The document after the touches, where they are one that sets a field of a document that a field holds, or
/// takes one out of it.
fn play_below(
    alloc: Global,
    view: &View<'_>,
    form: Form,
    touches: &List<Touch>,
) -> Result<Option<DocumentBytes>, AllocError>
    requires levels { levels_of (document view.now) ≤ 100 }
    requires text { view_bytes view.now ≡ document_text (document view.now) }
    ensures played { IfOk result (λ o. IfSome o (λ b. IsPlayed form touches.now (document view.now) (kept_document b))) }
    ensures spelling { IfOk result (λ o. IfSome o (λ b. IsShortSpelling (kept_bytes b) (kept_document b))) }
{
    match only_below(touches.as_slice()) {
        Some((field, name, value)) => with_field_below(alloc, view, field, name, value),
        None => play_unset_below(alloc, view, form, touches),
    }
}

/// What stands in the field after the touches, played on a document of this field alone.
fn played_alone(
    alloc: Global,
    name: &CText,
    value: Value,
    form: Form,
    touches: &List<Touch>,
) -> Result<Option<Value>, AllocError>
    ensures { IfOk result (λ o. IsPlayedAlone form touches.now name.now value o) }
{
    let own = name.copy(alloc)?;
    let mut alone = Doc::new(alloc);
    alone.set(own, value)?;
    play(&mut alone, touches, form)?;
    Ok(alone.remove(name.as_str()))
}

/// The document after touches that stay within the field. The value of no other field is read.
fn play_field(
    alloc: Global,
    view: &View<'_>,
    name: &CText,
    form: Form,
    touches: &List<Touch>,
) -> Result<Option<DocumentBytes>, AllocError>
    requires levels { levels_of (document view.now) ≤ 100 }
    requires text { view_bytes view.now ≡ document_text (document view.now) }
    requires within { IsTrue (list_all (stays_within name.now) touches.now) }
    ensures spelling { IfOk result (λ o. IfSome o (λ b. IsShortSpelling (kept_bytes b) (kept_document b))) }
    ensures played { IfOk result (λ o. IfSome o (λ b. IsPlayed form touches.now (document view.now) (kept_document b))) }
{
    let Some(elem) = view.field(name.as_str()) else {
        return Ok(None);
    };
    let value = elem.to_value(alloc)?;
    match played_alone(alloc, name, value, form, touches)? {
        Some(value) => with_field(alloc, view, name, &value),
        None => Ok(None),
    }
}

/// The document after the touches, where all of them stay within one field that it has.
fn play_within(
    alloc: Global,
    view: &View<'_>,
    form: Form,
    touches: &List<Touch>,
) -> Result<Option<DocumentBytes>, AllocError>
    requires levels { levels_of (document view.now) ≤ 100 }
    requires text { view_bytes view.now ≡ document_text (document view.now) }
    ensures played { IfOk result (λ o. IfSome o (λ b. IsPlayed form touches.now (document view.now) (kept_document b))) }
    ensures spelling { IfOk result (λ o. IfSome o (λ b. IsShortSpelling (kept_bytes b) (kept_document b))) }
{
    match common_field(touches.as_slice()) {
        Some(name) => play_field(alloc, view, name, form, touches),
        None => Ok(None),
    }
}

/// The document after the touches, where all of them stay within one field that it has. Of one touch that
/// sets a field of a document there, or takes one out of it, nothing is built.
fn play_below_or_within(
    alloc: Global,
    view: &View<'_>,
    form: Form,
    touches: &List<Touch>,
) -> Result<Option<DocumentBytes>, AllocError>
    requires levels { levels_of (document view.now) ≤ 100 }
    requires text { view_bytes view.now ≡ document_text (document view.now) }
    ensures played { IfOk result (λ o. IfSome o (λ b. IsPlayed form touches.now (document view.now) (kept_document b))) }
    ensures spelling { IfOk result (λ o. IfSome o (λ b. IsShortSpelling (kept_bytes b) (kept_document b))) }
{
    match play_below(alloc, view, form, touches)? {
        Some(document) => Ok(Some(document)),
        None => play_within(alloc, view, form, touches),
    }
}

/// The document after the touches, where they are one that takes a field out of it, or all stay within one
/// field that it has.
fn take_or_play(
    alloc: Global,
    view: &View<'_>,
    form: Form,
    touches: &List<Touch>,
) -> Result<Option<DocumentBytes>, AllocError>
    requires levels { levels_of (document view.now) ≤ 100 }
    requires text { view_bytes view.now ≡ document_text (document view.now) }
    ensures played { IfOk result (λ o. IfSome o (λ b. IsPlayed form touches.now (document view.now) (kept_document b))) }
    ensures spelling { IfOk result (λ o. IfSome o (λ b. IsShortSpelling (kept_bytes b) (kept_document b))) }
{
    match taken_field(touches.as_slice()) {
        Some(name) => without_field(alloc, view, name.as_str()),
        None => play_below_or_within(alloc, view, form, touches),
    }
}

/// The document after the touches, where they are one that sets a field of it or takes one out, or all stay
/// within one field that it has.
fn spliced(
    alloc: Global,
    view: &View<'_>,
    form: Form,
    touches: &List<Touch>,
) -> Result<Option<DocumentBytes>, AllocError>
    requires levels { levels_of (document view.now) ≤ 100 }
    requires text { view_bytes view.now ≡ document_text (document view.now) }
    ensures played { IfOk result (λ o. IfSome o (λ b. IsPlayed form touches.now (document view.now) (kept_document b))) }
    ensures spelling { IfOk result (λ o. IfSome o (λ b. IsShortSpelling (kept_bytes b) (kept_document b))) }
{
    match only_field(touches.as_slice()) {
        Some((name, value)) => with_field(alloc, view, name, value),
        None => take_or_play(alloc, view, form, touches),
    }
}

/// The number of the document of this `_id` and the document after the touches, where they are one that sets
/// a field of it or takes one out, or all stay within one field that it has, and it is kept as its spelling
/// before and within the limits after it. Of the document that field alone is built, and nothing where one
/// touch sets a field of it, or of a document that a field of it holds.
pub(crate) fn spliced_own(
    alloc: Global,
    state: &State,
    ns: &NsName,
    id: &Value,
    form: Form,
    touches: &List<Touch>,
) -> Result<Option<(u128, DocumentBytes)>, AllocError>
    ensures played { IfOk result (λ o. IfSome o (λ p. IsPlayedThere ns.now id.now form touches.now state.now p.0 (kept_document p.1))) }
    ensures spelling { IfOk result (λ o. IfSome o (λ p. IsShortSpelling (kept_bytes p.1) (kept_document p.1))) }
{
    let Some((number, view)) = own_view(state, ns, id) else {
        return Ok(None);
    };
    match spliced(alloc, &view, form, touches)? {
        Some(bytes) => Ok(Some((number, bytes))),
        None => Ok(None),
    }
}
