//! A field of a document that a field of a document there holds, set to the value of an element or taken out in
//! the bytes.
ghost use Rattle.std.specs.Prelude.{◌≡◌, ◌↔◌, ◌+◌, ◌<◌, ◌≤◌, ◌^◌, [], ◌∷◌, false, option_map, OnErr, IfOk, IfSome, IsSome, IsTrue};
ghost use Rattle.std.specs.Str.{bytes_eq};
ghost use Rattle.bson_value.specs.Levels.{levels_of};
ghost use Rattle.bson_value.specs.Spelling.{document_text};
ghost use Rattle.bson_encode.specs.Key.{key_of};
ghost use Rattle.bson_view.specs.Kept.{kept_bytes, kept_document};
ghost use Rattle.bson_view.specs.Views.{document, elem_value, view_bytes};
ghost use Rattle.doc_path.specs.declared.parts.Form.TheVariants.{V2};
ghost use Rattle.doc_path.specs.declared.parts.Part.TheVariants.{Name};
ghost use Rattle.doc_path.specs.declared.touches.Touch.{Touch};
ghost use Rattle.doc_path.specs.Played.{id_name};
ghost use Rattle.spliced_documents.specs.Splicing.{IsShortSpelling};
ghost use Rattle.state_model.specs.Replay.{replay_all};
ghost use Rattle.coll_state.specs.Rows.{state_of};
ghost use Rattle.replay.specs.Moves.{deltas};
ghost use Rattle.replay.specs.Splicing.{FitsThere, FitsWithBelow, IsWithBelow, SaysAt};

use crate::own_field::is_id;
use crate::splicing::{own_view, replace};
use bson_value::{NsName, Value};
use bson_view::{DocumentBytes, Elem, View};
use coll_state::State;
use spliced_documents::{with_element_below, without_field_below};
use std::alloc::{AllocError, Global};

/// The document with the value in the field of the document that the outer field holds, or without that field
/// where there is no value.
fn changed_below(
    alloc: Global,
    view: &View<'_>,
    field: &str,
    name: &str,
    value: Option<&Elem<'_>>,
) -> Result<Option<DocumentBytes>, AllocError>
    requires levels { levels_of (document view.now) ≤ 100 }
    requires text { view_bytes view.now ≡ document_text (document view.now) }
    ensures document { IfOk result (λ o. IfSome o (λ b. IsWithBelow field.now name.now (option_map (λ e. elem_value e.now) value.entry) (document view.now) (kept_document b))) }
    ensures fits { IfOk result (λ o. IsSome o ↔ FitsWithBelow field.now name.now (option_map (λ e. elem_value e.now) value.entry) (document view.now)) }
    ensures spelling { IfOk result (λ o. IfSome o (λ b. IsShortSpelling (kept_bytes b) (kept_document b))) }
{
    match value {
        Some(elem) => with_element_below(alloc, view, field, name, elem),
        None => without_field_below(alloc, view, field, name),
    }
}

/// Sets a field of the document that the outer field of a document holds to the value of an element, or takes it
/// out of that one where no element is given. Nothing is built: the document's bytes are copied, and the
/// element's. `false` exactly where nothing was done: the document isn't there or isn't kept as its spelling, the
/// outer field is `_id` or holds no document, the value holds others or its name has a zero in it, or the document
/// has more than 16,777,216 bytes then.
pub fn splice_below(
    alloc: Global,
    state: &mut State,
    ns: &NsName,
    id: &Value,
    field: &str,
    name: &str,
    value: Option<&Elem<'_>>,
) -> Result<bool, AllocError>
    requires { state.old.count < 2 ^ 127 }
    ensures made { IfOk result (λ done. IsTrue done → (t : Touch) → SaysAt (Name field.now ∷ (Name name.now ∷ [])) (option_map (λ e. elem_value e.now) value.entry) t → state_of state.new ≡ replay_all (deltas ns.now (key_of id.now) V2 (t ∷ [])) (state_of state.old)) }
    ensures done { IfOk result (λ done. IsTrue done ↔ ((bytes_eq field.now id_name ≡ false) × FitsThere ns.now id.now (FitsWithBelow field.now name.now (option_map (λ e. elem_value e.now) value.entry)) state.old)) }
    ensures left { IfOk result (λ done. done ≡ false → state.new ≡ state.old) }
    ensures err { OnErr result (state.new ≡ state.old) }
    ensures count { state.new.count ≤ state.old.count + 1 }
{
    if is_id(field) {
        return Ok(false);
    }
    let Some((number, view)) = own_view(state, ns, id) else {
        return Ok(false);
    };
    let changed = changed_below(alloc, &view, field, name, value)?;
    Ok(replace(state, ns, number, changed))
}
