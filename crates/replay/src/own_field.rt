//! A field of a document there, set to the value of an element or taken out in the document's bytes.
ghost use Rattle.std.specs.Prelude.{◌≡◌, ◌↔◌, ◌+◌, ◌<◌, ◌≤◌, ◌^◌, [], ◌∷◌, false, option_map, OnErr, IfOk, IfSome, IsSome, IsTrue};
ghost use Rattle.std.specs.Str.{bytes_eq};
ghost use Rattle.bson_value.specs.Levels.{levels_of};
ghost use Rattle.bson_value.specs.Spelling.{document_text};
ghost use Rattle.bson_encode.specs.Key.{key_of};
ghost use Rattle.bson_view.specs.Kept.{kept_bytes, kept_document};
ghost use Rattle.bson_view.specs.Views.{document, elem_value, view_bytes};
ghost use Rattle.doc_path.specs.declared.parts.Form.TheVariants.{V2};
ghost use Rattle.doc_path.specs.declared.parts.Part.TheVariants.{Name};
ghost use Rattle.doc_path.specs.declared.touches.Touch.{Touch};
ghost use Rattle.doc_path.specs.Played.{id_name};
ghost use Rattle.spliced_documents.specs.Splicing.{IsShortSpelling};
ghost use Rattle.state_model.specs.Replay.{replay_all};
ghost use Rattle.coll_state.specs.Rows.{state_of};
ghost use Rattle.replay.specs.Moves.{deltas};
ghost use Rattle.replay.specs.Splicing.{FitsThere, FitsWith, IsWith, SaysAt};

use crate::splicing::{own_view, replace};
use bson_value::{NsName, Value};
use bson_view::{DocumentBytes, Elem, View};
use coll_state::State;
use spliced_documents::{with_element, without_field};
use std::alloc::{AllocError, Global};

pub(crate) fn is_id(name: &str) -> bool
    ensures { result ≡ bytes_eq name.now id_name }
{
    name == "_id"
}

/// The document with the value in the field, or without the field where there is no value.
fn changed(
    alloc: Global,
    view: &View<'_>,
    name: &str,
    value: Option<&Elem<'_>>,
) -> Result<Option<DocumentBytes>, AllocError>
    requires levels { levels_of (document view.now) ≤ 100 }
    requires text { view_bytes view.now ≡ document_text (document view.now) }
    ensures document { IfOk result (λ o. IfSome o (λ b. IsWith name.now (option_map (λ e. elem_value e.now) value.entry) (document view.now) (kept_document b))) }
    ensures fits { IfOk result (λ o. IsSome o ↔ FitsWith name.now (option_map (λ e. elem_value e.now) value.entry) (document view.now)) }
    ensures spelling { IfOk result (λ o. IfSome o (λ b. IsShortSpelling (kept_bytes b) (kept_document b))) }
{
    match value {
        Some(elem) => with_element(alloc, view, name, elem),
        None => without_field(alloc, view, name),
    }
}

/// Sets a field of a document to the value of an element, or takes it out where no element is given. Nothing
/// is built: the document's bytes are copied, and the element's. `false` exactly where nothing was done: the
/// document isn't there or isn't kept as its spelling, the field is `_id`, the value holds others or its name
/// has a zero in it, or the document has too many bytes then.
pub fn splice_field(
    alloc: Global,
    state: &mut State,
    ns: &NsName,
    id: &Value,
    name: &str,
    value: Option<&Elem<'_>>,
) -> Result<bool, AllocError>
    requires { state.old.count < 2 ^ 127 }
    ensures made { IfOk result (λ done. IsTrue done → (t : Touch) → SaysAt (Name name.now ∷ []) (option_map (λ e. elem_value e.now) value.entry) t → state_of state.new ≡ replay_all (deltas ns.now (key_of id.now) V2 (t ∷ [])) (state_of state.old)) }
    ensures done { IfOk result (λ done. IsTrue done ↔ ((bytes_eq name.now id_name ≡ false) × FitsThere ns.now id.now (FitsWith name.now (option_map (λ e. elem_value e.now) value.entry)) state.old)) }
    ensures left { IfOk result (λ done. done ≡ false → state.new ≡ state.old) }
    ensures err { OnErr result (state.new ≡ state.old) }
    ensures count { state.new.count ≤ state.old.count + 1 }
{
    if is_id(name) {
        return Ok(false);
    }
    let Some((number, view)) = own_view(state, ns, id) else {
        return Ok(false);
    };
    let changed = changed(alloc, &view, name, value)?;
    Ok(replace(state, ns, number, changed))
}
