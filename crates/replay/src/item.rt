//! An element of an array that a field of a document there holds, set to the value of an element in the bytes.
ghost use Rattle.std.specs.Prelude.{◌≡◌, ◌↔◌, ◌+◌, ◌<◌, ◌≤◌, ◌^◌, [], ◌∷◌, Some, false, OnErr, IfOk, IsTrue};
ghost use Rattle.std.specs.Str.{bytes_eq};
ghost use Rattle.bson_encode.specs.Key.{key_of};
ghost use Rattle.bson_view.specs.Views.{elem_value};
ghost use Rattle.doc_path.specs.declared.parts.Form.TheVariants.{V2};
ghost use Rattle.doc_path.specs.declared.parts.Part.TheVariants.{Index, Name};
ghost use Rattle.doc_path.specs.declared.touches.Touch.{Touch};
ghost use Rattle.doc_path.specs.Played.{id_name};
ghost use Rattle.doc_path.specs.Touch.{limit};
ghost use Rattle.spliced_documents.specs.Splicing.{FitsItem};
ghost use Rattle.state_model.specs.Replay.{replay_all};
ghost use Rattle.coll_state.specs.Rows.{state_of};
ghost use Rattle.replay.specs.Moves.{deltas};
ghost use Rattle.replay.specs.Splicing.{FitsThere, SaysAt};

use crate::own_field::is_id;
use crate::splicing::{own_view, replace};
use bson_value::{NsName, Value};
use bson_view::Elem;
use coll_state::State;
use doc_path::INDEX_LIMIT;
use spliced_documents::with_item;
use std::alloc::{AllocError, Global};

/// Sets an element of the array that a field of a document holds to the value of an element. Nothing is built:
/// the document's bytes are copied, and the element's. `false` exactly where nothing was done: the document
/// isn't there or isn't kept as its spelling, the field is `_id` or holds no array, the array has no element at
/// the index, the index isn't below 2,097,152, the value holds others, or the document has more than 16,777,216
/// bytes then.
pub fn splice_item(
    alloc: Global,
    state: &mut State,
    ns: &NsName,
    id: &Value,
    field: &str,
    index: u32,
    elem: &Elem<'_>,
) -> Result<bool, AllocError>
    requires { state.old.count < 2 ^ 127 }
    ensures made { IfOk result (λ done. IsTrue done → (t : Touch) → SaysAt (Name field.now ∷ (Index index ∷ [])) (Some (elem_value elem.now)) t → state_of state.new ≡ replay_all (deltas ns.now (key_of id.now) V2 (t ∷ [])) (state_of state.old)) }
    ensures done { IfOk result (λ done. IsTrue done ↔ ((bytes_eq field.now id_name ≡ false) × (index < limit) × FitsThere ns.now id.now (FitsItem field.now index (elem_value elem.now)) state.old)) }
    ensures left { IfOk result (λ done. done ≡ false → state.new ≡ state.old) }
    ensures err { OnErr result (state.new ≡ state.old) }
    ensures count { state.new.count ≤ state.old.count + 1 }
{
    if is_id(field) || index as usize >= INDEX_LIMIT {
        return Ok(false);
    }
    let Some((number, view)) = own_view(state, ns, id) else {
        return Ok(false);
    };
    let changed = with_item(alloc, &view, field, index as usize, elem)?;
    Ok(replace(state, ns, number, changed))
}
