//! Deltas of one touch, read and replayed where they lie.
ghost use Rattle.std.specs.Prelude.{◌≡◌, ◌<◌, ◌^◌, ◌∷◌, [], false, IfOk, IfSome, IsTrue, OnErr, option_map};
ghost use Rattle.bson_encode.specs.Key.{key_of};
ghost use Rattle.bson_value.specs.declared.value.Ts.{Ts as Stamp};
ghost use Rattle.bson_view.specs.Views.{elem_value};
ghost use Rattle.coll_state.specs.Rows.{state_of};
ghost use Rattle.doc_path.specs.declared.parts.Form.TheVariants.{V2};
ghost use Rattle.doc_path.specs.declared.parts.Part.TheVariants.{Name, Index};
ghost use Rattle.doc_path.specs.declared.touches.Touch.{Touch};
ghost use Rattle.entry_model.specs.Reading.{namespace_of};
ghost use Rattle.entry_model.specs.Written.{Fields};
ghost use Rattle.entry_reader.specs.Entries.{AreFieldsOf};
ghost use Rattle.entry_reader.specs.FieldDeltas.{place_of, SaysAt};
ghost use Rattle.replay.specs.Moves.{deltas, moves_of};
ghost use Rattle.restore_entries.specs.FieldDeltas.{IsKeptAs, entry_of_touch};
ghost use Rattle.restore_entries.specs.Oplog.{reading_of};
ghost use Rattle.state_model.specs.Replay.{replay_all};

use crate::reading::is_asked;
use bson_value::{NsName, Ts, Value};
use bson_view::Elem;
use coll_state::{COUNT_LIMIT, State};
use entry_reader::{EntryView, FieldDelta, FieldPlace};
use replay::{is_config, splice_below, splice_field, splice_item};
use restore_filter::Filter;
use std::alloc::{AllocError, Global};

fn namespace(alloc: Global, text: &str) -> Result<Option<NsName>, AllocError>
    ensures { IfOk result (λ o. IfSome o (λ n. namespace_of text.now ≡ Some n)) }
{
    NsName::split(alloc, text)
}

/// The delta of one field and its namespace, where a document of the oplog is an entry of such a delta, and the restore
/// replays it. Of others nothing is said.
pub fn read_field<'a>(
    alloc: Global,
    rules: &Filter,
    limit: Option<Ts>,
    entry: &EntryView<'a>,
) -> Result<Option<(NsName, FieldDelta<'a>)>, AllocError>
    ensures { (fs : Fields) → AreFieldsOf entry.now fs → IfOk result (λ o. IfSome o (λ f. IsKeptAs f.0 f.1 (reading_of rules.now limit fs))) }
{
    let Some((ts, text)) = entry.head() else {
        return Ok(None);
    };
    if !is_asked(limit, ts, text) {
        return Ok(None);
    }
    let Some(delta) = entry.field_delta() else {
        return Ok(None);
    };
    let Some(ns) = namespace(alloc, text)? else {
        return Ok(None);
    };
    if rules.takes(&ns) {
        Ok(Some((ns, delta)))
    } else {
        Ok(None)
    }
}

// Sets an element of an array that a field holds, where a value is given.
fn replay_item(
    alloc: Global,
    state: &mut State,
    ns: &NsName,
    id: &Value,
    field: &str,
    index: u32,
    value: Option<&Elem<'_>>,
) -> Result<bool, AllocError>
    requires { state.old.count < 2 ^ 127 }
    ensures made { IfOk result (λ done. IsTrue done → (t : Touch) → SaysAt (Name field.now ∷ (Index index ∷ [])) (option_map (λ e. elem_value e.now) value.entry) t → state_of state.new ≡ replay_all (deltas ns.now (key_of id.now) V2 (t ∷ [])) (state_of state.old)) }
    ensures left { IfOk result (λ done. done ≡ false → state.new ≡ state.old) }
    ensures err { OnErr result (state.new ≡ state.old) }
{
    match value {
        Some(elem) => splice_item(alloc, state, ns, id, field, index, elem),
        None => Ok(false),
    }
}

// Sets the value at this place of a document, or takes out what is there.
fn replay_at(
    alloc: Global,
    state: &mut State,
    ns: &NsName,
    id: &Value,
    place: FieldPlace<'_>,
    value: Option<&Elem<'_>>,
) -> Result<bool, AllocError>
    requires { state.old.count < 2 ^ 127 }
    ensures made { IfOk result (λ done. IsTrue done → (t : Touch) → SaysAt (place_of place.entry) (option_map (λ e. elem_value e.now) value.entry) t → state_of state.new ≡ replay_all (deltas ns.now (key_of id.now) V2 (t ∷ [])) (state_of state.old)) }
    ensures left { IfOk result (λ done. done ≡ false → state.new ≡ state.old) }
    ensures err { OnErr result (state.new ≡ state.old) }
{
    match place {
        FieldPlace::Own(name) => splice_field(alloc, state, ns, id, name, value),
        FieldPlace::Below(field, name) => splice_below(alloc, state, ns, id, field, name, value),
        FieldPlace::Item(field, index) => replay_item(alloc, state, ns, id, field, index, value),
    }
}

/// Replays the delta in the bytes of its document. `false` where nothing was done, as where that document isn't kept as its
/// spelling.
pub fn replay_field(
    alloc: Global,
    state: &mut State,
    ns: &NsName,
    delta: &FieldDelta<'_>,
) -> Result<bool, AllocError>
    ensures made { IfOk result (λ done. IsTrue done → (ts : Stamp) (t : Touch) → SaysAt (place_of delta.now.place) (option_map elem_value delta.now.value) t → state_of state.new ≡ replay_all (moves_of (entry_of_touch ts ns.now delta.now t)) (state_of state.old)) }
    ensures left { IfOk result (λ done. done ≡ false → state.new ≡ state.old) }
    ensures err { OnErr result (state.new ≡ state.old) }
{
    if is_config(ns) || state.count() >= COUNT_LIMIT {
        return Ok(false);
    }
    let id = delta.id.to_value(alloc)?;
    replay_at(alloc, state, ns, &id, delta.place, delta.value.as_ref())
}
