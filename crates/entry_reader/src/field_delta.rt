//! Deltas that set one value or take one out, at most one level below the document, where they lie.
ghost use Rattle.std.specs.Prelude.{◌≡◌, ◌∷◌, ◌++◌, [], ◌||◌, Some, IfSome, option_map};
ghost use Rattle.std.specs.Str.{bytes_eq};
ghost use Rattle.bson_value.specs.declared.value.Value.{Value};
ghost use Rattle.bson_view.specs.Views.{document, elem_value};
ghost use Rattle.doc_path.specs.declared.parts.Part.TheVariants.{Name};
ghost use Rattle.entry_model.specs.Written.{a_name, d_name, i_name, u_name};
ghost use Rattle.entry_reader.specs.FieldDeltas.{IsDelta, IsDeltaOf, IsInDiff, IsOnlyField, place_of};
ghost use Rattle.entry_reader.specs.Parts.{document_at};
ghost use Rattle.entry_reader.specs.Singles.{front_of};

use crate::array_fields::index_set;
use crate::diff_fields::{behind_s, one_or_both, only};
use crate::parts::id;
use crate::single::diff_of;
use bson_check::parts::as_text;
use bson_view::{Elem, View};

/// Where in its document a delta sets a value, or takes one out.
#[derive(Clone, Copy)]
pub enum FieldPlace<'a> {
    /// A field of the document itself, by its name.
    Own(&'a str),
    /// A field of the document that a field holds: the name of that one, and its own.
    Below(&'a str, &'a str),
    /// An element of the array that a field holds: the name of that one, and the element's index.
    Item(&'a str, u32),
}

/// A delta of the second form that sets one value or takes one out.
#[derive(Clone, Copy)]
pub struct FieldDelta<'a> {
    /// The document's `_id`.
    pub id: Elem<'a>,
    /// Where the value stands.
    pub place: FieldPlace<'a>,
    /// The value that is set. Without one what stands there is taken out.
    pub value: Option<Elem<'a>>,
}

// Whether the field of a diff of this name has the fields that are set.
fn is_set(name: &[u8]) -> bool
    ensures { result ≡ (bytes_eq name.now u_name || bytes_eq name.now i_name) }
{
    matches!(name, [b'u'] | [b'i'])
}

// Whether it has those that are taken out.
fn is_unset(name: &[u8]) -> bool
    ensures { result ≡ bytes_eq name.now d_name }
{
    matches!(name, [b'd'])
}

// Whether a field of this name marks the diff of an array.
fn is_mark(name: &[u8]) -> bool
    ensures { result ≡ bytes_eq name.now a_name }
{
    matches!(name, [b'a'])
}

// The place of the field of this name, in what the field in front holds, or in the document itself.
fn place_at<'a>(front: Option<&'a str>, name: &'a str) -> FieldPlace<'a>
    ensures { place_of result ≡ front_of (option_map (λ f. Name f.now ∷ []) front.entry) ++ Name name.now ∷ [] }
{
    match front {
        Some(field) => FieldPlace::Below(field, name),
        None => FieldPlace::Own(name),
    }
}

// The place of the field that the only field of a diff behind this front sets or takes out, and the value there.
fn field_in<'a>(
    front: Option<&'a str>,
    kind: &Elem<'a>,
) -> Option<(FieldPlace<'a>, Option<Elem<'a>>)>
    ensures { IfSome result (λ f. IsInDiff (option_map (λ t. Name t.now ∷ []) front.entry) (place_of f.0) (option_map elem_value f.1) ((kind.now.name.now, elem_value kind.now) ∷ [])) }
{
    let fields = kind.document()?;
    let field = only(&fields)?;
    let name = as_text(field.name)?;
    let place = place_at(front, name);
    if is_set(kind.name) {
        return Some((place, Some(field)));
    }
    if is_unset(kind.name) {
        return Some((place, None));
    }
    None
}

// The place of the element that the only field of an array's diff sets, and the value there. The diff's first field has
// the name `mark`.
fn item_in<'a>(
    front: &'a str,
    mark: &[u8],
    field: Elem<'a>,
) -> Option<(FieldPlace<'a>, Option<Elem<'a>>)>
    ensures { IfSome result (λ f. (v : Value) → IsInDiff (Some (Name front.now ∷ [])) (place_of f.0) (option_map elem_value f.1) ((mark.now, v) ∷ ((field.entry.name.now, elem_value field.entry) ∷ []))) }
{
    if !is_mark(mark) {
        return None;
    }
    let at = index_set(field.name)?;
    Some((FieldPlace::Item(front, at), Some(field)))
}

// The same of a diff of what the field of this name holds.
fn below_in<'a>(name: &'a [u8], kind: &Elem<'a>) -> Option<(FieldPlace<'a>, Option<Elem<'a>>)>
    ensures { IfSome result (λ f. IsOnlyField (place_of f.0) (option_map elem_value f.1) (115 ∷ name.now, elem_value kind.now)) }
{
    let front = as_text(name)?;
    let diff = kind.document()?;
    let (first, second) = one_or_both(&diff)?;
    match second {
        Some(field) => item_in(front, first.name, field),
        None => field_in(Some(front), &first),
    }
}

// The same of the only field of the document's own diff.
fn place_in<'a>(kind: &Elem<'a>) -> Option<(FieldPlace<'a>, Option<Elem<'a>>)>
    ensures { IfSome result (λ f. IsOnlyField (place_of f.0) (option_map elem_value f.1) (kind.now.name.now, elem_value kind.now)) }
{
    match behind_s(kind.name) {
        Some(name) => below_in(name, kind),
        None => field_in(None, kind),
    }
}

// The place where a delta of this document sets a value or takes one out, and the value.
fn field_of<'a>(o: &View<'a>) -> Option<(FieldPlace<'a>, Option<Elem<'a>>)>
    ensures { IfSome result (λ f. IsDelta (place_of f.0) (option_map elem_value f.1) (document o.now)) }
{
    let diff = diff_of(o)?;
    let kind = only(&diff)?;
    place_in(&kind)
}

/// The delta, where an update is one, by its operation, `o` and `o2`.
pub(crate) fn delta_at<'a>(
    op: Option<&str>,
    o: Option<Elem<'a>>,
    o2: Option<Elem<'a>>,
) -> Option<FieldDelta<'a>>
    ensures { IfSome result (λ d. IsDeltaOf d (option_map (λ t. t.now) op.entry) (document_at (option_map elem_value o.entry)) (document_at (option_map elem_value o2.entry))) }
{
    if op? != "u" {
        return None;
    }
    let o = o?.document()?;
    let o2 = o2?;
    let id = id(&o2)?;
    let (place, value) = field_of(&o)?;
    Some(FieldDelta { id, place, value })
}
