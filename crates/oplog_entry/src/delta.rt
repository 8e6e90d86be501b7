//! The touches that the diff of an update spells.
ghost use Rattle.std.specs.Prelude.{◌≡◌, ◌++◌, ◌∷◌, [], false, IfOk, OnOk, IfErr, Contains};
ghost use Rattle.std.specs.Option.{option_copied};
ghost use Rattle.bson_value.specs.Digits.{index_of as index_of_name};
ghost use Rattle.oplog_entry.specs.declared.delta.DeltaFault.TheVariants.{NoMemory};
ghost use Rattle.entry_model.specs.Edits.{mapped, Sets as Puts};
ghost use Rattle.entry_model.specs.Reads.{unset_of, set_of, length_read, diff_read};
ghost use Rattle.oplog_entry.specs.declared.delta.DiffField.TheVariants.{Length};
ghost use Rattle.bson_value.specs.declared.value.Value.{out-Value};
ghost use Rattle.doc_path.specs.declared.parts.Part.TheVariants.{Index};
ghost use Rattle.oplog_entry.specs.DiffFields.{by_kind, behind_letter, low_index, document_kind, array_kind, kind_in, at_front, diff_at, Adds, IsBad};

use bson_value::{CText, Doc, List, Value, index_of};
use doc_path::{Part, Place, Touch};
use std::alloc::{AllocError, AllocFailed, Global};

/// Why a diff was not read.
#[derive(Clone, Copy, Debug, PartialEq, Eq)]
pub(crate) enum DeltaFault {
    NoMemory,
    Bad,
}

impl From<AllocError> for DeltaFault {
    ghost from_gives = { λ _ e. e ≡ NoMemory };

    fn from(_e: AllocError) -> DeltaFault {
        DeltaFault::NoMemory
    }
}

impl<T: Drop> From<AllocFailed<T>> for DeltaFault {
    ghost from_gives = { λ _ e. e ≡ NoMemory };

    fn from(_e: AllocFailed<T>) -> DeltaFault {
        DeltaFault::NoMemory
    }
}

/// What a field of a diff says.
#[derive(Drop)]
pub(crate) enum DiffField {
    /// That the diff is an array's.
    Mark,
    /// The length of the array.
    Length,
    /// Names that are removed.
    Unsets,
    /// Names that are set.
    Sets { fresh: bool },
    /// The element at this index.
    At(u32),
    /// The diff of what stands at this part.
    Below(Part),
}

fn behind_s(name: &str) -> Option<&str>
    ensures { option_copied result ≡ behind_letter 115 name.now }
{
    name.strip_prefix('s')
}

fn behind_u(name: &str) -> Option<&str>
    ensures { option_copied result ≡ behind_letter 117 name.now }
{
    name.strip_prefix('u')
}

fn low_index(name: &str) -> Option<u32>
    ensures { result ≡ low_index (index_of_name name.now) }
{
    match index_of(name) {
        Some(at) => {
            if at < 4294967296 {
                Some(at as u32)
            } else {
                None
            }
        }
        None => None,
    }
}

fn document_kind(alloc: Global, name: &CText) -> Result<Option<DiffField>, AllocError>
    ensures { IfOk result (λ k. k ≡ document_kind name.now) }
{
    let text = name.as_str();
    if let Some(rest) = behind_s(text) {
        return Ok(Some(DiffField::Below(Part::Name(CText::of_text(alloc, rest)?))));
    }
    if text == "d" {
        return Ok(Some(DiffField::Unsets));
    }
    if text == "u" {
        return Ok(Some(DiffField::Sets { fresh: false }));
    }
    if text == "i" {
        return Ok(Some(DiffField::Sets { fresh: true }));
    }
    Ok(None)
}

fn array_kind(text: &str) -> Option<DiffField>
    ensures { result ≡ array_kind text.now }
{
    if text == "a" {
        return Some(DiffField::Mark);
    }
    if text == "l" {
        return Some(DiffField::Length);
    }
    if let Some(rest) = behind_u(text) {
        return match low_index(rest) {
            Some(at) => Some(DiffField::At(at)),
            None => None,
        };
    }
    match low_index(behind_s(text)?) {
        Some(at) => Some(DiffField::Below(Part::Index(at))),
        None => None,
    }
}

fn kind_in(alloc: Global, array: bool, name: &CText) -> Result<Option<DiffField>, AllocError>
    ensures { IfOk result (λ k. k ≡ kind_in array name.now) }
{
    if array {
        Ok(array_kind(name.as_str()))
    } else {
        document_kind(alloc, name)
    }
}

/// The place of these parts.
fn place_of(alloc: Global, first: &Part, others: &[Part]) -> Result<Place, AllocError>
    ensures { IfOk result (λ place. place ≡ first.now ∷ others.now) }
{
    let mut place = Place::new(alloc, first.copy(alloc)?)?;
    for other in others {
        place.push(other.copy(alloc)?)?;
    }
    Ok(place)
}

/// The place of a part behind a front.
fn place_behind(alloc: Global, front: &[Part], part: Part) -> Result<Place, AllocError>
    ensures { IfOk result (λ place. place ≡ front.now ++ part ∷ []) }
{
    match front.split_first() {
        None => Place::new(alloc, part),
        Some((first, others)) => {
            let mut place = place_of(alloc, first, others)?;
            place.push(part)?;
            Ok(place)
        }
    }
}

fn push_unsets(
    alloc: Global,
    front: &[Part],
    names: &Doc,
    touches: &mut List<Touch>,
) -> Result<(), AllocError>
    ensures { OnOk result (touches.new ≡ touches.old ++ mapped (at_front front.now) (mapped unset_of names.now)) }
{
    for (name, _) in names.entries() {
        let place = place_behind(alloc, front, Part::Name(name.copy(alloc)?))?;
        touches.push(Touch::Unset { place })?;
    }
    Ok(())
}

fn push_sets(
    alloc: Global,
    front: &[Part],
    fields: &Doc,
    fresh: bool,
    touches: &mut List<Touch>,
) -> Result<(), AllocError>
    ensures { OnOk result (touches.new ≡ touches.old ++ mapped (at_front front.now) (mapped (set_of fresh) fields.now)) }
{
    for (name, value) in fields.entries() {
        let place = place_behind(alloc, front, Part::Name(name.copy(alloc)?))?;
        let value = value.copy(alloc)?;
        touches.push(Touch::Set {
            place,
            value,
            fresh,
        })?;
    }
    Ok(())
}

/// The place that a front is.
fn whole_place(alloc: Global, front: &[Part]) -> Result<Place, DeltaFault>
    requires { front.now ≡ [] → ⊥ }
    ensures ok { IfOk result (λ place. place ≡ front.now) }
    ensures err { IfErr result (λ e. e ≡ NoMemory) }
{
    match front.split_first() {
        None => Err(DeltaFault::NoMemory),
        Some((first, others)) => Ok(place_of(alloc, first, others)?),
    }
}

fn push_length(
    alloc: Global,
    front: &[Part],
    value: &Value,
    touches: &mut List<Touch>,
) -> Result<(), DeltaFault>
    requires { front.now ≡ [] → ⊥ }
    ensures ok { OnOk result (Adds front.now (length_read (out-Value value.now)) touches.old touches.new) }
    ensures err { IfErr result (λ e. IsBad e (length_read (out-Value value.now))) }
{
    let Value::Int(len) = value else {
        return Err(DeltaFault::Bad);
    };
    if *len < 0 {
        return Err(DeltaFault::Bad);
    }
    let len = *len as u32;
    let place = whole_place(alloc, front)?;
    touches.push(Touch::Resize { place, len })?;
    Ok(())
}

fn push_element(
    alloc: Global,
    front: &[Part],
    at: u32,
    value: &Value,
    touches: &mut List<Touch>,
) -> Result<(), AllocError>
    ensures { OnOk result (touches.new ≡ touches.old ++ at_front front.now ([], Puts (Index at) value.now false) ∷ []) }
{
    let place = place_behind(alloc, front, Part::Index(at))?;
    let value = value.copy(alloc)?;
    let fresh = false;
    touches.push(Touch::Set {
        place,
        value,
        fresh,
    })?;
    Ok(())
}

/// The touches of one field of a diff.
#[cycle(diff)]
fn field(
    alloc: Global,
    levels: usize,
    front: &[Part],
    kind: DiffField,
    value: &Value,
    touches: &mut List<Touch>,
) -> Result<(), DeltaFault>
    requires { kind ≡ Length → front.now ≡ [] → ⊥ }
    ensures ok { OnOk result (Adds front.now (by_kind (diff_read levels) kind value.now) touches.old touches.new) }
    ensures err { IfErr result (λ e. IsBad e (by_kind (diff_read levels) kind value.now)) }
{
    match kind {
        DiffField::Mark => Ok(()),
        DiffField::Length => push_length(alloc, front, value, touches),
        DiffField::Unsets => {
            let Value::Object(names) = value else {
                return Err(DeltaFault::Bad);
            };
            Ok(push_unsets(alloc, front, names, touches)?)
        }
        DiffField::Sets { fresh } => {
            let Value::Object(fields) = value else {
                return Err(DeltaFault::Bad);
            };
            Ok(push_sets(alloc, front, fields, fresh, touches)?)
        }
        DiffField::At(at) => Ok(push_element(alloc, front, at, value, touches)?),
        DiffField::Below(part) => {
            let Value::Object(below) = value else {
                return Err(DeltaFault::Bad);
            };
            let place = place_behind(alloc, front, part)?;
            diff(alloc, levels, place.parts().as_slice(), below, touches)
        }
    }
}

/// The touches of a diff of at most `levels` levels, which stand behind a front.
#[cycle(diff)]
pub(crate) fn diff(
    alloc: Global,
    levels: usize,
    front: &[Part],
    doc: &Doc,
    touches: &mut List<Touch>,
) -> Result<(), DeltaFault>
    ensures ok { OnOk result (Adds front.now (diff_at front.now levels doc.now) touches.old touches.new) }
    ensures err { IfErr result (λ e. IsBad e (diff_at front.now levels doc.now)) }
{
    let array = doc.get("a").is_some();
    if levels == 0 {
        return Err(DeltaFault::Bad);
    }
    if array && front.is_empty() {
        return Err(DeltaFault::Bad);
    }
    for (name, value) in doc.entries() {
        let Some(kind) = kind_in(alloc, array, name)? else {
            return Err(DeltaFault::Bad);
        };
        field(alloc, levels - 1, front, kind, value, touches)?;
    }
    Ok(())
}
