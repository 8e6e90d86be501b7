//! A field of a document that is set in its bytes, or taken out of them.
ghost use Rattle.std.specs.Prelude.{◌≡◌, ◌↔◌, ◌≤◌, length, IfOk, IfSome, IsSome};
ghost use Rattle.containers.specs.Entries.{put, without};
ghost use Rattle.bson_value.specs.Levels.{levels_of};
ghost use Rattle.bson_view.specs.Kept.{kept_bytes, kept_document};
ghost use Rattle.bson_view.specs.Views.{document, view_bytes};
ghost use Rattle.bson_value.specs.Spelling.{document_text};
ghost use Rattle.spliced_documents.specs.Splicing.{cut, spliced, Fits, IsCut, IsShortSpelling, IsSpliced};

use crate::levels::is_shallow;
use crate::pieces::{MAX_BYTES, MAX_LEVELS, are_bytes, are_well_formed, around, counted, joined};
use bson_check::faultless_if_spelled;
use bson_value::{Bytes, CText, Value};
use bson_view::{DocumentBytes, View, one_document};
use std::alloc::{AllocError, Global};

fn spliced(
    alloc: Global,
    view: &View<'_>,
    name: &CText,
    value: &Value,
) -> Result<Option<Bytes>, AllocError>
    requires { levels_of (document view.now) ≤ 100 }
    ensures some { IfOk result (λ o. IfSome o (IsSpliced name.now value.now (view_bytes view.now) (document view.now))) }
    ensures fits { IfOk result (λ o. IsSome o ↔ Fits name.now value.now (view_bytes view.now)) }
{
    if !is_shallow(value, MAX_LEVELS - 1) {
        return Ok(None);
    }
    are_well_formed(name, value);
    let (front, rest) = around(view, name.as_str());
    counted(alloc, front, name, value, rest)
}

/// The document with the value in the field of this name: in its place, or else last. `None` exactly where
/// that has more than 16,777,216 bytes or 100 levels. All other bytes are copied as they lie.
pub fn with_field(
    alloc: Global,
    view: &View<'_>,
    name: &CText,
    value: &Value,
) -> Result<Option<DocumentBytes>, AllocError>
    requires { levels_of (document view.now) ≤ 100 }
    ensures bytes { IfOk result (λ o. IfSome o (λ b. kept_bytes b ≡ spliced name.now value.now (view_bytes view.now))) }
    ensures document { IfOk result (λ o. IfSome o (λ b. kept_document b ≡ put name.now value.now (document view.now))) }
    ensures fits { IfOk result (λ o. IsSome o ↔ Fits name.now value.now (view_bytes view.now)) }
    // Of a spelling it makes one.
    ensures spelling { view_bytes view.now ≡ document_text (document view.now) → IfOk result (λ o. IfSome o (λ b. IsShortSpelling (kept_bytes b) (kept_document b))) }
{
    let Some(bytes) = spliced(alloc, view, name, value)? else {
        return Ok(None);
    };
    are_bytes(view.bytes());
    faultless_if_spelled();
    one_document();
    Ok(Some(DocumentBytes::of_checked(bytes)))
}

fn cut(alloc: Global, view: &View<'_>, name: &str) -> Result<Option<Bytes>, AllocError>
    requires { levels_of (document view.now) ≤ 100 }
    ensures some { IfOk result (λ o. IfSome o (IsCut name.now (view_bytes view.now) (document view.now))) }
    ensures fits { IfOk result (λ o. IsSome o ↔ (length (cut name.now (view_bytes view.now)) ≤ 16777216)) }
{
    let (front, rest) = around(view, name);
    if front.len() + rest.len() + 4 > MAX_BYTES {
        return Ok(None);
    }
    Ok(Some(joined(alloc, front, rest)?))
}

/// The document without the field of this name, or as it is where there is none. `None` exactly where that
/// has more than 16,777,216 bytes. All other bytes are copied as they lie.
pub fn without_field(
    alloc: Global,
    view: &View<'_>,
    name: &str,
) -> Result<Option<DocumentBytes>, AllocError>
    requires { levels_of (document view.now) ≤ 100 }
    ensures bytes { IfOk result (λ o. IfSome o (λ b. kept_bytes b ≡ cut name.now (view_bytes view.now))) }
    ensures document { IfOk result (λ o. IfSome o (λ b. kept_document b ≡ without name.now (document view.now))) }
    ensures fits { IfOk result (λ o. IsSome o ↔ (length (cut name.now (view_bytes view.now)) ≤ 16777216)) }
    // Of a spelling it makes one.
    ensures spelling { view_bytes view.now ≡ document_text (document view.now) → IfOk result (λ o. IfSome o (λ b. IsShortSpelling (kept_bytes b) (kept_document b))) }
{
    let Some(bytes) = cut(alloc, view, name)? else {
        return Ok(None);
    };
    are_bytes(view.bytes());
    faultless_if_spelled();
    one_document();
    Ok(Some(DocumentBytes::of_checked(bytes)))
}
