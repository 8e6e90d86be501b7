//! Documents that are kept as their bytes.
ghost use Rattle.std.specs.Prelude.{◌≡◌, None, IfOk};
ghost use Rattle.std.specs.Result.{result_err};
ghost use Rattle.bson_check.specs.Spells.{SpellsWithin};
ghost use Rattle.bson_check.specs.Faults.{first_fault};

use crate::view::View;
use bson_check::{BsonFault, MAX_DOCUMENT_BYTES, MAX_LEVELS, check};
use bson_value::Bytes;
use std::alloc::{AllocError, Global};

/// The bytes of one document of at most 16,793,600 bytes and 200 levels, in memory of their own. Its
/// view costs nothing.
#[derive(Debug, Drop)]
pub struct DocumentBytes {
    bytes: Bytes,
    ghost checked: { first_fault 16793600 200 bytes ≡ None },
}

impl DocumentBytes {
    ghost use Rattle.bson_view.specs.Kept.{kept_bytes, kept_document};
    ghost use Rattle.bson_view.specs.Views.{view_bytes, document};

    /// The bytes, where all of them are one document within the limits. Else the first fault from the
    /// left, with its place in the bytes, which are let go.
    pub fn check(bytes: Bytes) -> Result<DocumentBytes, BsonFault>
        ensures bytes { IfOk result (λ d. kept_bytes d ≡ bytes) }
        ensures fault { result_err result ≡ first_fault 16793600 200 bytes }
    {
        match check(bytes.as_slice(), MAX_DOCUMENT_BYTES, MAX_LEVELS) {
            Ok(_) => Ok(DocumentBytes { bytes }),
            Err(fault) => Err(fault),
        }
    }

    /// Bytes that were checked, in their memory.
    pub fn of_checked(bytes: Bytes) -> DocumentBytes
        requires { first_fault 16793600 200 bytes ≡ None }
        ensures { kept_bytes result ≡ bytes }
    {
        DocumentBytes { bytes }
    }

    /// A copy of bytes that were checked.
    pub fn of(alloc: Global, bytes: &[u8]) -> Result<DocumentBytes, AllocError>
        requires { first_fault 16793600 200 bytes.now ≡ None }
        ensures { IfOk result (λ d. kept_bytes d ≡ bytes.now) }
    {
        let bytes = Bytes::of(alloc, bytes)?;
        Ok(DocumentBytes { bytes })
    }

    /// The bytes, and that they are the document.
    pub fn as_slice(&self) -> &[u8]
        ensures bytes { result.now ≡ kept_bytes self.now }
        ensures faultless { first_fault 16793600 200 result.now ≡ None }
        ensures spelled { SpellsWithin 16793600 200 result.now (kept_document self.now) }
    {
        self.bytes.as_slice()
    }

    /// The view of the document.
    pub fn view(&self) -> View<'_>
        ensures bytes { view_bytes result ≡ kept_bytes self.now }
        ensures document { document result ≡ kept_document self.now }
    {
        View::of(self.bytes.as_slice())
    }

    /// The bytes, in their memory.
    pub fn into_bytes(self) -> Bytes
        ensures { result ≡ kept_bytes self }
    {
        self.bytes
    }
}
