//! The forms of a listing.

/// How documents are listed.
#[derive(Clone, Copy, Debug, PartialEq, Eq)]
pub enum ListForm {
    /// By their bytes, in lower-case hexadecimal.
    Hex,
    /// As canonical Extended JSON, with doubles and decimals by their bits.
    Json,
}
