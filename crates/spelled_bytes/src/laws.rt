//! The laws of the bytes of spellings.
ghost use Rattle.spelled_bytes.specs.Laws.{DocumentsAreBytes, TextsAreBytes};

/// A text in UTF-8 is of bytes.
pub fn texts_are_bytes()
    ensures { TextsAreBytes }
{}

/// The spelling of a well-formed document is of bytes, whatever its length.
pub fn documents_are_bytes()
    ensures { DocumentsAreBytes }
{}
