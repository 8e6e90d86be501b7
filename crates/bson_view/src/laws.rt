//! The laws of what bytes mean. Each function does nothing, and its caller learns the law.
ghost use Rattle.bson_view.specs.Meaning.{LeafSpelledOnce, OneDocument, OneValue};

/// Bytes that spell a document mean that one.
pub fn one_document()
    ensures { OneDocument }
{}

/// Bytes that are a value of a type mean that one.
pub fn one_value()
    ensures { OneValue }
{}

/// A value that holds no document and no array has one spelling.
pub fn leaf_spelled_once()
    ensures { LeafSpelledOnce }
{}
