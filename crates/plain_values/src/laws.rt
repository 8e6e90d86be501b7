//! The laws of what Extended JSON reads.
ghost use Rattle.plain_values.specs.Laws.{JsonIsFormed, ReadIsFormed, ReadIsPlain};

/// A JSON text spells a well-formed tree.
pub fn json_is_formed()
    ensures { JsonIsFormed }
{}

/// What a well-formed tree reads as is well-formed: its texts are UTF-8, its names are distinct and have no zero, and
/// its numbers and runs of bytes have their ranges and lengths.
pub fn read_is_formed()
    ensures { ReadIsFormed }
{}

/// No document in what is read, scopes of code included, has an outermost name of a wrapper: an object with such a name
/// is read as its wrapper, or refused.
pub fn read_is_plain()
    ensures { ReadIsPlain }
{}
