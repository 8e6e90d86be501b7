//! The laws of prints.
ghost use Rattle.printed_texts.specs.Laws.{PrintsAreTexts, StringsAreShort};

/// The print of a well-formed value is UTF-8, whatever its levels.
pub fn prints_are_texts()
    ensures { PrintsAreTexts }
{}

/// A string prints between two quotes, with six bytes at most for each of its own.
pub fn strings_are_short()
    ensures { StringsAreShort }
{}
