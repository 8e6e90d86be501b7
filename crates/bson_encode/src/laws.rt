//! The laws of spelling. Each function does nothing, and its caller learns the law.
ghost use Rattle.bson_encode.specs.Numbered.{NumberedSpelling, OneNumberedSpelling};
ghost use Rattle.bson_encode.specs.Laws.{EqualKeys, SpellingSpells};

/// The spelling of a document is in the grammar, and spells it, where a length can hold how long it is.
pub fn spelling_spells()
    ensures { SpellingSpells }
{}

/// Values whose keys are equal are equal, where a length can hold how long the spelling is.
/// `Value::is_well_formed` tells of each value what the law asks of it.
pub fn equal_keys()
    ensures { EqualKeys }
{}

/// The spelling of a document has the array names "0", "1" and so on, where a length can hold how long
/// it is.
pub fn numbered_spelling()
    ensures { NumberedSpelling }
{}

/// Bytes that spell a document with the array names "0", "1" and so on are what `encode` writes of it.
pub fn one_numbered_spelling()
    ensures { OneNumberedSpelling }
{}
