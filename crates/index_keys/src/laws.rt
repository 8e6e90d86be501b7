//! The laws of keys and of definitions. Each function does nothing, and its caller learns the law.
ghost use Rattle.index_keys.specs.Laws.{AlikeKeys, AlikeParallel};
ghost use Rattle.index_keys.specs.Definition.{NormalOnce};
ghost use Rattle.index_keys.specs.Faults.{DottedParts};
ghost use Rattle.index_keys.specs.Texts.{OneText, TextsOnce, TextsAreKeys};

/// Documents that are equal up to the order of fields have the same keys, and are parallel alike.
pub fn alike_documents()
    ensures keys { AlikeKeys }
    ensures parallel { AlikeParallel }
{}

/// Keys of one text are one key, where a length can hold how long it is. `held_is_well_formed`
/// tells of each document what the law asks of it.
pub fn one_text()
    ensures { OneText }
{}

/// The texts of a document's keys are distinct, and they are those of its keys.
pub fn texts_of_keys()
    ensures once { TextsOnce }
    ensures all { TextsAreKeys }
{}

/// The normal form of a definition is its own normal form.
pub fn normal_once()
    ensures { NormalOnce }
{}

/// The text of a path is the one that it was read from.
#[tactic(auto, using(crate::proofs::Dots::dotted_parts))]
pub fn dotted_parts()
    ensures { DottedParts }
{}
