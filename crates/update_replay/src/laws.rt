//! Laws of updates that are replayed. Each function does nothing, and its caller learns the law.
ghost use Rattle.update_replay.specs.Plain.{TouchesArePlain};
ghost use Rattle.update_replay.specs.Laws.{NamesRecord, FirstFormRecords, FirstFormReplays, SecondFormRecords, SecondFormReplays};

/// What is recorded in the second form is recorded in the first one, with the names of digits for
/// indexes.
pub fn names_record()
    ensures { NamesRecord }
{}

/// The touches of an accepted update in the first form record it. Played on the document before it, they
/// give one that is equal to the document after it up to the order of fields. The operators are those of
/// a document.
pub fn first_form_is_replayed()
    ensures records { FirstFormRecords }
    ensures replays { FirstFormReplays }
{}

/// The same in the second form, with the touches as they are: no operator changes the other elements of an
/// array that was cut.
pub fn second_form_is_replayed()
    ensures records { SecondFormRecords }
    ensures replays { SecondFormReplays }
{}

/// The touches of an accepted update can be written in either form: their places have names without dots, only a field
/// with a name is new, and where a length is an array stands. The document has at most 100 levels.
pub fn touches_are_plain()
    ensures { TouchesArePlain }
{}
