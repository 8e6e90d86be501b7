//! The law.
ghost use Rattle.held_indexes.specs.Laws.{HeldAreFaultless};

/// Where each unique index of rows has no key of two documents, and no document has two fields of an index that meet an
/// array, the count of their keys finds no fault.
#[tactic(auto, using(crate::proofs::Collections::held_are_faultless))]
pub fn held_are_faultless()
    ensures { HeldAreFaultless }
{}
