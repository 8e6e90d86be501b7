//! The laws of counts and of indexes. Each function does nothing, and its caller learns the law.
ghost use Rattle.index_build.specs.Laws.{SameCounts, SameFaults, NumbersAreTold, BuiltEmpty, BuiltWith, BuiltWithout, BuildsAreCounted, StaysApart, ApartWithout};

use state_model::same_is_shown_alike;

/// States that are equal up to the order of fields have the same numbers, and a fault in both or in neither.
pub fn same_states()
    ensures counts { SameCounts }
    ensures faults { SameFaults }
{
    same_is_shown_alike();
}

/// The number that counts tell of an index is that of its definition over the documents of its collection.
#[tactic(auto, using(crate::proofs::Told::numbers_are_told))]
pub fn numbers_are_told()
    ensures { NumbersAreTold }
{}

/// What an index makes of documents that come and go is what a build makes of those that are in, and it
/// has as many pairs as are counted.
pub fn kept_is_built()
    ensures empty { BuiltEmpty }
    ensures with { BuiltWith }
    ensures without { BuiltWithout }
    ensures counted { BuildsAreCounted }
{}

/// A unique index holds on, where no other document has a key of one that is taken in.
pub fn holds_on()
    ensures with { StaysApart }
    ensures without { ApartWithout }
{}
