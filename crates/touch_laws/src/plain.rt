//! Laws of plain changes: what `set`, `unset` and `resize` do is what replay of the second form does.
ghost use Rattle.touch_laws.specs.Plain.{SameWay, PlainIsPlayed, SetFitsRoom, SetIsDone, UnsetFitsField, UnsetIsDone, UnsetElementIsNull, ResizeFitsArray, ResizeIsDone};

/// A place without an index of 2,097,152 or more leads in replay of the second form where it leads in
/// the document, and a change at it gives what playing its touch gives.
pub fn plain_changes_are_played()
    ensures way { SameWay }
    ensures played { PlainIsPlayed }
{}

/// Where a value may be set, its touch fits, and has nothing left to do when it is set.
pub fn set_is_recorded()
    ensures fits { SetFitsRoom }
    ensures done { SetIsDone }
{}

/// The same of a field that is unset. An element that is unset is one that is set to null.
pub fn unset_is_recorded()
    ensures fits { UnsetFitsField }
    ensures done { UnsetIsDone }
    ensures element { UnsetElementIsNull }
{}

/// The same of an array that gets a new length. To a greater one the touch doesn't fit.
pub fn resize_is_recorded()
    ensures fits { ResizeFitsArray }
    ensures done { ResizeIsDone }
{}
