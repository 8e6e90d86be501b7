//! Laws of updates. Each function does nothing, and its caller learns the law.
ghost use Rattle.update_model.specs.Laws.{SameIsEqual, UpdateIsRecorded, NoneIsLeftAtOnce, NoTouchesNoChange};

/// The test by which operators compare values answers yes exactly of equal ones.
#[tactic(auto, using(crate::proofs::SameValues::same_equal))]
pub fn equality_is_tested()
    ensures { SameIsEqual }
{}

/// The touches of an accepted update record it, where a Set of the whole array stands for each length.
#[tactic(auto, using(crate::proofs::Recording::update_is_recorded))]
pub fn update_is_recorded()
    ensures { UpdateIsRecorded }
{}

/// Replay leaves none of the touches of an update at once, whose operators were read from a document.
#[tactic(auto, using(crate::proofs::NoneLeftAtOnce::none_is_left))]
pub fn none_is_left_at_once()
    ensures { NoneIsLeftAtOnce }
{}

/// Where such an update has no touch, the document is as before.
#[tactic(auto, using(crate::proofs::NoTouches::no_touches))]
pub fn no_touches_no_change()
    ensures { NoTouchesNoChange }
{}
