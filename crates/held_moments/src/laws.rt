//! The laws.
ghost use Rattle.held_moments.specs.Laws.{MomentsAreFaultless, TakenAreFaultless};

use held_indexes::held_are_faultless;

/// Just before each limit, or at End where that is earlier, the indexes of a schedule's collections have no fault: also
/// where the limit stands between the two writes of an insert that makes its collection.
pub fn moments_are_faultless()
    ensures { MomentsAreFaultless }
{
    held_are_faultless();
}

/// Of a state without a fault each part that a filter takes has none.
#[tactic(auto, using(crate::proofs::Taken::taken_faultless))]
pub fn taken_are_faultless()
    ensures { TakenAreFaultless }
{}
