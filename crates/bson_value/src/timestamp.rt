//! The order of timestamps.
ghost use Rattle.std.specs.Prelude.{◌≡◌, Some};
ghost use Rattle.std.specs.Ordering.{nat_cmp};
ghost use Rattle.std.proofs.Common.{refl, rules};
ghost use Rattle.std.specs.Cmp.Rules.{comparing};
ghost use Rattle.std.specs.Cmp.{partial_order_from_own_ties};
ghost use Rattle.bson_value.specs.Timestamp.{stamp_cmp, stamp_number};

use crate::value::Ts;
use std::cmp::Ordering;

impl Ord for Ts {
    ghost cmp = { stamp_cmp };

    ghost total = { Prim.search (comparing, rules) };

    ghost matches_partial_cmp = { λ a b. refl };

    ghost matches_eq = { Prim.search (comparing, rules) };

    fn cmp(&self, other: &Ts) -> Ordering {
        self.secs.cmp(&other.secs).then(self.inc.cmp(&other.inc))
    }
}

impl PartialOrd for Ts {
    ghost partial_cmp = { λ a b. Some (stamp_cmp a b) };

    ghost laws = { partial_order_from_own_ties (Prim.search (comparing, rules)) (Prim.search (comparing, rules)) };

    fn partial_cmp(&self, other: &Ts) -> Option<Ordering> {
        Some(self.cmp(other))
    }
}

impl Ts {
    /// Does nothing. Its caller learns that the two stand in the order of their numbers.
    pub fn is_ordered_by_number(self, other: Ts)
        ensures { stamp_cmp self other ≡ nat_cmp (stamp_number self) (stamp_number other) }
    {
        let _ = (self.secs, self.inc, other.secs, other.inc);
    }
}
