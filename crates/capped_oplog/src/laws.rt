//! What the ring keeps, as the contract of a function that does nothing.
ghost use Rattle.capped_oplog.specs.Ring.{KeepsLongest};

/// After any list of pushes, each followed by trims until one takes nothing, the ring has the longest
/// end of the pushed entries that has at most `cap` entries and, where it has more than one, at most
/// the limit in bytes.
pub fn keeps_the_longest_suffix()
    ensures { KeepsLongest }
{}
