//! The order of names.
ghost use Rattle.std.specs.Prelude.{◌≡◌};
ghost use Rattle.std.specs.Cmp.Lexicographic.{slice_cmp};
ghost use Rattle.std.specs.Ordering.{nat_cmp};

use byte_order::order;
use std::cmp::Ordering;

/// The order of two names by their bytes. The names of a document mostly differ in their first ones.
#[inline]
pub(crate) fn order_of_names(a: &[u8], b: &[u8]) -> Ordering
    ensures { result ≡ slice_cmp nat_cmp a.now b.now }
{
    if a.is_empty() || b.is_empty() {
        return order(a, b);
    }
    let (x, y) = (a[0], b[0]);
    if x == y {
        return order(a, b);
    }
    x.cmp(&y)
}
