//! Indexes of arrays, and their names.
ghost use Rattle.std.specs.Prelude.{◌≡◌, Some, IfSome, IfNone, ◌<◌, false};
ghost use Rattle.doc_path.specs.Touch.{limit, small};
ghost use Rattle.bson_value.specs.Digits.{index_of as index_of_name};

use bson_value::index_of;

/// Indexes that replay takes, and lengths that it gives, are below this.
pub const INDEX_LIMIT: usize = 2_097_152;

/// The index whose name this is, in decimal digits without a zero in front. `None` exactly where the
/// name is no index below 2,097,152.
pub fn small_index(name: &str) -> Option<usize>
    ensures some { IfSome result (λ n. (index_of_name name.now ≡ Some n) × (n < limit)) }
    ensures none { IfNone result (small (index_of_name name.now) ≡ false) }
{
    match index_of(name) {
        Some(at) if at < INDEX_LIMIT => Some(at),
        _ => None,
    }
}
