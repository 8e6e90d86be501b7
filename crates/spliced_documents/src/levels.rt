//! Whether a value has few levels.
ghost use Rattle.std.specs.Prelude.{◌≡◌, ◌+◌, ◌≤◌, false, length, map, IsTrue};
ghost use Rattle.bson_value.specs.Levels.{largest, levels_in};
ghost use Rattle.bson_value.specs.Spelling.{items_of, spelled};

use bson_check::MAX_DOCUMENT_BYTES;
use bson_value::Value;

/// Whether the value has at most so many levels. Of one with more bytes than a document may have it says
/// no at times.
#[cycle(levels)]
pub(crate) fn is_shallow(value: &Value, levels: usize) -> bool
    ensures shallow { IsTrue result → levels_in value.now ≤ levels }
    ensures deep { result ≡ false → length (spelled value.now) ≤ 16793600 → levels_in value.now ≤ levels → ⊥ }
{
    match value {
        Value::Object(doc) => doc.fits(MAX_DOCUMENT_BYTES, levels),
        Value::Array(items) => are_shallow(items.as_slice(), levels),
        Value::ScopedCode { scope, .. } => scope.fits(MAX_DOCUMENT_BYTES, levels),
        _ => true,
    }
}

// The same of an array of these items.
#[cycle(levels)]
fn are_shallow(items: &[Value], levels: usize) -> bool
    ensures shallow { IsTrue result → largest (map levels_in items.now) + 1 ≤ levels }
    ensures deep { result ≡ false → length (items_of items.now) + 5 ≤ 16793600 → largest (map levels_in items.now) + 1 ≤ levels → ⊥ }
{
    if levels == 0 {
        return false;
    }
    for i in 0..items.len() {
        if !is_shallow(&items[i], levels - 1) {
            return false;
        }
    }
    true
}
