//! The outermost names of wrappers.
ghost use Rattle.std.specs.Prelude.{◌≡◌, ◌<◌, length, is_some};
ghost use Rattle.extjson.specs.Wrappers.{wrapper_of};

// Whether a name of fewer than seven bytes is in the table.
#[tactic(auto, unfolding(extjson::specs::Wrappers::wrapper_of, extjson::specs::Wrappers::outermost_names))]
fn in_short_table(name: &str) -> bool
    requires { length name.now < 7 }
    ensures { result ≡ is_some (wrapper_of name.now) }
{
    match name {
        "$oid" | "$date" | "$code" => true,
        _ => false,
    }
}

// Whether the name is in the table.
#[tactic(auto, unfolding(extjson::specs::Wrappers::wrapper_of, extjson::specs::Wrappers::outermost_names))]
fn in_table(name: &str) -> bool
    ensures { result ≡ is_some (wrapper_of name.now) }
{
    match name {
        "$numberInt" | "$numberLong" | "$numberDouble" | "$numberDoubleBits" => true,
        "$numberDecimal" | "$numberDecimalBits" | "$binary" | "$undefined" => true,
        "$oid" | "$date" | "$regularExpression" | "$dbPointer" | "$code" | "$symbol" => true,
        "$timestamp" | "$minKey" | "$maxKey" => true,
        _ => false,
    }
}

/// Whether an object with this name may stand for another value. All such names begin with a dollar
/// sign, and most names don't. Most that do are short names of operators.
pub(crate) fn names_wrapper(name: &str) -> bool
    ensures { result ≡ is_some (wrapper_of name.now) }
{
    match name.as_bytes().first() {
        Some(36) => {
            if name.len() < 7 {
                in_short_table(name)
            } else {
                in_table(name)
            }
        }
        _ => false,
    }
}
