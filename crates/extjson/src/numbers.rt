//! Whole numbers as texts: a minus sign or none, and digits without a leading zero.
ghost use Rattle.std.specs.Prelude.{◌≡◌, ◌^◌, true};
ghost use Rattle.std.specs.List.{list_all};
ghost use Rattle.std.specs.Char.{is_ascii_digit};
ghost use Rattle.extjson.specs.Numbers.{is_natural, is_whole, whole_number, in_range, as_count};

fn are_digits(text: &[u8]) -> bool
    ensures { result ≡ list_all is_ascii_digit text.now }
{
    text.iter().all(|c| c.is_ascii_digit())
}

#[tactic(auto, unfolding(crate::specs::Numbers::is_natural))]
fn is_natural(digits: &[u8]) -> bool
    ensures { result ≡ is_natural digits.now }
{
    match digits {
        [] => false,
        [first, rest @ ..] => {
            if *first == b'0' {
                rest.is_empty()
            } else {
                are_digits(digits)
            }
        }
    }
}

#[tactic(auto, unfolding(crate::specs::Numbers::is_whole))]
pub(crate) fn is_whole(text: &[u8]) -> bool
    ensures { result ≡ is_whole text.now }
{
    match text {
        [] => false,
        [first, rest @ ..] => {
            if *first == b'-' {
                is_natural(rest)
            } else {
                is_natural(text)
            }
        }
    }
}

/// The number that the text writes, where it fits.
pub(crate) fn to_long(text: &str) -> Option<i64>
    requires { is_whole text.now ≡ true }
    ensures { result ≡ in_range (2 ^ 63) (whole_number text.now) }
{
    match text.parse::<i64>() {
        Ok(n) => Some(n),
        Err(_) => None,
    }
}

/// The same as an `i32`.
pub(crate) fn to_int(text: &str) -> Option<i32>
    requires { is_whole text.now ≡ true }
    ensures { result ≡ in_range (2 ^ 31) (whole_number text.now) }
{
    match text.parse::<i32>() {
        Ok(n) => Some(n),
        Err(_) => None,
    }
}

/// The same as a `u32`.
pub(crate) fn to_count(text: &str) -> Option<u32>
    requires { is_whole text.now ≡ true }
    ensures { result ≡ as_count (whole_number text.now) }
{
    let Some(n) = to_long(text) else {
        return None;
    };
    match u32::try_from(n) {
        Ok(n) => Some(n),
        Err(_) => None,
    }
}
