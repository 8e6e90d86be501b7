//! Indexes and their names.
ghost use Rattle.std.specs.Prelude.{◌≡◌, ℕ, ◌≤◌, ◌^◌, ◌↔◌, IsTrue, Some, IfSome, IfNone};
ghost use Rattle.bson_value.specs.Digits.{index_of as index_of_name, read_on, digits};

// Whether the bytes are the digits of the number.
fn are_digits(number: usize, bytes: &[u8]) -> bool
    ensures { IsTrue result ↔ (bytes.now ≡ digits number) }
{
    match bytes.split_last() {
        None => false,
        Some((last, front)) => {
            if *last as usize != 48 + number % 10 {
                false
            } else if number < 10 {
                front.is_empty()
            } else {
                are_digits(number / 10, front)
            }
        }
    }
}

// The number that the bytes write, where it is below 2^64.
fn number_of(bytes: &[u8]) -> Option<usize>
    ensures some { IfSome result (λ n. read_on 0 bytes.now ≡ n) }
    ensures none { IfNone result (2 ^ 64 ≤ read_on 0 bytes.now) }
{
    let mut number: usize = 0;
    for byte in bytes {
        let digit = byte.saturating_sub(48) as usize;
        number = number.checked_mul(10)?.checked_add(digit)?;
    }
    Some(number)
}

/// The index whose name this is, where it is below 2^64.
pub fn index_of(name: &str) -> Option<usize>
    ensures some { IfSome result (λ n. index_of_name name.now ≡ Some n) }
    ensures none { IfNone result ((n : ℕ) → index_of_name name.now ≡ Some n → 2 ^ 64 ≤ n) }
{
    match number_of(name.as_bytes()) {
        Some(number) => {
            if are_digits(number, name.as_bytes()) {
                Some(number)
            } else {
                None
            }
        }
        None => None,
    }
}
