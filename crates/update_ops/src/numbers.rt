//! Sums and products of whole numbers.
ghost use Rattle.std.specs.Prelude.{◌≡◌, Some, option_map};
ghost use Rattle.update_model.specs.Numbers.{int_or_long as narrow, sum as sum_of, product as product_of, zero_of as zero_like, value_of as as_value};
ghost use Rattle.update_ops.specs.Operations.{applied};
ghost use Rattle.update_model.specs.declared.operator.Number.TheVariants.{Long as long_number};

use bson_value::Value;
use update_model::Number;

fn long(z: Option<i64>) -> Option<Number>
    ensures { result ≡ option_map long_number z }
{
    match z {
        Some(z) => Some(Number::Long(z)),
        None => None,
    }
}

/// A number of 32 bits, where it fits them.
fn int_or_long(z: i64) -> Number
    ensures { Some result ≡ narrow z }
{
    if z < -2147483648 || z > 2147483647 {
        Number::Long(z)
    } else {
        Number::Int(z as i32)
    }
}

/// What is done to two numbers.
#[derive(Clone, Copy)]
pub enum Operation {
    Sum,
    Product,
}

/// What the operation makes of two numbers. `None` where it overflows.
pub fn combined(operation: Operation, a: Number, b: Number) -> Option<Number>
    ensures { result ≡ applied operation a b }
{
    match operation {
        Operation::Sum => sum(a, b),
        Operation::Product => product(a, b),
    }
}

/// The sum of two numbers. It has 64 bits where one of them has, or where it doesn't fit 32; `None`
/// where it overflows.
fn sum(a: Number, b: Number) -> Option<Number>
    ensures { result ≡ sum_of a b }
{
    match a {
        Number::Int(m) => match b {
            Number::Int(n) => Some(int_or_long(i64::from(m) + i64::from(n))),
            Number::Long(n) => long(i64::from(m).checked_add(n)),
        },
        Number::Long(m) => match b {
            Number::Int(n) => long(m.checked_add(i64::from(n))),
            Number::Long(n) => long(m.checked_add(n)),
        },
    }
}

/// The same of their product.
fn product(a: Number, b: Number) -> Option<Number>
    ensures { result ≡ product_of a b }
{
    match a {
        Number::Int(m) => match b {
            Number::Int(n) => Some(int_or_long(i64::from(m) * i64::from(n))),
            Number::Long(n) => long(i64::from(m).checked_mul(n)),
        },
        Number::Long(m) => match b {
            Number::Int(n) => long(m.checked_mul(i64::from(n))),
            Number::Long(n) => long(m.checked_mul(n)),
        },
    }
}

/// 0 of the number's type.
pub fn zero_of(number: Number) -> Number
    ensures { result ≡ zero_like number }
{
    match number {
        Number::Int(_) => Number::Int(0),
        Number::Long(_) => Number::Long(0),
    }
}

pub fn value_of(number: Number) -> Value
    ensures { result ≡ as_value number }
{
    match number {
        Number::Int(n) => Value::Int(n),
        Number::Long(n) => Value::Long(n),
    }
}
