//! Operands of operators.
ghost use Rattle.std.specs.Prelude.{◌≡◌, IfOk, option_map};
ghost use Rattle.bson_value.specs.declared.value.Value.{out-Value};
ghost use Rattle.update_model.specs.Conflicts.{Path};
ghost use Rattle.update_model.specs.Arguments.{number_in, end_at, end_in, values_in, is_expression as is_expression_in, operator_of};
ghost use Rattle.update_model.specs.Reading.{is_some};
ghost use Rattle.update_ops.specs.Appended.{values_of};

use bson_value::{List, Value};
use std::alloc::{AllocError, Global};
use update_model::{ArrayEnd, Number, OperatorName};

/// The values that are appended to an array.
#[derive(Clone, Copy)]
pub enum Appended<'v> {
    One(&'v Value),
    Each(&'v List<Value>),
}

/// A whole number.
pub fn number_of(operand: &Value) -> Option<Number>
    ensures { result ≡ number_in (out-Value operand.now) }
{
    match operand {
        Value::Int(n) => Some(Number::Int(*n)),
        Value::Long(n) => Some(Number::Long(*n)),
        _ => None,
    }
}

fn end_by(n: i64) -> Option<ArrayEnd>
    ensures { result ≡ end_at n }
{
    match n {
        1 => Some(ArrayEnd::Last),
        -1 => Some(ArrayEnd::First),
        _ => None,
    }
}

/// The end of an array: the last for 1, the first for -1.
pub fn end_of(operand: &Value) -> Option<ArrayEnd>
    ensures { result ≡ end_in (out-Value operand.now) }
{
    match operand {
        Value::Int(n) => end_by(i64::from(*n)),
        Value::Long(n) => end_by(*n),
        _ => None,
    }
}

/// The values to be appended: those of `$each`, or the operand itself.
pub fn values_to_append(operand: &Value) -> Option<Appended<'_>>
    ensures { option_map values_of result ≡ values_in operand.now (out-Value operand.now) }
{
    let Value::Object(doc) = operand else {
        return Some(Appended::One(operand));
    };
    let Some((first, rest)) = doc.entries().split_first() else {
        return Some(Appended::One(operand));
    };
    if first.0.as_str() != "$each" {
        return Some(Appended::One(operand));
    }
    match &first.1 {
        Value::Array(items) if rest.is_empty() => Some(Appended::Each(items)),
        _ => None,
    }
}

impl Appended<'_> {
    /// The values in their order.
    pub fn copy(self, alloc: Global) -> Result<List<Value>, AllocError>
        ensures { IfOk result (λ values. values ≡ values_of self.entry) }
    {
        let mut values = List::new(alloc);
        match self {
            Appended::One(value) => values.push(value.copy(alloc)?)?,
            Appended::Each(items) => {
                for item in items.as_slice() {
                    values.push(item.copy(alloc)?)?;
                }
            }
        }
        Ok(values)
    }
}

/// Whether the operand is a document whose first name begins with a dollar.
pub fn is_expression(operand: &Value) -> bool
    ensures { result ≡ is_expression_in (out-Value operand.now) }
{
    let Value::Object(doc) = operand else {
        return false;
    };
    match doc.entries().first() {
        Some(first) => first.0.as_str().as_bytes().first() == Some(&36),
        None => false,
    }
}

/// Whether the operator takes the operand.
pub fn is_argument(name: OperatorName, operand: &Value) -> bool
    ensures { (path : Path) → result ≡ is_some (operator_of name path operand.now) }
{
    match name {
        OperatorName::Set => true,
        OperatorName::Unset => true,
        OperatorName::Inc => number_of(operand).is_some(),
        OperatorName::Mul => number_of(operand).is_some(),
        OperatorName::Rename => matches!(operand, Value::Str(_)),
        OperatorName::Push => values_to_append(operand).is_some(),
        OperatorName::AddToSet => values_to_append(operand).is_some(),
        OperatorName::Pop => end_of(operand).is_some(),
        OperatorName::Pull => !is_expression(operand),
    }
}
