//! The operators of an update.
use bson_value::{List, Value};
use doc_path::Path;

/// The names of the operators.
#[derive(Clone, Copy, Debug, PartialEq, Eq)]
pub enum OperatorName {
    Set,
    Unset,
    Inc,
    Mul,
    Rename,
    Push,
    AddToSet,
    Pop,
    Pull,
}

/// A whole number of an operand.
#[derive(Clone, Copy, Debug, PartialEq, Eq)]
pub enum Number {
    Int(i32),
    Long(i64),
}

/// An end of an array.
#[derive(Clone, Copy, Debug, PartialEq, Eq)]
pub enum ArrayEnd {
    First,
    Last,
}

/// What is done at a path of a document.
#[derive(Drop)]
pub enum Operator {
    /// The value stands there.
    Set { path: Path, value: Value },
    /// A field is removed, and an element becomes null.
    Unset { path: Path },
    /// The sum of the number there and this one, or this one where there is none.
    Inc { path: Path, by: Number },
    /// The product of the number there and this one, or 0 where there is none.
    Mul { path: Path, by: Number },
    /// What stands at the one path moves to the other.
    Rename { from: Path, to: Path },
    /// The values are appended to the array there, or are a new one.
    Push { path: Path, values: List<Value> },
    /// The same of each value that equals no element.
    AddToSet { path: Path, values: List<Value> },
    /// An element at an end of the array there is removed.
    Pop { path: Path, end: ArrayEnd },
    /// The elements that are equal to the value are removed from the array there.
    Pull { path: Path, value: Value },
}
