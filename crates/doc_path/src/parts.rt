//! Parts of places, and what a touch does at one.
ghost use Rattle.std.specs.Prelude.{◌≡◌, ◌↔◌, IsTrue, IfOk};
ghost use Rattle.bson_value.specs.Digits.{digits};
ghost use Rattle.doc_path.specs.Touch.{key_of};

use bson_value::{CText, Value, index_of};
use std::alloc::{AllocError, Global};

/// A part of a place.
#[derive(Drop)]
pub enum Part {
    Name(CText),
    Index(u32),
}

/// Whether the name is the digits of the index.
fn is_index(name: &str, at: u32) -> bool
    ensures { IsTrue result ↔ (name.now ≡ digits at) }
{
    match index_of(name) {
        Some(n) => n == at as usize,
        None => false,
    }
}

impl Part {
    /// An equal part.
    pub fn copy(&self, alloc: Global) -> Result<Part, AllocError>
        ensures { IfOk result (λ part. part ≡ self.now) }
    {
        match self {
            Part::Name(name) => Ok(Part::Name(name.copy(alloc)?)),
            Part::Index(at) => Ok(Part::Index(*at)),
        }
    }

    /// Whether both are one part: an index and the name of its digits are. It takes no memory.
    pub fn same(&self, other: &Part) -> bool
        ensures { IsTrue result ↔ (key_of self.now ≡ key_of other.now) }
    {
        match self {
            Part::Name(name) => is_name(other, name.as_str()),
            Part::Index(at) => match other {
                Part::Name(name) => is_index(name.as_str(), *at),
                Part::Index(other) => *at == *other,
            },
        }
    }
}

/// Whether the part is the one of this name.
fn is_name(part: &Part, name: &str) -> bool
    ensures { IsTrue result ↔ (name.now ≡ key_of part.now) }
{
    match part {
        Part::Name(other) => name == other.as_str(),
        Part::Index(at) => is_index(name, *at),
    }
}

/// The two forms of update entries.
#[derive(Clone, Copy)]
pub enum Form {
    V1,
    V2,
}

/// What is done at the last part of a place.
#[derive(Drop)]
pub enum Change {
    Put(Value),
    Delete,
    Resize(u32),
}

/// By which rule a change goes down a place.
#[derive(Clone, Copy)]
pub enum Rule {
    /// A name in a document, an index in an array.
    Plain,
    /// As replay does in the first form.
    V1,
    /// As replay does in the second form: like `Plain`, with low indexes alone.
    V2,
}
