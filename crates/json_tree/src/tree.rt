//! Values of JSON.
ghost use Rattle.std.specs.Prelude.{◌≡◌, ◌↔◌, IsTrue};

use crate::members::Members;
use crate::number::Number;
use containers::{List as JList, Text as JText};

/// The members of an object: names and values, with distinct names at every level.
pub type Fields = Members<Tree>;

/// A value of JSON.
#[derive(Drop)]
pub enum Tree {
    Null,
    Bool(bool),
    Number(Number),
    Str(JText),
    Items(JList<Tree>),
    Object(Fields),
}

impl Tree {
    /// Whether the two are equal, with the order of members and the texts of numbers.
    #[cycle(same)]
    pub fn same(&self, other: &Tree) -> bool
        ensures { IsTrue result ↔ (self.now ≡ other.now) }
    {
        match self {
            Tree::Null => matches!(other, Tree::Null),
            Tree::Bool(a) => match other {
                Tree::Bool(b) => *a == *b,
                _ => false,
            },
            Tree::Number(a) => match other {
                Tree::Number(b) => a.as_str() == b.as_str(),
                _ => false,
            },
            Tree::Str(a) => match other {
                Tree::Str(b) => a.as_str() == b.as_str(),
                _ => false,
            },
            Tree::Items(a) => match other {
                Tree::Items(b) => same_items(a.as_slice(), b.as_slice()),
                _ => false,
            },
            Tree::Object(a) => match other {
                Tree::Object(b) => same_fields(a.entries(), b.entries()),
                _ => false,
            },
        }
    }
}

#[cycle(same)]
fn same_items(a: &[Tree], b: &[Tree]) -> bool
    ensures { IsTrue result ↔ (a.now ≡ b.now) }
{
    if a.len() != b.len() {
        return false;
    }
    for i in 0..a.len() {
        if !a[i].same(&b[i]) {
            return false;
        }
    }
    true
}

#[cycle(same)]
fn same_fields(a: &[(JText, Tree)], b: &[(JText, Tree)]) -> bool
    ensures { IsTrue result ↔ (a.now ≡ b.now) }
{
    if a.len() != b.len() {
        return false;
    }
    for i in 0..a.len() {
        if !same_entry(&a[i], &b[i]) {
            return false;
        }
    }
    true
}

#[cycle(same)]
fn same_entry(a: &(JText, Tree), b: &(JText, Tree)) -> bool
    ensures { IsTrue result ↔ (a.now ≡ b.now) }
{
    a.0.as_str() == b.0.as_str() && a.1.same(&b.1)
}
