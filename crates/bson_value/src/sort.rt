//! Sorting the fields of a document by their names, at every level.
ghost use Rattle.std.specs.Prelude.{◌≡◌, map};
ghost use Rattle.containers.specs.Entries.{AreDistinct, names_of};
ghost use Rattle.bson_value.specs.Alike.{by_name, ordered, ordered_fields};

use crate::fields::Fields;
use crate::value::{Doc, Value};
use containers::{CText, List};
use std::mem;

impl Fields<Value> {
    /// The document with the fields of each level, scopes of code included, by the bytes of their
    /// names. Nothing is copied, and it takes no memory.
    #[cycle(sort)]
    pub fn into_ordered(self) -> Doc
        ensures { result ≡ by_name (ordered_fields self) }
    {
        sorted(fields(self.into_entries()))
    }
}

// The entries by the bytes of their names.
fn sorted(entries: Vec<(CText, Value)>) -> Doc
    requires { AreDistinct (names_of entries.items) }
    ensures { result ≡ by_name entries.items }
{
    let mut entries = entries;
    entries.sort_unstable_by(|a, b| a.0.as_str().cmp(b.0.as_str()));
    Fields::of_distinct(entries)
}

#[cycle(sort)]
fn value(value: Value) -> Value
    ensures { result ≡ ordered value }
{
    match value {
        Value::Object(doc) => Value::Object(doc.into_ordered()),
        Value::Array(list) => Value::Array(List::from_vec(items(list.into_vec()))),
        Value::ScopedCode { code, scope } => Value::ScopedCode {
            code,
            scope: scope.into_ordered(),
        },
        leaf => leaf,
    }
}

#[cycle(sort)]
fn items(items: Vec<Value>) -> Vec<Value>
    ensures { result.items ≡ map ordered items.items }
{
    let mut items = items;
    for i in 0..items.len() {
        let item = mem::replace(&mut items[i], Value::Null);
        items[i] = value(item);
    }
    items
}

#[cycle(sort)]
fn fields(entries: Vec<(CText, Value)>) -> Vec<(CText, Value)>
    ensures { result.items ≡ ordered_fields entries.items }
{
    let mut entries = entries;
    for i in 0..entries.len() {
        let item = mem::replace(&mut entries[i].1, Value::Null);
        entries[i].1 = value(item);
    }
    entries
}
