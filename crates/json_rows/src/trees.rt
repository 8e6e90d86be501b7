//! Members by name and place.
use anyhow::Result;
use containers::{List as JList, Text as JText};
use json_text::print;
use json_tree::{Fields, Tree};
use std::alloc::{AllocError, Global};

fn set(alloc: Global, fields: &mut Fields, name: &str, value: Tree) -> Result<(), AllocError> {
    match JText::of(alloc, name) {
        Ok(name) => fields.set(name, value),
        Err(fault) => {
            drop(value);
            Err(fault)
        }
    }
}

// {a: [], b: true}, whose `a` was null first.
fn fields(alloc: Global) -> Result<Fields, AllocError> {
    let mut fields = Fields::new(alloc);
    set(alloc, &mut fields, "a", Tree::Null)?;
    set(alloc, &mut fields, "b", Tree::Bool(true))?;
    set(alloc, &mut fields, "a", Tree::Items(JList::new(alloc)))?;
    Ok(fields)
}

// The members, with `b` false.
fn with_false(alloc: Global) -> Result<Fields, AllocError> {
    let mut fields = fields(alloc)?;
    if fields.len() > 1 {
        let _ = fields.replace(1, Tree::Bool(false));
    }
    Ok(fields)
}

fn copy_text(alloc: Global, fields: &Fields) -> Result<JText, AllocError> {
    let copy = Tree::Object(fields.copy(alloc)?);
    print(alloc, &copy)
}

// Whether a member of this name was there to be removed.
fn removes(fields: &mut Fields, name: &str) -> bool {
    fields.remove(name).is_some()
}

// A copy of the members; whether `b` is false, and `c` is there.
fn with_b(alloc: Global, fields: &mut Fields) -> Result<String, AllocError> {
    let is_false = matches!(fields.get("b"), Some(Tree::Bool(false)));
    let has_c = removes(fields, "c");
    let copy = copy_text(alloc, fields)?;
    format!(in alloc; "{} {is_false} {has_c}", copy.as_str())
}

// The members, without `a`: whether `a` was there, how many are left, and the place of `b`.
fn without_a(alloc: Global, fields: &mut Fields) -> Result<String, AllocError> {
    let was_there = removes(fields, "a");
    let place = fields.place("b");
    format!(in alloc; "{was_there} {} {place:?}", fields.len())
}

fn told(alloc: Global, fields: &mut Fields) -> Result<String, AllocError> {
    let front = with_b(alloc, fields)?;
    let rest = without_a(alloc, fields)?;
    format!(in alloc; "{front} {rest}")
}

/// A copy of the members `a` and `b`, where `b` was replaced; whether `b` is false, and `c` is there; and what stands without `a`.
pub fn members(alloc: Global) -> Result<String> {
    let mut fields = with_false(alloc)?;
    Ok(told(alloc, &mut fields)?)
}
