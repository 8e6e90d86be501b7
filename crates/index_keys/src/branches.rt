//! What a path leads to in a document that is spelled or built.
ghost use Rattle.std.specs.Prelude.{◌≡◌, ◌++◌, ◌∷◌, [], OnOk};
ghost use Rattle.bson_value.specs.declared.value.Value.{out-Value};
ghost use Rattle.bson_view.specs.Held.{held_value};
ghost use Rattle.bson_view.specs.HeldWalk.{items_left};
ghost use Rattle.index_keys.specs.Branches.{branches, elements, from_one, from_each, meets_array, Missing};
ghost use Rattle.index_keys.specs.HeldBranches.{branches_of};

use bson_value::CText;
use bson_view::{HeldItems, HeldValue};
use std::alloc::AllocError;

/// Where a branch of a path ends: nowhere, at an empty array, or at a value.
#[derive(Clone, Copy)]
pub enum HeldBranch<'a> {
    Missing,
    Empty,
    Given(HeldValue<'a>),
}

fn missing(out: &mut Vec<HeldBranch<'_>>) -> Result<(), AllocError>
    ensures { OnOk result (branches_of out.new.items ≡ branches_of out.old.items ++ Missing ∷ []) }
{
    out.push(HeldBranch::Missing)?;
    Ok(())
}

fn end_items<'a>(items: HeldItems<'a>, out: &mut Vec<HeldBranch<'a>>) -> Result<(), AllocError>
    ensures { OnOk result (branches_of out.new.items ≡ branches_of out.old.items ++ elements (items_left items.entry)) }
{
    let mut left = items;
    let Some(first) = left.next() else {
        out.push(HeldBranch::Empty)?;
        return Ok(());
    };
    out.push(HeldBranch::Given(first))?;
    while let Some(item) = left.next() {
        out.push(HeldBranch::Given(item))?;
    }
    Ok(())
}

fn end<'a>(value: HeldValue<'a>, out: &mut Vec<HeldBranch<'a>>) -> Result<(), AllocError>
    ensures { OnOk result (branches_of out.new.items ≡ branches_of out.old.items ++ branches [] (held_value value.entry)) }
{
    match value.items() {
        Some(items) => end_items(items, out),
        None => {
            out.push(HeldBranch::Given(value))?;
            Ok(())
        }
    }
}

/// Appends the branches of the path from the value on.
#[cycle(walk)]
pub fn walk<'a>(
    value: HeldValue<'a>,
    path: &[CText],
    out: &mut Vec<HeldBranch<'a>>,
) -> Result<(), AllocError>
    ensures { OnOk result (branches_of out.new.items ≡ branches_of out.old.items ++ branches path.now (held_value value.entry)) }
{
    match path.split_first() {
        None => end(value, out),
        Some((name, rest)) => match value.items() {
            Some(items) => walk_each(items, name, rest, out),
            None => walk_one(value, name, rest, out),
        },
    }
}

#[cycle(walk)]
fn walk_one<'a>(
    value: HeldValue<'a>,
    name: &CText,
    rest: &[CText],
    out: &mut Vec<HeldBranch<'a>>,
) -> Result<(), AllocError>
    ensures { OnOk result (branches_of out.new.items ≡ branches_of out.old.items ++ from_one (branches rest.now) name.now (out-Value (held_value value.entry))) }
{
    match value.fields() {
        None => missing(out),
        Some(_) => match value.under(name.as_str()) {
            None => missing(out),
            Some(inner) => walk(inner, rest, out),
        },
    }
}

#[cycle(walk)]
fn walk_each<'a>(
    items: HeldItems<'a>,
    name: &CText,
    rest: &[CText],
    out: &mut Vec<HeldBranch<'a>>,
) -> Result<(), AllocError>
    ensures { OnOk result (branches_of out.new.items ≡ branches_of out.old.items ++ from_each (branches rest.now) name.now (items_left items.entry)) }
{
    let mut left = items;
    let Some(first) = left.next() else {
        return missing(out);
    };
    walk_one(first, name, rest, out)?;
    while let Some(item) = left.next() {
        walk_one(item, name, rest, out)?;
    }
    Ok(())
}

/// Whether an array stands on the way or at the end of the path.
pub fn meets(value: HeldValue<'_>, path: &[CText]) -> bool
    ensures { result ≡ meets_array path.now (held_value value.entry) }
{
    if value.items().is_some() {
        return true;
    }
    match path.split_first() {
        None => false,
        Some((name, rest)) => match value.fields() {
            None => false,
            Some(_) => match value.under(name.as_str()) {
                None => false,
                Some(inner) => meets(inner, rest),
            },
        },
    }
}
