//! Lists of values.
ghost use Rattle.std.specs.Prelude.{◌≡◌, ◌++◌, filter, not, IfOk, OnOk};
ghost use Rattle.std.specs.List.{list_any};
ghost use Rattle.update_model.specs.Equality.{same};
ghost use Rattle.update_model.specs.Acts.{new_ones, others};

use crate::keyed_values::KeyedValues;
use bson_value::{List, Value};
use std::alloc::{AllocError, Global};

// Up to so many values are compared with the others one by one.
const FEW: usize = 8;

/// Whether the two are equal, as operators compare values.
pub fn equals(a: &Value, b: &Value) -> bool
    ensures { result ≡ same a.now b.now }
{
    a.same(b)
}

fn push_copies(alloc: Global, list: &mut List<Value>, items: &[Value]) -> Result<(), AllocError>
    ensures { OnOk result (list.new ≡ list.old ++ items.now) }
{
    for item in items {
        list.push(item.copy(alloc)?)?;
    }
    Ok(())
}

/// Equal values.
pub fn copies(alloc: Global, items: &[Value]) -> Result<List<Value>, AllocError>
    ensures { IfOk result (λ list. list ≡ items.now) }
{
    let mut list = List::new(alloc);
    push_copies(alloc, &mut list, items)?;
    Ok(list)
}

/// Whether the value is equal to one of these.
pub fn is_among(value: &Value, items: &[Value]) -> bool
    ensures { result ≡ list_any (same value.now) items.now }
{
    for item in items {
        if equals(value, item) {
            return true;
        }
    }
    false
}

/// Whether one of these is equal to the value.
pub fn has(items: &[Value], value: &Value) -> bool
    ensures { result ≡ list_any (λ i. same i value.now) items.now }
{
    for item in items {
        if equals(item, value) {
            return true;
        }
    }
    false
}

/// The items with the values behind them.
pub fn extended(alloc: Global, items: &[Value], values: &[Value]) -> Result<List<Value>, AllocError>
    ensures { IfOk result (λ list. list ≡ items.now ++ values.now) }
{
    let mut list = List::new(alloc);
    push_copies(alloc, &mut list, items)?;
    push_copies(alloc, &mut list, values)?;
    Ok(list)
}

// Each value is compared with each one before it.
fn united_one_by_one(
    alloc: Global,
    items: &[Value],
    values: &[Value],
) -> Result<List<Value>, AllocError>
    ensures { IfOk result (λ list. list ≡ items.now ++ new_ones items.now values.now) }
{
    let mut list = List::new(alloc);
    push_copies(alloc, &mut list, items)?;
    for value in values {
        if !is_among(value, list.as_slice()) {
            list.push(value.copy(alloc)?)?;
        }
    }
    Ok(list)
}

// Each value is looked up by its key.
fn united_by_keys(
    alloc: Global,
    items: &[Value],
    values: &[Value],
) -> Result<List<Value>, AllocError>
    ensures { IfOk result (λ list. list ≡ items.now ++ new_ones items.now values.now) }
{
    let mut list = KeyedValues::of(alloc, items)?;
    list.add_new(alloc, values)?;
    Ok(list.into_list())
}

/// The items, and behind them each value that is equal to none before it. Of up to eight values each is
/// compared with each one before it, which takes no memory beside the list. More than eight are looked up by
/// their keys, and so are the items: it takes the memory of all keys, and n of them some log n comparisons each.
pub fn united(alloc: Global, items: &[Value], values: &[Value]) -> Result<List<Value>, AllocError>
    ensures { IfOk result (λ list. list ≡ items.now ++ new_ones items.now values.now) }
{
    if values.len() <= FEW {
        united_one_by_one(alloc, items, values)
    } else {
        united_by_keys(alloc, items, values)
    }
}

/// The items that aren't equal to the value.
pub fn without(alloc: Global, items: &[Value], value: &Value) -> Result<List<Value>, AllocError>
    ensures { IfOk result (λ list. list ≡ others value.now items.now) }
{
    let mut list = List::new(alloc);
    for item in items {
        if !equals(item, value) {
            list.push(item.copy(alloc)?)?;
        }
    }
    Ok(list)
}
