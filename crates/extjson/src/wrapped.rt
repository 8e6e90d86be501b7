//! Wrappers that have one name outermost.
ghost use Rattle.std.specs.Prelude.{◌≡◌};
ghost use Rattle.extjson.specs.Values.{Gives, int_value, long_of, long_value, double_value, double_bits_value, decimal_value, decimal_bits_value, binary_value, undefined_value, id_of, oid_value, date_value, regex_value, pointer_value, code_value, symbol_value, stamp_value, key_value, wrapped_value};
ghost use Rattle.extjson.specs.declared.wrapper.Wrapper.{Wrapper as Outermost};

use crate::fault::ExtFault;
use crate::parts::{
    base64, both, count, hex, int, is_true, long, members, number, only, string, subtype, whole,
    without_zero,
};
use crate::wrapper::Wrapper;
use crate::writing::{MINUS_ONE, ONE};
use bson_value::{BoxedCText, BoxedText, Text, Ts, Value};
use json_tree::Tree;
use std::alloc::Global;

#[tactic(auto, unfolding(crate::specs::Values::int_value))]
fn int_value(tree: &Tree) -> Result<Value, ExtFault>
    ensures { Gives (λ v. v) result (int_value tree.now) }
{
    Ok(Value::Int(int(whole(string(tree)?)?)?))
}

#[tactic(auto, unfolding(crate::specs::Values::long_of))]
fn long_of(tree: &Tree) -> Result<i64, ExtFault>
    ensures { Gives (λ z. z) result (long_of tree.now) }
{
    long(whole(string(tree)?)?)
}

#[tactic(auto, unfolding(crate::specs::Values::long_value))]
fn long_value(tree: &Tree) -> Result<Value, ExtFault>
    ensures { Gives (λ v. v) result (long_value tree.now) }
{
    Ok(Value::Long(long_of(tree)?))
}

#[tactic(auto, unfolding(crate::specs::Values::double_value))]
fn double(tree: &Tree) -> Result<Value, ExtFault>
    ensures { Gives (λ v. v) result (double_value tree.now) }
{
    let text = string(tree)?;
    if text == "1.0" {
        return Ok(Value::Double(ONE));
    }
    if text == "-1.0" {
        return Ok(Value::Double(MINUS_ONE));
    }
    Err(ExtFault::Double)
}

#[tactic(auto, unfolding(crate::specs::Values::double_bits_value))]
fn double_bits(tree: &Tree) -> Result<Value, ExtFault>
    ensures { Gives (λ v. v) result (double_bits_value tree.now) }
{
    let mut bytes: [u8; 8] = hex(string(tree)?.as_bytes())?;
    bytes.reverse();
    Ok(Value::Double(bytes))
}

#[tactic(auto, unfolding(crate::specs::Values::decimal_value))]
fn decimal(tree: &Tree) -> Result<Value, ExtFault>
    ensures { Gives (λ v. v) result (decimal_value tree.now) }
{
    let _ = string(tree)?;
    Err(ExtFault::Decimal)
}

#[tactic(auto, unfolding(crate::specs::Values::decimal_bits_value))]
fn decimal_bits(tree: &Tree) -> Result<Value, ExtFault>
    ensures { Gives (λ v. v) result (decimal_bits_value tree.now) }
{
    let mut bytes: [u8; 16] = hex(string(tree)?.as_bytes())?;
    bytes.reverse();
    Ok(Value::Decimal(bytes))
}

#[tactic(auto, unfolding(crate::specs::Values::binary_value))]
fn binary(alloc: Global, tree: &Tree) -> Result<Value, ExtFault>
    ensures { Gives (λ v. v) result (binary_value tree.now) }
{
    let (encoded, digits) = both("base64", "subType", members(tree)?)?;
    let bytes = base64(alloc, string(encoded)?)?;
    let subtype = subtype(string(digits)?.as_bytes())?;
    Ok(Value::Binary { subtype, bytes })
}

#[tactic(auto, unfolding(crate::specs::Values::undefined_value))]
fn undefined(tree: &Tree) -> Result<Value, ExtFault>
    ensures { Gives (λ v. v) result (undefined_value tree.now) }
{
    let _ = is_true(tree)?;
    Ok(Value::Undefined)
}

#[tactic(auto, unfolding(crate::specs::Values::id_of))]
fn id(tree: &Tree) -> Result<[u8; 12], ExtFault>
    ensures { Gives (λ b. b) result (id_of tree.now) }
{
    hex(string(tree)?.as_bytes())
}

#[tactic(auto, unfolding(crate::specs::Values::oid_value))]
fn oid(tree: &Tree) -> Result<Value, ExtFault>
    ensures { Gives (λ v. v) result (oid_value tree.now) }
{
    Ok(Value::Oid(id(tree)?))
}

#[tactic(auto, unfolding(crate::specs::Values::date_value))]
fn date(tree: &Tree) -> Result<Value, ExtFault>
    ensures { Gives (λ v. v) result (date_value tree.now) }
{
    let number = only("$numberLong", members(tree)?)?;
    Ok(Value::Date(long_of(number)?))
}

#[tactic(auto, unfolding(crate::specs::Values::regex_value))]
fn regex(alloc: Global, tree: &Tree) -> Result<Value, ExtFault>
    ensures { Gives (λ v. v) result (regex_value tree.now) }
{
    let (pattern, options) = both("pattern", "options", members(tree)?)?;
    let pattern = BoxedCText::new(alloc, without_zero(alloc, string(pattern)?)?)?;
    let options = BoxedCText::new(alloc, without_zero(alloc, string(options)?)?)?;
    Ok(Value::Regex { pattern, options })
}

#[tactic(auto, unfolding(crate::specs::Values::pointer_value))]
fn pointer(alloc: Global, tree: &Tree) -> Result<Value, ExtFault>
    ensures { Gives (λ v. v) result (pointer_value tree.now) }
{
    let (ns, oid) = both("$ref", "$id", members(tree)?)?;
    let ns = BoxedText::of(alloc, string(ns)?)?;
    let id = id(only("$oid", members(oid)?)?)?;
    Ok(Value::DbPointer { ns, id })
}

#[tactic(auto, unfolding(crate::specs::Values::code_value))]
fn code(alloc: Global, tree: &Tree) -> Result<Value, ExtFault>
    ensures { Gives (λ v. v) result (code_value tree.now) }
{
    Ok(Value::Code(Text::of(alloc, string(tree)?)?))
}

#[tactic(auto, unfolding(crate::specs::Values::symbol_value))]
fn symbol(alloc: Global, tree: &Tree) -> Result<Value, ExtFault>
    ensures { Gives (λ v. v) result (symbol_value tree.now) }
{
    Ok(Value::Symbol(Text::of(alloc, string(tree)?)?))
}

#[tactic(auto, unfolding(crate::specs::Values::stamp_value))]
pub(crate) fn stamp(tree: &Tree) -> Result<Value, ExtFault>
    ensures { Gives (λ v. v) result (stamp_value tree.now) }
{
    let (secs, inc) = both("t", "i", members(tree)?)?;
    let secs = whole(number(secs)?)?;
    let inc = whole(number(inc)?)?;
    let secs = count(secs)?;
    let inc = count(inc)?;
    Ok(Value::Stamp(Ts { secs, inc }))
}

#[tactic(auto, unfolding(crate::specs::Values::key_value))]
pub(crate) fn key(tree: &Tree, key: Value) -> Result<Value, ExtFault>
    ensures { Gives (λ v. v) result (key_value key tree.now) }
{
    if number(tree)? == "1" {
        Ok(key)
    } else {
        Err(ExtFault::BadWrapper)
    }
}

/// The value of the wrapper whose outermost name names this tree.
pub(crate) fn wrapped(
    alloc: Global,
    wrapper: Option<Wrapper>,
    tree: &Tree,
) -> Result<Value, ExtFault>
    ensures { Gives (λ v. v) result (wrapped_value wrapper tree.now) }
{
    let Some(wrapper) = wrapper else {
        return Err(ExtFault::BadWrapper);
    };
    match wrapper {
        Wrapper::Int => int_value(tree),
        Wrapper::Long => long_value(tree),
        Wrapper::Double => double(tree),
        Wrapper::DoubleBits => double_bits(tree),
        Wrapper::Decimal => decimal(tree),
        Wrapper::DecimalBits => decimal_bits(tree),
        Wrapper::Binary => binary(alloc, tree),
        Wrapper::Undefined => undefined(tree),
        Wrapper::Oid => oid(tree),
        Wrapper::Date => date(tree),
        Wrapper::Regex => regex(alloc, tree),
        Wrapper::Pointer => pointer(alloc, tree),
        Wrapper::Code => code(alloc, tree),
        Wrapper::Symbol => symbol(alloc, tree),
        Wrapper::Stamp => stamp(tree),
        Wrapper::MinKey => key(tree, Value::MinKey),
        Wrapper::MaxKey => key(tree, Value::MaxKey),
    }
}
