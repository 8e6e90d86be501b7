//! Values that hold no document and no array, read where they lie.
#![tactic(auto, unfolding(crate::specs::Meaning::value_in, crate::specs::Meaning::read_value, bson_check::specs::Reading::value_with, bson_check::specs::Reading::bool_at, bson_check::specs::Reading::int_at))]

ghost use Rattle.std.specs.Prelude.{◌≡◌};
ghost use Rattle.bson_view.specs.Meaning.{value_in};
ghost use Rattle.bson_view.specs.References.{HasLeafType, value_meant};

use crate::value_ref::ValueRef;
use bson_check::parts::{
    binary, eight, long, number_of, pointer, regex, run, sixteen, stamp, text, twelve,
};

fn double(bytes: &[u8]) -> ValueRef<'_>
    ensures { value_meant result ≡ value_in 1 bytes.now }
{
    match run(8, bytes.len(), bytes) {
        Ok((run, _)) => ValueRef::Double(eight(run)),
        Err(_) => ValueRef::Null,
    }
}

fn string(bytes: &[u8]) -> ValueRef<'_>
    ensures { value_meant result ≡ value_in 2 bytes.now }
{
    match text(bytes.len(), bytes) {
        Ok((text, _)) => ValueRef::Str(text),
        Err(_) => ValueRef::Null,
    }
}

fn binary_data(bytes: &[u8]) -> ValueRef<'_>
    ensures { value_meant result ≡ value_in 5 bytes.now }
{
    match binary(bytes.len(), bytes) {
        Ok((subtype, bytes, _)) => ValueRef::Binary { subtype, bytes },
        Err(_) => ValueRef::Null,
    }
}

fn object_id(bytes: &[u8]) -> ValueRef<'_>
    ensures { value_meant result ≡ value_in 7 bytes.now }
{
    match run(12, bytes.len(), bytes) {
        Ok((run, _)) => ValueRef::Oid(twelve(run)),
        Err(_) => ValueRef::Null,
    }
}

fn truth(bytes: &[u8]) -> ValueRef<'_>
    ensures { value_meant result ≡ value_in 8 bytes.now }
{
    match bytes {
        [0, ..] => ValueRef::Bool(false),
        [1, ..] => ValueRef::Bool(true),
        _ => ValueRef::Null,
    }
}

fn date(bytes: &[u8]) -> ValueRef<'_>
    ensures { value_meant result ≡ value_in 9 bytes.now }
{
    match run(8, bytes.len(), bytes) {
        Ok((run, _)) => ValueRef::Date(long(run)),
        Err(_) => ValueRef::Null,
    }
}

fn regular_expression(bytes: &[u8]) -> ValueRef<'_>
    ensures { value_meant result ≡ value_in 11 bytes.now }
{
    match regex(bytes.len(), bytes) {
        Ok(pair) => ValueRef::Regex {
            pattern: pair.first,
            options: pair.second,
        },
        Err(_) => ValueRef::Null,
    }
}

fn db_pointer(bytes: &[u8]) -> ValueRef<'_>
    ensures { value_meant result ≡ value_in 12 bytes.now }
{
    match pointer(bytes.len(), bytes) {
        Ok((ns, id, _)) => ValueRef::DbPointer { ns, id: twelve(id) },
        Err(_) => ValueRef::Null,
    }
}

fn code(bytes: &[u8]) -> ValueRef<'_>
    ensures { value_meant result ≡ value_in 13 bytes.now }
{
    match text(bytes.len(), bytes) {
        Ok((text, _)) => ValueRef::Code(text),
        Err(_) => ValueRef::Null,
    }
}

fn symbol(bytes: &[u8]) -> ValueRef<'_>
    ensures { value_meant result ≡ value_in 14 bytes.now }
{
    match text(bytes.len(), bytes) {
        Ok((text, _)) => ValueRef::Symbol(text),
        Err(_) => ValueRef::Null,
    }
}

fn number(bytes: &[u8]) -> ValueRef<'_>
    ensures { value_meant result ≡ value_in 16 bytes.now }
{
    if bytes.len() < 4 {
        return ValueRef::Null;
    }
    ValueRef::Int(number_of(bytes).cast_signed())
}

fn timestamp(bytes: &[u8]) -> ValueRef<'_>
    ensures { value_meant result ≡ value_in 17 bytes.now }
{
    match run(8, bytes.len(), bytes) {
        Ok((run, _)) => ValueRef::Stamp(stamp(run)),
        Err(_) => ValueRef::Null,
    }
}

fn long_number(bytes: &[u8]) -> ValueRef<'_>
    ensures { value_meant result ≡ value_in 18 bytes.now }
{
    match run(8, bytes.len(), bytes) {
        Ok((run, _)) => ValueRef::Long(long(run)),
        Err(_) => ValueRef::Null,
    }
}

fn decimal(bytes: &[u8]) -> ValueRef<'_>
    ensures { value_meant result ≡ value_in 19 bytes.now }
{
    match run(16, bytes.len(), bytes) {
        Ok((run, _)) => ValueRef::Decimal(sixteen(run)),
        Err(_) => ValueRef::Null,
    }
}

// A value that holds no document and no array.
pub(crate) fn leaf(tag: u8, bytes: &[u8]) -> ValueRef<'_>
    requires { HasLeafType tag }
    ensures { value_meant result ≡ value_in tag bytes.now }
{
    match tag {
        1 => double(bytes),
        2 => string(bytes),
        5 => binary_data(bytes),
        6 => ValueRef::Undefined,
        7 => object_id(bytes),
        8 => truth(bytes),
        9 => date(bytes),
        11 => regular_expression(bytes),
        12 => db_pointer(bytes),
        13 => code(bytes),
        14 => symbol(bytes),
        16 => number(bytes),
        17 => timestamp(bytes),
        18 => long_number(bytes),
        19 => decimal(bytes),
        255 => ValueRef::MinKey,
        127 => ValueRef::MaxKey,
        _ => ValueRef::Null,
    }
}
