//! Values that hold no document and no array, as canonical Extended JSON.
ghost use Rattle.std.specs.Prelude.{◌≡◌, ◌≢◌, ◌*◌, ◌++◌, length, OnOk, IfSome, reverse};
ghost use Rattle.std.specs.Fmt.{decimal};
ghost use Rattle.bson_value.specs.declared.value.Value.{out-Value};
ghost use Rattle.bson_value.specs.declared.value.Value.TheVariants.{Int, Long};
ghost use Rattle.bson_view.specs.Meaning.{IsLeaf, value_in};
ghost use Rattle.bson_view.specs.Views.{elem_value};
ghost use Rattle.json_text.specs.Print.{text_of};
ghost use Rattle.extjson.specs.Trees.{hex_text, double_tree, decimal_tree, binary_tree, oid_tree, int_tree, long_tree, date_tree, regex_tree, pointer_tree, code_tree, symbol_tree, stamp_tree};
ghost use Rattle.document_lines.specs.Json.{json_of};

use crate::digits::write_digits;
use crate::strings::put_quoted;
use base64::engine::general_purpose::STANDARD;
use bson_check::parts::{long, number_of, run};
use bson_value::{Ts, type_byte};
use bson_view::{Elem, ValueRef};
use itoa::Buffer;
use std::alloc::{AllocError, Global};

// The doubles 1 and -1, the low byte first.
const ONE: [u8; 8] = [0, 0, 0, 0, 0, 0, 240, 63];

const MINUS_ONE: [u8; 8] = [0, 0, 0, 0, 0, 0, 240, 191];

// A text, between its length and its zero. That its bytes are UTF-8 is known already.
fn put_text(out: &mut Vec<u8>, elem: &Elem<'_>) -> Result<(), AllocError>
    requires { elem.now.tag ≡ 2 }
    ensures { OnOk result (out.new.items ≡ out.old.items ++ json_of (elem_value elem.now)) }
{
    elem.spells();
    put_quoted(out, &elem.value[4..elem.value.len() - 1])
}

// Bytes in hexadecimal digits, as a string.
fn put_digits(out: &mut Vec<u8>, bytes: &[u8], digits: &mut [u8]) -> Result<(), AllocError>
    requires { length digits.old ≡ 2 * length bytes.now }
    ensures { OnOk result (out.new.items ≡ out.old.items ++ text_of (hex_text bytes.now)) }
{
    write_digits(bytes, digits);
    put_quoted(out, digits)
}

fn put_double(out: &mut Vec<u8>, bits: [u8; 8]) -> Result<(), AllocError>
    ensures { OnOk result (out.new.items ≡ out.old.items ++ text_of (double_tree bits)) }
{
    if bits == ONE {
        return out.extend_from_slice(b"{\"$numberDouble\":\"1.0\"}");
    }
    if bits == MINUS_ONE {
        return out.extend_from_slice(b"{\"$numberDouble\":\"-1.0\"}");
    }
    let mut bits = bits;
    bits.reverse();
    out.extend_from_slice(b"{\"$numberDoubleBits\":")?;
    put_digits(out, &bits, &mut [0u8; 16])?;
    out.push(125)?;
    Ok(())
}

fn put_decimal(out: &mut Vec<u8>, bits: [u8; 16]) -> Result<(), AllocError>
    ensures { OnOk result (out.new.items ≡ out.old.items ++ text_of (decimal_tree bits)) }
{
    let mut bits = bits;
    bits.reverse();
    out.extend_from_slice(b"{\"$numberDecimalBits\":")?;
    put_digits(out, &bits, &mut [0u8; 32])?;
    out.push(125)?;
    Ok(())
}

fn put_object_id(out: &mut Vec<u8>, id: [u8; 12]) -> Result<(), AllocError>
    ensures { OnOk result (out.new.items ≡ out.old.items ++ text_of (oid_tree id)) }
{
    out.extend_from_slice(b"{\"$oid\":")?;
    put_digits(out, &id, &mut [0u8; 24])?;
    out.push(125)?;
    Ok(())
}

fn put_binary(alloc: Global, out: &mut Vec<u8>, subtype: u8, bytes: &[u8]) -> Result<(), AllocError>
    ensures { OnOk result (out.new.items ≡ out.old.items ++ text_of (binary_tree subtype bytes.now)) }
{
    let text = STANDARD.encode(alloc, bytes)?;
    out.extend_from_slice(b"{\"$binary\":{\"base64\":")?;
    put_quoted(out, text.as_bytes())?;
    out.extend_from_slice(b",\"subType\":")?;
    put_digits(out, &[subtype], &mut [0u8; 2])?;
    out.extend_from_slice(b"}}")?;
    Ok(())
}

fn put_int(out: &mut Vec<u8>, n: i32) -> Result<(), AllocError>
    ensures { OnOk result (out.new.items ≡ out.old.items ++ text_of (int_tree n)) }
{
    let mut digits = Buffer::new();
    out.extend_from_slice(b"{\"$numberInt\":\"")?;
    out.extend_from_slice(digits.format(n).as_bytes())?;
    out.push(34)?;
    out.push(125)?;
    Ok(())
}

fn put_long(out: &mut Vec<u8>, n: i64) -> Result<(), AllocError>
    ensures { OnOk result (out.new.items ≡ out.old.items ++ text_of (long_tree n)) }
{
    let mut digits = Buffer::new();
    out.extend_from_slice(b"{\"$numberLong\":\"")?;
    out.extend_from_slice(digits.format(n).as_bytes())?;
    out.push(34)?;
    out.push(125)?;
    Ok(())
}

fn put_date(out: &mut Vec<u8>, millis: i64) -> Result<(), AllocError>
    ensures { OnOk result (out.new.items ≡ out.old.items ++ text_of (date_tree millis)) }
{
    out.extend_from_slice(b"{\"$date\":")?;
    put_long(out, millis)?;
    out.push(125)?;
    Ok(())
}

fn put_regex(out: &mut Vec<u8>, pattern: &str, options: &str) -> Result<(), AllocError>
    ensures { OnOk result (out.new.items ≡ out.old.items ++ text_of (regex_tree pattern.now options.now)) }
{
    out.extend_from_slice(b"{\"$regularExpression\":{\"pattern\":")?;
    put_quoted(out, pattern.as_bytes())?;
    out.extend_from_slice(b",\"options\":")?;
    put_quoted(out, options.as_bytes())?;
    out.extend_from_slice(b"}}")?;
    Ok(())
}

fn put_pointer(out: &mut Vec<u8>, ns: &str, id: [u8; 12]) -> Result<(), AllocError>
    ensures { OnOk result (out.new.items ≡ out.old.items ++ text_of (pointer_tree ns.now id)) }
{
    out.extend_from_slice(b"{\"$dbPointer\":{\"$ref\":")?;
    put_quoted(out, ns.as_bytes())?;
    out.extend_from_slice(b",\"$id\":")?;
    put_object_id(out, id)?;
    out.extend_from_slice(b"}}")?;
    Ok(())
}

fn put_code(out: &mut Vec<u8>, code: &str) -> Result<(), AllocError>
    ensures { OnOk result (out.new.items ≡ out.old.items ++ text_of (code_tree code.now)) }
{
    out.extend_from_slice(b"{\"$code\":")?;
    put_quoted(out, code.as_bytes())?;
    out.push(125)?;
    Ok(())
}

fn put_symbol(out: &mut Vec<u8>, text: &str) -> Result<(), AllocError>
    ensures { OnOk result (out.new.items ≡ out.old.items ++ text_of (symbol_tree text.now)) }
{
    out.extend_from_slice(b"{\"$symbol\":")?;
    put_quoted(out, text.as_bytes())?;
    out.push(125)?;
    Ok(())
}

fn put_number(out: &mut Vec<u8>, n: u32) -> Result<(), AllocError>
    ensures { OnOk result (out.new.items ≡ out.old.items ++ decimal n) }
{
    let mut digits = Buffer::new();
    out.extend_from_slice(digits.format(n).as_bytes())
}

fn put_stamp(out: &mut Vec<u8>, ts: Ts) -> Result<(), AllocError>
    ensures { OnOk result (out.new.items ≡ out.old.items ++ text_of (stamp_tree ts.secs ts.inc)) }
{
    out.extend_from_slice(b"{\"$timestamp\":{\"t\":")?;
    put_number(out, ts.secs)?;
    out.extend_from_slice(b",\"i\":")?;
    put_number(out, ts.inc)?;
    out.extend_from_slice(b"}}")?;
    Ok(())
}

// The number that these bytes are, where there are enough.
#[tactic(auto, unfolding(bson_view::specs::Meaning::value_in, bson_view::specs::Meaning::read_value, bson_check::specs::Reading::value_with, bson_check::specs::Reading::int_at))]
fn int_of(bytes: &[u8]) -> Option<i32>
    ensures { IfSome result (λ n. Int n ≡ value_in 16 bytes.now) }
{
    if bytes.len() < 4 {
        return None;
    }
    Some(number_of(bytes).cast_signed())
}

#[tactic(auto, unfolding(bson_view::specs::Meaning::value_in, bson_view::specs::Meaning::read_value, bson_check::specs::Reading::value_with, bson_check::specs::Reading::int_at))]
fn long_of(bytes: &[u8]) -> Option<i64>
    ensures { IfSome result (λ n. Long n ≡ value_in 18 bytes.now) }
{
    match run(8, bytes.len(), bytes) {
        Ok((run, _)) => Some(long(run)),
        Err(_) => None,
    }
}

// A value of any type but text. It stands apart, so that the frame of its callers stays small.
#[inline(never)]
fn put_read(alloc: Global, out: &mut Vec<u8>, elem: &Elem<'_>) -> Result<(), AllocError>
    requires leaf { IsLeaf (out-Value (elem_value elem.now)) }
    requires no_text { elem.now.tag ≢ 2 }
    ensures { OnOk result (out.new.items ≡ out.old.items ++ json_of (elem_value elem.now)) }
{
    elem.spells();
    match elem.read() {
        ValueRef::Double(bits) => put_double(out, bits),
        ValueRef::Str(_) | ValueRef::Object(_) | ValueRef::Array(_) | ValueRef::ScopedCode { .. } =>
            unreachable!(),
        ValueRef::Binary { subtype, bytes } => put_binary(alloc, out, subtype, bytes),
        ValueRef::Undefined => out.extend_from_slice(b"{\"$undefined\":true}"),
        ValueRef::Oid(id) => put_object_id(out, id),
        ValueRef::Bool(true) => out.extend_from_slice(b"true"),
        ValueRef::Bool(false) => out.extend_from_slice(b"false"),
        ValueRef::Date(millis) => put_date(out, millis),
        ValueRef::Null => out.extend_from_slice(b"null"),
        ValueRef::Regex { pattern, options } => put_regex(out, pattern, options),
        ValueRef::DbPointer { ns, id } => put_pointer(out, ns, id),
        ValueRef::Code(code) => put_code(out, code),
        ValueRef::Symbol(text) => put_symbol(out, text),
        ValueRef::Int(n) => put_int(out, n),
        ValueRef::Stamp(ts) => put_stamp(out, ts),
        ValueRef::Long(n) => put_long(out, n),
        ValueRef::Decimal(bits) => put_decimal(out, bits),
        ValueRef::MinKey => out.extend_from_slice(b"{\"$minKey\":1}"),
        ValueRef::MaxKey => out.extend_from_slice(b"{\"$maxKey\":1}"),
    }
}

/// Appends a value that holds no document and no array.
pub fn put_leaf(alloc: Global, out: &mut Vec<u8>, elem: &Elem<'_>) -> Result<(), AllocError>
    requires { IsLeaf (out-Value (elem_value elem.now)) }
    ensures { OnOk result (out.new.items ≡ out.old.items ++ json_of (elem_value elem.now)) }
{
    if elem.tag == type_byte::STRING {
        return put_text(out, elem);
    }
    if elem.tag == type_byte::INT32
        && let Some(n) = int_of(elem.value)
    {
        return put_int(out, n);
    }
    if elem.tag == type_byte::INT64
        && let Some(n) = long_of(elem.value)
    {
        return put_long(out, n);
    }
    put_read(alloc, out, elem)
}
