//! Reading a document from its bytes.
ghost use Rattle.std.specs.Prelude.{◌≡◌, ◌+◌, ◌-◌, ◌*◌, ◌<◌, ◌≤◌, [], ◌∷◌, ◌++◌, length, slice_index, ◌^◌, List, ℕ, ◌==◌, IfSome, IfOk, IfErr, Contains, MatchOption, MatchResult, OnOk, OnErr, true, false, take, drop, Ok};
ghost use Rattle.std.specs.Str.{is_utf8};
ghost use Rattle.std.specs.List.{position_from};
ghost use Rattle.bson_check.specs.declared.fault.DecodeFault.TheVariants.{NoMemory};
ghost use Rattle.bson_check.specs.Spells.{SpellsWithin};
ghost use Rattle.bson_check.specs.Faults.{IsFault, first_fault};
ghost use Rattle.bson_value.specs.WellFormed.{IsWellFormed, IsWellFormedDocument};
ghost use Rattle.bson_value.specs.declared.value.Value.{Value as Datum};
ghost use Rattle.bson_check.specs.Passing.{count_of, jump};
ghost use Rattle.bson_check.specs.Reading.{Gives, Reads, read_of, number, int_at, bool_at, text_at, frame_at, Frame, name_at, named, is_type, field_at, item_at, fields_at, items_at, value_at, document_at, array_at, scoped_at, document_of, run_at, long_of, stamp_of, raw_at, binary_at, cut_at, regex_at, pointer_at, scope_at, total_at, Scoped};

use bson_check::name_set::NameSet;
use bson_check::parts::{
    binary, boolean, eight, frame, head, int, is_type, long, name, number_of, pointer, regex, run,
    sixteen, stamp, text, total, twelve,
};
use bson_check::passing::after;
use bson_check::repeats::first_fault;
use bson_check::{BsonFault, BsonKind, DecodeFault};
use bson_value::{BoxedCText, BoxedText, Bytes, CText, Doc, Fields, List, Text, Value, type_byte};
use std::alloc::Global;

fn bad(kind: BsonKind, at: usize) -> DecodeFault
    ensures { result ≡ DecodeFault.Bad (record { kind = kind; at = at }) }
{
    DecodeFault::Bad(BsonFault { kind, at })
}

#[tactic(auto, unfolding(bson_check::specs::Reading::value_with, bson_check::specs::Passing::jump))]
#[cycle(decode)]
fn value(
    alloc: Global,
    levels: usize,
    tag: u8,
    end: usize,
    bytes: &[u8],
) -> Result<(Value, &[u8]), DecodeFault>
    requires { length bytes.now ≤ end }
    ensures gives { Gives (λ x. (x.0, x.1.now)) result (value_at levels tag end bytes.now) }
    ensures fits { IfOk result (λ x. length x.1.now ≤ length bytes.now) }
    ensures jumps { IfOk result (λ x. x.1.now ≡ jump tag bytes.now) }
{
    match tag {
        type_byte::DOUBLE => {
            let (run, rest) = run(8, end, bytes)?;
            Ok((Value::Double(eight(run)), rest))
        }
        type_byte::STRING => {
            let (text, rest) = text(end, bytes)?;
            Ok((Value::Str(Text::of(alloc, text)?), rest))
        }
        type_byte::DOCUMENT => {
            let (doc, rest) = document(alloc, levels, end, bytes)?;
            Ok((Value::Object(doc), rest))
        }
        type_byte::ARRAY => {
            let (items, rest) = array(alloc, levels, end, bytes)?;
            Ok((Value::Array(items), rest))
        }
        type_byte::BINARY => {
            let (subtype, run, rest) = binary(end, bytes)?;
            let bytes = Bytes::of(alloc, run)?;
            Ok((Value::Binary { subtype, bytes }, rest))
        }
        type_byte::UNDEFINED => Ok((Value::Undefined, bytes)),
        type_byte::OBJECT_ID => {
            let (run, rest) = run(12, end, bytes)?;
            Ok((Value::Oid(twelve(run)), rest))
        }
        type_byte::BOOLEAN => Ok(boolean(end, bytes)?),
        type_byte::DATE => {
            let (run, rest) = run(8, end, bytes)?;
            Ok((Value::Date(long(run)), rest))
        }
        type_byte::NULL => Ok((Value::Null, bytes)),
        type_byte::REGEX => {
            let pair = regex(end, bytes)?;
            let pattern = BoxedCText::of_text(alloc, pair.first)?;
            let options = BoxedCText::of_text(alloc, pair.second)?;
            Ok((Value::Regex { pattern, options }, pair.after))
        }
        type_byte::DB_POINTER => {
            let (ns, id, rest) = pointer(end, bytes)?;
            let ns = BoxedText::of(alloc, ns)?;
            Ok((Value::DbPointer { ns, id: twelve(id) }, rest))
        }
        type_byte::CODE => {
            let (text, rest) = text(end, bytes)?;
            Ok((Value::Code(Text::of(alloc, text)?), rest))
        }
        type_byte::SYMBOL => {
            let (text, rest) = text(end, bytes)?;
            Ok((Value::Symbol(Text::of(alloc, text)?), rest))
        }
        type_byte::SCOPED_CODE => {
            let (code, scope, rest) = scoped(alloc, levels, end, bytes)?;
            Ok((Value::ScopedCode { code, scope }, rest))
        }
        type_byte::INT32 => Ok(int(end, bytes)?),
        type_byte::TIMESTAMP => {
            let (run, rest) = run(8, end, bytes)?;
            Ok((Value::Stamp(stamp(run)), rest))
        }
        type_byte::INT64 => {
            let (run, rest) = run(8, end, bytes)?;
            Ok((Value::Long(long(run)), rest))
        }
        type_byte::DECIMAL128 => {
            let (run, rest) = run(16, end, bytes)?;
            Ok((Value::Decimal(sixteen(run)), rest))
        }
        type_byte::MIN_KEY => Ok((Value::MinKey, bytes)),
        type_byte::MAX_KEY => Ok((Value::MaxKey, bytes)),
        _ => Err(bad(BsonKind::Tag, end - bytes.len())),
    }
}

#[tactic(auto, unfolding(bson_check::specs::Reading::scoped_at))]
#[cycle(decode)]
fn scoped(
    alloc: Global,
    levels: usize,
    end: usize,
    bytes: &[u8],
) -> Result<(BoxedText, Doc, &[u8]), DecodeFault>
    requires { length bytes.now ≤ end }
    ensures gives { Gives (λ x. ((x.0, x.1), x.2.now)) result (scoped_at levels end bytes.now) }
    ensures fits { IfOk result (λ x. length x.2.now ≤ length bytes.now) }
    ensures jumps { IfOk result (λ x. x.2.now ≡ drop (count_of bytes.now) bytes.now) }
{
    let open = total(levels, end, bytes)?;
    let doc = fields(alloc, levels - 1, open.scope.stop, open.scope.body)?;
    if open.scope.last != 0 {
        return Err(bad(BsonKind::Length, open.scope.stop));
    }
    let code = BoxedText::of(alloc, open.code)?;
    Ok((code, doc, open.scope.after))
}

#[tactic(auto, unfolding(bson_check::specs::Reading::document_at))]
#[cycle(decode)]
fn document(
    alloc: Global,
    levels: usize,
    end: usize,
    bytes: &[u8],
) -> Result<(Doc, &[u8]), DecodeFault>
    requires { length bytes.now ≤ end }
    ensures gives { Gives (λ x. (x.0, x.1.now)) result (document_at levels end bytes.now) }
    ensures fits { IfOk result (λ x. length x.1.now ≤ length bytes.now) }
    ensures jumps { IfOk result (λ x. x.1.now ≡ drop (count_of bytes.now) bytes.now) }
{
    let open = frame(levels, end, bytes)?;
    let doc = fields(alloc, levels - 1, open.stop, open.body)?;
    if open.last != 0 {
        return Err(bad(BsonKind::Length, open.stop));
    }
    Ok((doc, open.after))
}

#[tactic(auto, unfolding(bson_check::specs::Reading::array_at))]
#[cycle(decode)]
fn array(
    alloc: Global,
    levels: usize,
    end: usize,
    bytes: &[u8],
) -> Result<(List<Value>, &[u8]), DecodeFault>
    requires { length bytes.now ≤ end }
    ensures gives { Gives (λ x. (x.0, x.1.now)) result (array_at levels end bytes.now) }
    ensures fits { IfOk result (λ x. length x.1.now ≤ length bytes.now) }
    ensures jumps { IfOk result (λ x. x.1.now ≡ drop (count_of bytes.now) bytes.now) }
{
    let open = frame(levels, end, bytes)?;
    let items = items(alloc, levels - 1, open.stop, open.body)?;
    if open.last != 0 {
        return Err(bad(BsonKind::Length, open.stop));
    }
    Ok((items, open.after))
}

#[tactic(auto, unfolding(bson_check::specs::Reading::item_at))]
#[cycle(decode)]
fn item(
    alloc: Global,
    levels: usize,
    end: usize,
    tag: u8,
    bytes: &[u8],
) -> Result<(Value, &[u8]), DecodeFault>
    requires { length bytes.now < end }
    ensures gives { Gives (λ x. (x.0, x.1.now)) result (item_at (value_at levels) end tag bytes.now) }
    ensures fits { IfOk result (λ x. length x.1.now ≤ length bytes.now) }
{
    if !is_type(tag) {
        return Err(bad(BsonKind::Tag, end - bytes.len() - 1));
    }
    let (_, rest) = name(end, bytes)?;
    value(alloc, levels, tag, end, rest)
}

// Room for the fields of most bodies of this length, and little where there are few.
fn first_room(len: usize) -> usize {
    len.div_ceil(16).min(16)
}

#[cycle(decode)]
fn fields(alloc: Global, levels: usize, end: usize, body: &[u8]) -> Result<Doc, DecodeFault>
    requires { length body.now ≤ end }
    ensures { Gives (λ d. d) result (fields_at (value_at levels) (length body.now) end [] body.now) }
{
    let mut entries = Vec::with_capacity(alloc, first_room(body.len()))?;
    let mut rest = body;
    let mut names = NameSet::new();
    'fields: while let Some((tag, bytes)) = rest.split_first() {
        match head(end, *tag, bytes) {
            Err(f) => return Err(DecodeFault::Bad(first_fault(end, body, rest.len(), f))),
            Ok((name, behind)) => match value(alloc, levels, *tag, end, behind) {
                Err(DecodeFault::NoMemory) => return Err(DecodeFault::NoMemory),
                Err(DecodeFault::Bad(f)) => {
                    let left = after(*tag, behind).len();
                    return Err(DecodeFault::Bad(first_fault(end, body, left, f)));
                }
                Ok((value, next)) => {
                    entries.push((CText::of_text(alloc, name)?, value))?;
                    names.insert(name.as_bytes());
                    rest = next;
                }
            },
        }
    }
    match names.first_repeat(end, body) {
        Some(at) => Err(bad(BsonKind::Repeat, at)),
        None => Ok(Fields::of_distinct(entries)),
    }
}

#[cycle(decode)]
fn items(alloc: Global, levels: usize, end: usize, body: &[u8]) -> Result<List<Value>, DecodeFault>
    requires { length body.now ≤ end }
    ensures { Gives (λ d. d) result (items_at (value_at levels) (length body.now) end [] body.now) }
{
    let mut items = List::new(alloc);
    let mut rest = body;
    'items: while let Some((tag, behind)) = rest.split_first() {
        let (value, after) = item(alloc, levels, end, *tag, behind)?;
        items.push(value)?;
        rest = after;
    }
    Ok(items)
}

#[tactic(auto, unfolding(bson_check::specs::Reading::document_of))]
fn whole(alloc: Global, bytes: &[u8], max: usize, depth: usize) -> Result<Doc, DecodeFault>
    ensures { Gives (λ d. d) result (document_of max depth bytes.now) }
{
    let len = bytes.len();
    if len < 4 {
        return Err(bad(BsonKind::Short, len));
    }
    let count = number_of(bytes) as usize;
    if count < 5 || 2147483647 < count {
        return Err(bad(BsonKind::Length, 0));
    }
    if max < count {
        return Err(bad(BsonKind::TooLong, 0));
    }
    if len < count {
        return Err(bad(BsonKind::Short, len));
    }
    if count < len {
        return Err(bad(BsonKind::Length, 0));
    }
    let (doc, _) = document(alloc, depth, len, bytes)?;
    Ok(doc)
}

/// The value of this type that the bytes begin with, whatever its size and depth.
pub fn decode_value(alloc: Global, tag: u8, bytes: &[u8]) -> Result<Value, DecodeFault>
    ensures exact { Gives (λ v. v) result (read_of (value_at (length bytes.now) tag (length bytes.now) bytes.now)) }
    ensures well_formed { IfOk result (λ v. IsWellFormed v) }
{
    let (value, _) = value(alloc, bytes.len(), tag, bytes.len(), bytes)?;
    Ok(value)
}

/// The document that the bytes spell, all of the bytes, of at most `max` bytes and `depth` levels.
/// Else the first fault from the left, the one that `check` answers.
pub fn decode(alloc: Global, bytes: &[u8], max: usize, depth: usize) -> Result<Doc, DecodeFault>
    ensures found { IfOk result (λ fs. SpellsWithin max depth bytes.now fs) }
    // What is spelled so is read, unless memory runs out.
    ensures only { (fs : List (List ℕ × Datum)) → SpellsWithin max depth bytes.now fs → MatchResult result (λ d. d ≡ fs) (λ e. e ≡ NoMemory) }
    ensures fault { IfErr result (λ e. IsFault e (first_fault max depth bytes.now)) }
    ensures exact { Gives (λ d. d) result (document_of max depth bytes.now) }
    ensures well_formed { IfOk result (λ d. IsWellFormedDocument d) }
{
    whole(alloc, bytes, max, depth)
}
