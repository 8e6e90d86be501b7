//! The size of a document: the bytes of its spelling, and its levels.
ghost use Rattle.std.specs.Prelude.{◌≡◌, ◌↔◌, ◌+◌, ◌<◌, ◌≤◌, length, map, IsTrue, MatchOption};
ghost use Rattle.std.specs.Fmt.{decimal};
ghost use Rattle.bson_value.specs.Levels.{largest, levels_in, levels_of};
ghost use Rattle.bson_value.specs.Spelling.{document_text, elements_of, element, items_of, numbered, spelled, spelling};
ghost use Rattle.bson_value.specs.Size.{Leaves, Fits};

use crate::fields::Fields;
use crate::value::Value;
use containers::CText;

impl Fields<Value> {
    /// Whether the spelling has at most `max` bytes, and the document at most `depth` levels. The
    /// document is the first level, and each document, array and scope in it adds one. It looks at no
    /// more of the document than fits.
    pub fn fits(&self, max: usize, depth: usize) -> bool
        ensures { IsTrue result ↔ Fits self.now max depth }
    {
        document(self, max, depth).is_some()
    }
}

// The room that is left behind so many bytes.
fn without(room: usize, bytes: usize, more: usize) -> Option<usize>
    ensures { MatchOption result (room < bytes + more) (λ left. left + (bytes + more) ≡ room) }
{
    room.checked_sub(bytes)?.checked_sub(more)
}

// How many digits a number has.
/// The number of decimal digits of a number.
pub fn digit_count(n: usize) -> usize
    ensures digits { result ≡ length (decimal n) }
    ensures small { result ≤ n + 1 }
{
    if n < 10 { 1 } else { digit_count(n / 10) + 1 }
}

#[tactic(auto, unfolding(crate::specs::Levels::levels_in))]
#[cycle(size)]
fn value(value: &Value, room: usize, depth: usize) -> Option<usize>
    ensures { Leaves (length (spelled value.now)) (levels_in value.now) room depth result }
{
    match value {
        Value::Object(doc) => document(doc, room, depth),
        Value::Array(items) => array(items.as_slice(), room, depth),
        Value::ScopedCode { code, scope } => document(scope, without(room, code.len(), 9)?, depth),
        Value::Str(text) => without(room, text.len(), 5),
        Value::Code(text) => without(room, text.len(), 5),
        Value::Symbol(text) => without(room, text.len(), 5),
        Value::Binary { bytes, .. } => without(room, bytes.len(), 5),
        Value::Regex { pattern, options } => {
            without(without(room, pattern.len(), 1)?, options.len(), 1)
        }
        Value::DbPointer { ns, id } => without(without(room, ns.len(), 5)?, id.as_slice().len(), 0),
        Value::Double(bits) => without(room, bits.as_slice().len(), 0),
        Value::Decimal(bits) => without(room, bits.as_slice().len(), 0),
        Value::Oid(id) => without(room, id.as_slice().len(), 0),
        Value::Date(_) => without(room, 8, 0),
        Value::Stamp(_) => without(room, 8, 0),
        Value::Long(_) => without(room, 8, 0),
        Value::Int(_) => without(room, 4, 0),
        Value::Bool(_) => without(room, 1, 0),
        Value::Undefined | Value::Null | Value::MinKey | Value::MaxKey => Some(room),
    }
}

#[cycle(size)]
fn document(doc: &Fields<Value>, room: usize, depth: usize) -> Option<usize>
    ensures { Leaves (length (document_text doc.now)) (levels_of doc.now) room depth result }
{
    if depth == 0 {
        return None;
    }
    fields(doc.entries(), without(room, 5, 0)?, depth - 1)
}

#[cycle(size)]
fn fields(entries: &[(CText, Value)], room: usize, depth: usize) -> Option<usize>
    ensures { Leaves (length (elements_of entries.now)) (largest (map (λ e. levels_in e.1) entries.now)) room depth result }
{
    let mut left = room;
    for i in 0..entries.len() {
        left = field(&entries[i], left, depth)?;
    }
    Some(left)
}

#[cycle(size)]
fn field(entry: &(CText, Value), room: usize, depth: usize) -> Option<usize>
    ensures { Leaves (length (element (entry.now.0, spelling entry.now.1))) (levels_in entry.now.1) room depth result }
{
    value(&entry.1, without(room, entry.0.len(), 2)?, depth)
}

#[cycle(size)]
fn array(items: &[Value], room: usize, depth: usize) -> Option<usize>
    ensures { Leaves (length (items_of items.now) + 5) (largest (map levels_in items.now) + 1) room depth result }
{
    if depth == 0 {
        return None;
    }
    let mut left = without(room, 5, 0)?;
    for i in 0..items.len() {
        left = value(&items[i], without(left, digit_count(i), 2)?, depth - 1)?;
    }
    Some(left)
}
