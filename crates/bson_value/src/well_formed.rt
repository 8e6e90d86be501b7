//! That values are well-formed at every level, which the types keep.
ghost use Rattle.std.specs.Prelude.{◌≡◌, ◌<◌, ◌^◌, true};
ghost use Rattle.std.specs.Str.{is_utf8};
ghost use Rattle.std.specs.List.{AllByRecursion};
ghost use Rattle.bson_value.specs.WellFormed.{IsName, AreBytes, IsWellFormed, AreWellFormedItems, AreWellFormedFields, IsWellFormedDocument};

use crate::fields::Fields;
use crate::value::{Ts, Value};
use containers::{CText, Text};

fn text(text: &Text)
    ensures { is_utf8 text.now ≡ true }
{
    let _ = text.as_str();
}

fn name(name: &CText)
    ensures { IsName name.now }
{
    let _ = name.as_str();
}

fn are_bytes(bytes: &[u8])
    ensures { AreBytes bytes.now }
{}

fn stamp(ts: Ts)
    ensures { (ts.secs < 2 ^ 32) × (ts.inc < 2 ^ 32) }
{
    let _ = (ts.secs, ts.inc);
}

impl Value {
    /// Does nothing, in time linear in the number of values. Its caller learns that the value is
    /// well-formed at every level.
    #[cycle(well_formed)]
    #[tactic(auto, using(crate::proofs::WellFormed::well_formed))]
    pub fn is_well_formed(&self)
        ensures { IsWellFormed self.now }
    {
        match self {
            Value::Double(bits) => are_bytes(bits),
            Value::Oid(id) => are_bytes(id),
            Value::Decimal(bits) => are_bytes(bits),
            Value::Undefined | Value::Bool(_) | Value::Null | Value::MinKey | Value::MaxKey => {}
            Value::Str(t) | Value::Code(t) | Value::Symbol(t) => text(t),
            Value::Object(doc) => doc.is_well_formed(),
            Value::Array(vs) => items(vs.as_slice()),
            Value::Binary { subtype, bytes } => {
                let _subtype = *subtype;
                are_bytes(bytes.as_slice());
            }
            Value::Date(n) | Value::Long(n) => {
                let _n = *n;
            }
            Value::Regex { pattern, options } => {
                name(pattern.text());
                name(options.text());
            }
            Value::DbPointer { ns, id } => {
                text(ns.text());
                are_bytes(id);
            }
            Value::ScopedCode { code, scope } => {
                text(code.text());
                scope.is_well_formed();
            }
            Value::Int(n) => {
                let _n = *n;
            }
            Value::Stamp(ts) => stamp(*ts),
        }
    }
}

#[cycle(well_formed)]
fn items(items: &[Value])
    ensures { AreWellFormedItems items.now }
{
    for item in items {
        item.is_well_formed();
    }
}

impl Fields<Value> {
    /// Does nothing, in time linear in the number of values. Its caller learns that the document is
    /// well-formed at every level.
    #[cycle(well_formed)]
    pub fn is_well_formed(&self)
        ensures { IsWellFormedDocument self.now }
    {
        fields(self.entries());
    }
}

#[cycle(well_formed)]
fn fields(entries: &[(CText, Value)])
    ensures names { AllByRecursion (λ e. IsName e.0) entries.now }
    ensures values { AreWellFormedFields entries.now }
{
    for entry in entries {
        field(entry);
    }
}

#[cycle(well_formed)]
fn field(entry: &(CText, Value))
    ensures name { IsName entry.now.0 }
    ensures value { IsWellFormed entry.now.1 }
{
    name(&entry.0);
    entry.1.is_well_formed();
}
