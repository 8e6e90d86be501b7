//! Changes at the end of a way: by a document's own places, and as replay does in both its forms.
ghost use Rattle.std.specs.Prelude.{◌≡◌, ◌∷◌, [], ◌<◌, ◌≤◌, IsTrue, true, false, Some, None, OnOk, OnErr, IfOk, IfSome, IfNone};
ghost use Rattle.bson_value.specs.declared.value.Value.{Object as object_of, Array as array_of};
ghost use Rattle.bson_value.specs.Place.{an_array};
ghost use Rattle.bson_value.specs.Digits.{digits, index_of as index_of_name};
ghost use Rattle.containers.specs.Entries.{put as put_field};
ghost use Rattle.doc_path.specs.Touch.{name as by_name, key_of, limit, walk_by, step_by, changed};
ghost use Rattle.doc_path.specs.Rules.{taken_by, made_by, changed_by, rule_of as rule_for, IsCalm};

use crate::elements::{blank_element, put_element, resize_value};
use crate::index::{INDEX_LIMIT, small_index};
use crate::parts::{Change, Form, Part, Rule};
use bson_value::{CText, Doc, List, Value};
use std::alloc::{AllocError, Global};

/// An index that replay takes.
fn low_index(at: u32) -> Option<usize>
    ensures some { IfSome result (λ n. (n ≡ at) × (at < limit)) }
    ensures none { IfNone result (limit ≤ at) }
{
    if (at as usize) < INDEX_LIMIT {
        Some(at as usize)
    } else {
        None
    }
}

/// The index that a part is in an array.
fn index_in_array(rule: Rule, part: &Part) -> Option<usize>
    ensures some { IfSome result (λ n. (taken_by rule part.now an_array ≡ true) × (index_of_name (key_of part.now) ≡ Some n)) }
    ensures none { IfNone result (taken_by rule part.now an_array ≡ false) }
{
    match part {
        Part::Name(name) => match rule {
            Rule::V1 => small_index(name.as_str()),
            _ => None,
        },
        Part::Index(at) => match rule {
            Rule::Plain => Some(*at as usize),
            _ => low_index(*at),
        },
    }
}

/// The digits of an index, as the name of a field.
fn digits_of(alloc: Global, at: u32) -> Result<CText, AllocError>
    ensures { IfOk result (λ t. t ≡ digits at) }
{
    let text = format!(in alloc; "{at}")?;
    CText::of_text(alloc, text.as_str())
}

/// The value stands in the field of this name, which is made at the end where it is missing.
fn set_field(doc: &mut Doc, name: &CText, value: Value) -> Result<(), AllocError>
    ensures ok { OnOk result (doc.new ≡ put_field name.now value doc.old) }
    ensures err { OnErr result (doc.new ≡ doc.old) }
{
    match doc.place(name.as_str()) {
        Some(at) => {
            let _ = doc.replace(at, value);
            Ok(())
        }
        None => {
            let name = name.copy(doc.alloc())?;
            doc.add(name, value)
        }
    }
}

/// A change of the field of this name.
fn change_field(doc: &mut Doc, rule: Rule, name: &CText, action: Change) -> Result<(), AllocError>
    ensures ok { OnOk result (object_of doc.new ≡ step_by (taken_by rule) (by_name name.now) action (object_of doc.old)) }
    ensures err { OnErr result (doc.new ≡ doc.old) }
    ensures calm { OnErr result (IsCalm rule action → ⊥) }
{
    match action {
        Change::Put(value) => set_field(doc, name, value),
        Change::Delete => {
            let _ = doc.remove(name.as_str());
            Ok(())
        }
        Change::Resize(len) => match doc.place(name.as_str()) {
            Some(at) => {
                let inner = doc.value_mut(at);
                resize_value(inner, len)
            }
            None => Ok(()),
        },
    }
}

/// A change of the field that the part names.
fn change_in_document(
    doc: &mut Doc,
    rule: Rule,
    last: &Part,
    action: Change,
) -> Result<(), AllocError>
    ensures ok { OnOk result (object_of doc.new ≡ step_by (taken_by rule) last.now action (object_of doc.old)) }
    ensures err { OnErr result (doc.new ≡ doc.old) }
    ensures calm { OnErr result (IsCalm rule action → ⊥) }
{
    match last {
        Part::Name(name) => change_field(doc, rule, name, action),
        Part::Index(at) => match rule {
            Rule::V1 => {
                let name = digits_of(doc.alloc(), *at)?;
                change_field(doc, rule, &name, action)
            }
            _ => Ok(()),
        },
    }
}

/// A change of the element whose index the part is.
fn change_in_array(
    items: &mut List<Value>,
    rule: Rule,
    last: &Part,
    action: Change,
) -> Result<(), AllocError>
    ensures ok { OnOk result (array_of items.new ≡ step_by (taken_by rule) last.now action (array_of items.old)) }
    ensures err { OnErr result (items.new ≡ items.old) }
    ensures calm { OnErr result (IsCalm rule action → ⊥) }
{
    match index_in_array(rule, last) {
        None => Ok(()),
        Some(at) => match action {
            Change::Put(value) => put_element(items, at, value),
            Change::Delete => {
                blank_element(items, at);
                Ok(())
            }
            Change::Resize(len) => {
                if at < items.len() {
                    let inner = items.item_mut(at);
                    resize_value(inner, len)
                } else {
                    Ok(())
                }
            }
        },
    }
}

/// A change just below a value.
fn change_here(value: &mut Value, rule: Rule, last: &Part, action: Change) -> Result<(), AllocError>
    ensures ok { OnOk result (value.new ≡ step_by (taken_by rule) last.now action value.old) }
    ensures err { OnErr result (value.new ≡ value.old) }
    ensures calm { OnErr result (IsCalm rule action → ⊥) }
{
    match value {
        Value::Object(doc) => change_in_document(doc, rule, last, action),
        Value::Array(items) => change_in_array(items, rule, last, action),
        _ => Ok(()),
    }
}

/// Whether a missing value on the way becomes a document.
fn makes(rule: Rule, action: &Change) -> bool
    ensures { (IsTrue result → made_by rule action.now ≡ Some (object_of [])) × ((IsTrue result → ⊥) → made_by rule action.now ≡ None) }
{
    match rule {
        Rule::V1 => matches!(action, Change::Put(_)),
        _ => false,
    }
}

/// A change at the end of the way.
#[cycle(change)]
fn change(
    value: &mut Value,
    rule: Rule,
    way: &[Part],
    last: &Part,
    action: Change,
) -> Result<(), AllocError>
    ensures ok { OnOk result (value.new ≡ changed_by rule way.now last.now action value.old) }
    ensures err { OnErr result (value.new ≡ value.old) }
    ensures calm { OnErr result (IsCalm rule action → ⊥) }
{
    match way.split_first() {
        None => change_here(value, rule, last, action),
        Some((first, rest)) => go(value, rule, first, rest, last, action),
    }
}

#[cycle(change)]
fn go(
    value: &mut Value,
    rule: Rule,
    first: &Part,
    rest: &[Part],
    last: &Part,
    action: Change,
) -> Result<(), AllocError>
    ensures ok { OnOk result (value.new ≡ walk_by (taken_by rule) (made_by rule action) (first.now ∷ rest.now) (step_by (taken_by rule) last.now action) value.old) }
    ensures err { OnErr result (value.new ≡ value.old) }
    ensures calm { OnErr result (IsCalm rule action → ⊥) }
{
    match value {
        Value::Object(doc) => go_in_document(doc, rule, first, rest, last, action),
        Value::Array(items) => go_in_array(items, rule, first, rest, last, action),
        _ => Ok(()),
    }
}

#[cycle(change)]
fn go_in_document(
    doc: &mut Doc,
    rule: Rule,
    first: &Part,
    rest: &[Part],
    last: &Part,
    action: Change,
) -> Result<(), AllocError>
    ensures ok { OnOk result (object_of doc.new ≡ walk_by (taken_by rule) (made_by rule action) (first.now ∷ rest.now) (step_by (taken_by rule) last.now action) (object_of doc.old)) }
    ensures err { OnErr result (doc.new ≡ doc.old) }
    ensures calm { OnErr result (IsCalm rule action → ⊥) }
{
    match first {
        Part::Name(name) => go_in_field(doc, rule, name, rest, last, action),
        Part::Index(at) => match rule {
            Rule::V1 => {
                let name = digits_of(doc.alloc(), *at)?;
                go_in_field(doc, rule, &name, rest, last, action)
            }
            _ => Ok(()),
        },
    }
}

#[cycle(change)]
fn go_in_field(
    doc: &mut Doc,
    rule: Rule,
    name: &CText,
    rest: &[Part],
    last: &Part,
    action: Change,
) -> Result<(), AllocError>
    ensures ok { OnOk result (object_of doc.new ≡ walk_by (taken_by rule) (made_by rule action) (by_name name.now ∷ rest.now) (step_by (taken_by rule) last.now action) (object_of doc.old)) }
    ensures err { OnErr result (doc.new ≡ doc.old) }
    ensures calm { OnErr result (IsCalm rule action → ⊥) }
{
    match doc.place(name.as_str()) {
        Some(at) => {
            let inner = doc.value_mut(at);
            change(inner, rule, rest, last, action)
        }
        None => {
            if makes(rule, &action) {
                let mut inner = Value::Object(Doc::new(doc.alloc()));
                change(&mut inner, rule, rest, last, action)?;
                let name = name.copy(doc.alloc())?;
                doc.add(name, inner)
            } else {
                Ok(())
            }
        }
    }
}

#[cycle(change)]
fn go_in_array(
    items: &mut List<Value>,
    rule: Rule,
    first: &Part,
    rest: &[Part],
    last: &Part,
    action: Change,
) -> Result<(), AllocError>
    ensures ok { OnOk result (array_of items.new ≡ walk_by (taken_by rule) (made_by rule action) (first.now ∷ rest.now) (step_by (taken_by rule) last.now action) (array_of items.old)) }
    ensures err { OnErr result (items.new ≡ items.old) }
    ensures calm { OnErr result (IsCalm rule action → ⊥) }
{
    match index_in_array(rule, first) {
        None => Ok(()),
        Some(at) => {
            if at < items.len() {
                let inner = items.item_mut(at);
                change(inner, rule, rest, last, action)
            } else if makes(rule, &action) {
                let mut inner = Value::Object(Doc::new(items.alloc()));
                change(&mut inner, rule, rest, last, action)?;
                put_element(items, at, inner)
            } else {
                Ok(())
            }
        }
    }
}

/// A change at the end of the way in a document.
pub fn change_in(
    doc: &mut Doc,
    rule: Rule,
    way: &[Part],
    last: &Part,
    action: Change,
) -> Result<(), AllocError>
    ensures ok { OnOk result (object_of doc.new ≡ changed_by rule way.now last.now action (object_of doc.old)) }
    ensures err { OnErr result (doc.new ≡ doc.old) }
    ensures calm { OnErr result (IsCalm rule action → ⊥) }
{
    match way.split_first() {
        None => change_in_document(doc, rule, last, action),
        Some((first, rest)) => go_in_document(doc, rule, first, rest, last, action),
    }
}

fn rule_of(form: Form) -> Rule
    ensures { result ≡ rule_for form }
{
    match form {
        Form::V1 => Rule::V1,
        Form::V2 => Rule::V2,
    }
}

/// A change at the end of the way, as replay does it in one of its forms. Where the way isn't there,
/// or the form doesn't take a part, the document stays. What replay leaves at once, as a place within
/// `_id`, isn't told apart here.
pub fn change_document(
    doc: &mut Doc,
    form: Form,
    way: &[Part],
    last: &Part,
    action: Change,
) -> Result<(), AllocError>
    ensures ok { OnOk result (object_of doc.new ≡ changed form way.now last.now action (object_of doc.old)) }
    ensures err { OnErr result (doc.new ≡ doc.old) }
{
    change_in(doc, rule_of(form), way, last, action)
}
