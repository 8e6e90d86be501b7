//! A document that is being updated, and single changes of it.
ghost use Rattle.std.specs.Prelude.{◌≡◌, ◌++◌, ◌-◌, ◌≤◌, List, OnOk, IfOk, length};
ghost use Rattle.bson_value.specs.declared.value.Value.{Value as Datum};
ghost use Rattle.bson_value.specs.declared.value.Value.{Object as object_of};
ghost use Rattle.doc_path.specs.Touch.{limit};
ghost use Rattle.update_model.specs.Located.{build};
ghost use Rattle.update_model.specs.Steps.{elements, padding, newly, replaced, added, appended, removed, cut};
ghost use Rattle.update_ops.specs.Drafts.{IsAfter};

use bson_value::{CText, Doc, List, Value};
use doc_path::{Change, Form, Part, change_document};
use std::alloc::{AllocError, Global};
use update_model::{Made, Mark};

/// A document that is being updated.
#[derive(Drop)]
pub struct Draft {
    pub doc: Doc,
    /// The places that were changed, in order.
    pub marks: List<Mark>,
    /// An array would have got more elements than any document has room for.
    pub is_large: bool,
}

fn copy_parts(alloc: Global, parts: &[Part]) -> Result<List<Part>, AllocError>
    ensures { IfOk result (λ copies. copies ≡ parts.now) }
{
    let mut copies = List::with_capacity(alloc, parts.len())?;
    for part in parts {
        copies.push(part.copy(alloc)?)?;
    }
    Ok(copies)
}

fn mark_element(
    alloc: Global,
    marks: &mut List<Mark>,
    way: &[Part],
    at: u32,
) -> Result<(), AllocError>
    ensures { OnOk result (marks.new ≡ marks.old ++ elements way.now at 1) }
{
    marks.push(Mark {
        way: copy_parts(alloc, way)?,
        last: Part::Index(at),
        made: Made::Changed,
    })
}

// The elements from one index up to another.
fn mark_elements(
    alloc: Global,
    marks: &mut List<Mark>,
    way: &[Part],
    from: usize,
    to: u32,
) -> Result<(), AllocError>
    ensures { OnOk result (marks.new ≡ marks.old ++ elements way.now from (to - from)) }
{
    for at in from..to as usize {
        mark_element(alloc, marks, way, at as u32)?;
    }
    Ok(())
}

fn mark_padding(
    alloc: Global,
    marks: &mut List<Mark>,
    way: &[Part],
    last: &Part,
    size: usize,
) -> Result<(), AllocError>
    ensures { OnOk result (marks.new ≡ marks.old ++ padding way.now last.now size) }
{
    match last {
        Part::Name(_) => Ok(()),
        Part::Index(at) => mark_elements(alloc, marks, way, size, *at),
    }
}

/// How a place is made at which nothing was.
fn newly_made(last: &Part) -> Made
    ensures { result ≡ newly last.now }
{
    match last {
        Part::Name(_) => Made::Fresh,
        Part::Index(_) => Made::Changed,
    }
}

/// The value behind these names, in documents of one field each.
pub fn built(alloc: Global, names: &[CText], value: Value) -> Result<Value, AllocError>
    ensures { IfOk result (λ v. v ≡ build names.now value) }
{
    match names.split_first() {
        None => Ok(value),
        Some((name, rest)) => {
            let inner = built(alloc, rest, value)?;
            let mut doc = Doc::new(alloc);
            doc.add(name.copy(alloc)?, inner)?;
            Ok(Value::Object(doc))
        }
    }
}

impl Draft {
    /// Another value in the place of the one that is there.
    pub fn replace(&mut self, way: List<Part>, last: Part, value: Value) -> Result<(), AllocError>
        ensures { OnOk result (IsAfter (replaced way last value (object_of self.old.doc)) self.old self.new) }
    {
        let put = Change::Put(value);
        change_document(&mut self.doc, Form::V2, way.as_slice(), &last, put)?;
        let made = Made::Changed;
        self.marks.push(Mark { way, last, made })
    }

    /// A value where nothing was, of a document or of an array with so many elements.
    pub fn add(
        &mut self,
        alloc: Global,
        way: List<Part>,
        last: Part,
        size: usize,
        value: Value,
    ) -> Result<(), AllocError>
        ensures { OnOk result (IsAfter (added way last size value (object_of self.old.doc)) self.old self.new) }
    {
        mark_padding(alloc, &mut self.marks, way.as_slice(), &last, size)?;
        let put = Change::Put(value);
        change_document(&mut self.doc, Form::V2, way.as_slice(), &last, put)?;
        let made = newly_made(&last);
        self.marks.push(Mark { way, last, made })
    }

    /// The array with more elements behind its own, of which there are so many.
    pub fn append(
        &mut self,
        alloc: Global,
        way: List<Part>,
        last: Part,
        count: usize,
        all: List<Value>,
    ) -> Result<(), AllocError>
        requires { length all ≤ limit }
        ensures { (is vs : List Datum) → all ≡ is ++ vs → count ≡ length is → OnOk result (IsAfter (appended way last is vs (object_of self.old.doc)) self.old self.new) }
    {
        let to = all.len() as u32;
        let put = Change::Put(Value::Array(all));
        change_document(&mut self.doc, Form::V2, way.as_slice(), &last, put)?;
        let mut place = way;
        place.push(last)?;
        mark_elements(alloc, &mut self.marks, place.as_slice(), count, to)
    }

    /// The field is taken out.
    pub fn take_out(&mut self, way: List<Part>, last: Part) -> Result<(), AllocError>
        ensures { OnOk result (IsAfter (removed way last (object_of self.old.doc)) self.old self.new) }
    {
        change_document(
            &mut self.doc,
            Form::V2,
            way.as_slice(),
            &last,
            Change::Delete,
        )?;
        let made = Made::Changed;
        self.marks.push(Mark { way, last, made })
    }

    /// The array has its first elements alone, so many of them.
    pub fn cut(&mut self, way: List<Part>, last: Part, len: u32) -> Result<(), AllocError>
        ensures { OnOk result (IsAfter (cut way last len (object_of self.old.doc)) self.old self.new) }
    {
        let resize = Change::Resize(len);
        change_document(&mut self.doc, Form::V2, way.as_slice(), &last, resize)?;
        let made = Made::Cut;
        self.marks.push(Mark { way, last, made })
    }
}
