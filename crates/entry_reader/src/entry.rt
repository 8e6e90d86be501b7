//! Entries that are read where they lie.
ghost use Rattle.std.specs.Prelude.{◌≡◌, Some, IfOk, IfSome, option_map};
ghost use Rattle.std.specs.Result.{result_ok};
ghost use Rattle.bson_view.specs.Views.{document, elem_value};
ghost use Rattle.entry_model.specs.Written.{Fields};
ghost use Rattle.entry_model.specs.Reading.{head_of, namespace_of};
ghost use Rattle.entry_reader.specs.Changes.{change_of};
ghost use Rattle.entry_reader.specs.FieldDeltas.{IsFieldDelta};
ghost use Rattle.entry_reader.specs.Parts.{document_at, entry_by, head_by, change_at};

use crate::actions::action;
use crate::field_delta::{FieldDelta, delta_at};
use crate::found::Found;
use crate::parts::{namespace, stamp, text};
use bson_check::DecodeFault;
use bson_core::decode;
use bson_value::{Doc, Ts};
use bson_view::{Elem, View};
use entry_model::{Action, Entry};
use std::alloc::{AllocError, Global};

/// What is read of a document that says which entry it is.
#[derive(Clone, Copy)]
pub struct EntryView<'a> {
    head: Option<(Ts, &'a str)>,
    op: Option<&'a str>,
    o: Option<Elem<'a>>,
    o2: Option<Elem<'a>>,
}

// The head of these parts.
fn head_at<'a>(ts: Option<Ts>, ns: Option<&'a str>) -> Option<(Ts, &'a str)>
    ensures { option_map (λ h. (h.0, h.1.now)) result ≡ head_by ts (option_map (λ t. t.now) ns.entry) }
{
    Some((ts?, ns?))
}

// The entry of this action.
fn entry_at(alloc: Global, ts: Ts, text: &str, action: Action) -> Result<Option<Entry>, AllocError>
    ensures { IfOk result (λ e. e ≡ entry_by ts (namespace_of text.now) (Some action)) }
{
    match namespace(alloc, text)? {
        Some(ns) => Ok(Some(Entry { ts, ns, action })),
        None => Ok(None),
    }
}

// The entry that the parts say.
fn change_at(
    alloc: Global,
    head: Option<(Ts, &str)>,
    op: Option<&str>,
    o: Option<Elem<'_>>,
    o2: Option<Elem<'_>>,
) -> Result<Option<Entry>, AllocError>
    ensures { IfOk result (λ e. e ≡ change_at (option_map (λ h. (h.0, h.1.now)) head.entry) (option_map (λ t. t.now) op.entry) (document_at (option_map elem_value o.entry)) (document_at (option_map elem_value o2.entry))) }
{
    let Some((ts, ns)) = head else {
        return Ok(None);
    };
    let Some(op) = op else {
        return Ok(None);
    };
    let Some(o) = o else {
        return Ok(None);
    };
    match action(alloc, op, &o, o2)? {
        Some(action) => entry_at(alloc, ts, ns, action),
        None => Ok(None),
    }
}

impl<'a> EntryView<'a> {
    ghost use Rattle.entry_reader.specs.Entries.{AreFieldsOf};

    /// What is read of this document, in one walk over its elements.
    pub fn of(view: &View<'a>) -> EntryView<'a>
        ensures { AreFieldsOf result (document view.now) }
    {
        let found = Found::of(view);
        EntryView {
            head: head_at(stamp(found.ts), text(found.ns)),
            op: text(found.op),
            o: found.o,
            o2: found.o2,
        }
    }

    /// The timestamp and the text of the namespace. `None` where either is missing or of another type.
    pub fn head(&self) -> Option<(Ts, &'a str)>
        ensures { (fs : Fields) → AreFieldsOf self.now fs → option_map (λ h. (h.0, h.1.now)) result ≡ result_ok (head_of fs) }
    {
        self.head
    }

    /// The delta, where the entry is one that sets a field of the document itself or of a document that it holds, or
    /// takes one out, or sets an element of an array that it holds. Of others nothing is said.
    pub fn field_delta(&self) -> Option<FieldDelta<'a>>
        ensures { (fs : Fields) → AreFieldsOf self.now fs → IfSome result (λ d. IsFieldDelta d fs) }
    {
        delta_at(self.op, self.o, self.o2)
    }

    /// The entry, where it inserts, deletes or updates one document. `None` where it is another, and where it
    /// has a fault.
    pub fn change(&self, alloc: Global) -> Result<Option<Entry>, AllocError>
        ensures { (fs : Fields) → AreFieldsOf self.now fs → IfOk result (λ e. e ≡ change_of fs) }
    {
        change_at(alloc, self.head, self.op, self.o, self.o2)
    }
}

/// A copy of the document in memory of its own.
pub fn to_doc(alloc: Global, view: &View<'_>) -> Result<Doc, AllocError>
    ensures { IfOk result (λ d. d ≡ document view.now) }
{
    let bytes = view.bytes();
    match decode(alloc, bytes, bytes.len(), bytes.len()) {
        Ok(doc) => Ok(doc),
        Err(DecodeFault::NoMemory) => Err(AllocError),
        Err(DecodeFault::Bad(_)) => unreachable!(),
    }
}
