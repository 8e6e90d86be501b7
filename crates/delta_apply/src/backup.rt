//! Copies of the fields that touches go to, by which a document is brought back.
ghost use Rattle.std.specs.Prelude.{◌≡◌, ◌+◌, List, Option, ◌++◌, ◌∷◌, [], ◌<◌, ◌≤◌, length, IfOk};
ghost use Rattle.std.specs.Vec.{vec_len, vec_capacity};
ghost use Rattle.std.specs.Vec.Iter.{into_iter_items};
ghost use Rattle.containers.specs.Entries.{AreDistinct, names_of};
ghost use Rattle.delta_apply.specs.Touched.{Field, untouched, touched_field, touched_fields, joined};

use crate::touched::is_touched;
use bson_value::{CText, Doc, List, Value};
use doc_path::Touch;
use std::alloc::{AllocError, Global};
use std::mem;
use std::vec::IntoIter;

/// At the place of each field of a document a copy of it, where a touch goes to it.
#[derive(Drop)]
pub(crate) struct Backup {
    touched: List<Option<(CText, Value)>>,
    // room for all fields of the document
    room: Vec<(CText, Value)>,

    ghost empty: { vec_len room ≡ 0 },
    ghost wide: { length touched ≤ vec_capacity room },
}

fn copy_touched(
    alloc: Global,
    touches: &[Touch],
    field: &(CText, Value),
) -> Result<Option<(CText, Value)>, AllocError>
    ensures { IfOk result (λ copy. copy ≡ touched_field touches.now field.now) }
{
    if is_touched(touches, field.0.as_str()) {
        let name = field.0.copy(alloc)?;
        let value = field.1.copy(alloc)?;
        Ok(Some((name, value)))
    } else {
        Ok(None)
    }
}

fn copy_all_touched(
    alloc: Global,
    touches: &[Touch],
    doc: &Doc,
) -> Result<List<Option<(CText, Value)>>, AllocError>
    ensures copies { IfOk result (λ copies. copies ≡ touched_fields touches.now doc.now) }
    ensures distinct { AreDistinct (names_of doc.now) }
{
    let mut copies = List::with_capacity(alloc, doc.len())?;
    for field in doc.entries() {
        copies.push(copy_touched(alloc, touches, field)?)?;
    }
    Ok(copies)
}

// One field more, for which there is room.
fn push_field(fields: &mut Vec<(CText, Value)>, field: (CText, Value))
    requires { vec_len fields.old < vec_capacity fields.old }
    ensures items { fields.new.items ≡ fields.old.items ++ field ∷ [] }
    ensures len { vec_len fields.new ≡ vec_len fields.old + 1 }
    ensures room { vec_capacity fields.old ≤ vec_capacity fields.new }
{
    match fields.push(field) {
        Ok(()) => {}
        Err(_) => unreachable!(),
    }
}

// The fields to which no touch goes.
fn others(touches: &[Touch], fields: Vec<(CText, Value)>) -> Vec<(CText, Value)>
    ensures { result.items ≡ untouched touches.now fields.items }
{
    let mut fields = fields;
    fields.retain(|field| !is_touched(touches, field.0.as_str()));
    fields
}

// The field at the next place: the touched one, or the next of the others.
fn push_next(
    fields: &mut Vec<(CText, Value)>,
    touched: Option<(CText, Value)>,
    others: &mut IntoIter<(CText, Value)>,
)
    requires { vec_len fields.old < vec_capacity fields.old }
    ensures fields { (rest : List (Option Field)) → fields.new.items ++ joined rest (into_iter_items others.new) ≡ fields.old.items ++ joined (touched ∷ rest) (into_iter_items others.old) }
    ensures len { vec_len fields.new ≤ vec_len fields.old + 1 }
    ensures room { vec_capacity fields.old ≤ vec_capacity fields.new }
{
    match touched {
        Some(field) => push_field(fields, field),
        None => {
            if let Some(field) = others.next() {
                push_field(fields, field);
            }
        }
    }
}

// The touched fields at their places, and the others between them.
fn join(backup: Backup, others: Vec<(CText, Value)>) -> Vec<(CText, Value)>
    ensures { result.items ≡ joined backup.touched others.items }
{
    let mut fields = backup.room;
    let mut others = others.into_iter();
    for touched in backup.touched.into_vec() {
        push_next(&mut fields, touched, &mut others);
    }
    fields
}

impl Backup {
    pub(crate) fn of(touches: &[Touch], doc: &Doc) -> Result<Backup, AllocError>
        ensures touched { IfOk result (λ backup. backup.touched ≡ touched_fields touches.now doc.now) }
        ensures distinct { AreDistinct (names_of doc.now) }
    {
        let alloc = doc.alloc();
        let touched = copy_all_touched(alloc, touches, doc)?;
        let room = Vec::with_capacity(alloc, touched.len())?;
        Ok(Backup { touched, room })
    }

    /// Brings the document back, in which only touched fields are others than they were. It takes no memory.
    pub(crate) fn restore(self, touches: &[Touch], doc: &mut Doc)
        requires { AreDistinct (names_of (joined self.touched (untouched touches.now doc.old))) }
        ensures { doc.new ≡ joined self.touched (untouched touches.now doc.old) }
    {
        let empty = Doc::new(doc.alloc());
        let fields = mem::replace(doc, empty).into_entries();
        *doc = Doc::of_distinct(join(self, others(touches, fields)));
    }
}
