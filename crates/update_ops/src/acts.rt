//! What each operator does to a draft.
ghost use Rattle.std.specs.Prelude.{◌≡◌, ◌++◌, Bool, List, OnOk, IfErr, IfOk, length, if◌then◌else◌, Option};
ghost use Rattle.bson_value.specs.declared.value.Value.{Value as Datum, Object as object_of, out-Value};
ghost use Rattle.update_model.specs.declared.operator.Number.{Number as Numeral};
ghost use Rattle.update_model.specs.Located.{Located, located};
ghost use Rattle.update_model.specs.Equality.{same};
ghost use Rattle.update_model.specs.Steps.{removed};
ghost use Rattle.update_model.specs.Acts.{is_far as lies_far, is_null as null_in, is_index as index_part, made_at, changed_at, set as set_act, unset as unset_act, count as count_act, goes_through_array as through_array, can_take as may_take, moved_to, moved, rename as rename_act, grown, push as push_act, new_ones, pop as pop_act, shortened, pull as pull_act, act};
ghost use Rattle.update_ops.specs.Drafts.{Does, IsAfter, IsRefused};
ghost use Rattle.update_ops.specs.Operations.{applied, news};

use crate::arguments::number_of;
use crate::draft::{Draft, built};
use crate::locating::{Site, locate};
use crate::numbers::{Operation, combined, value_of, zero_of};
use crate::values::{copies, equals, extended, has, united, without};
use bson_value::{CText, List, Value};
use doc_path::{INDEX_LIMIT, Part, Path};
use std::alloc::{AllocError, Global};
use update_model::{ArrayEnd, Number, Operator, UpdateFault};

/// So many nulls are padded at most.
const PADDING_LIMIT: usize = 1000;

fn is_far(last: &Part, size: usize) -> bool
    ensures { result ≡ lies_far last.now size }
{
    match last {
        Part::Name(_) => false,
        Part::Index(at) => (*at as usize).saturating_sub(size) > PADDING_LIMIT,
    }
}

fn is_null(value: &Value) -> bool
    ensures { result ≡ null_in (out-Value value.now) }
{
    matches!(value, Value::Null)
}

fn is_index(part: &Part) -> bool
    ensures { result ≡ index_part part.now }
{
    match part {
        Part::Name(_) => false,
        Part::Index(_) => true,
    }
}

fn goes_through_array(way: &[Part], last: &Part) -> bool
    ensures { result ≡ through_array way.now last.now }
{
    for part in way {
        if is_index(part) {
            return true;
        }
    }
    is_index(last)
}

// The items, and behind them the values; of a set those that are new.
fn with_news(
    alloc: Global,
    items: &[Value],
    values: &[Value],
    is_set: bool,
) -> Result<List<Value>, AllocError>
    ensures { IfOk result (λ all. all ≡ items.now ++ news is_set values.now items.now) }
{
    if is_set {
        united(alloc, items, values)
    } else {
        extended(alloc, items, values)
    }
}

impl Draft {
    // A value where nothing is.
    fn make(
        &mut self,
        alloc: Global,
        way: List<Part>,
        last: Part,
        size: usize,
        rest: &[CText],
        value: Value,
    ) -> Result<(), UpdateFault>
        ensures does { OnOk result (Does (made_at way last size rest.now value (object_of self.old.doc)) self.old self.new) }
        ensures stops { IfErr result (λ e. IsRefused e (made_at way last size rest.now value (object_of self.old.doc))) }
    {
        if is_far(&last, size) {
            return Err(UpdateFault::Backfill);
        }
        let value = built(alloc, rest, value)?;
        self.add(alloc, way, last, size, value)?;
        Ok(())
    }

    // A value in the place of the one that is there, unless they are equal.
    fn change(
        &mut self,
        way: List<Part>,
        last: Part,
        is_same: bool,
        value: Value,
    ) -> Result<(), AllocError>
        ensures { (old : Datum) → is_same ≡ same old value → OnOk result (Does (changed_at way last old value (object_of self.old.doc)) self.old self.new) }
    {
        if is_same {
            Ok(())
        } else {
            self.replace(way, last, value)
        }
    }

    fn set(&mut self, alloc: Global, path: &Path, value: &Value) -> Result<(), UpdateFault>
        ensures does { OnOk result (Does (set_act (located path.now (object_of self.old.doc)) value.now (object_of self.old.doc)) self.old self.new) }
        ensures stops { IfErr result (λ e. IsRefused e (set_act (located path.now (object_of self.old.doc)) value.now (object_of self.old.doc))) }
    {
        let value = value.copy(alloc)?;
        let mut way = List::new(alloc);
        match locate(alloc, &self.doc, path, &mut way)? {
            Site::There(last, old) => {
                let is_same = equals(old, &value);
                self.change(way, last, is_same, value)?;
                Ok(())
            }
            Site::Missing(last, size, rest) => self.make(alloc, way, last, size, rest, value),
            Site::Blocked => Err(UpdateFault::NotViable),
        }
    }

    fn unset(&mut self, alloc: Global, path: &Path) -> Result<(), AllocError>
        ensures { OnOk result (Does (unset_act (located path.now (object_of self.old.doc)) (object_of self.old.doc)) self.old self.new) }
    {
        let mut way = List::new(alloc);
        match locate(alloc, &self.doc, path, &mut way)? {
            Site::There(last, old) => match &last {
                Part::Name(_) => self.take_out(way, last),
                Part::Index(_) => {
                    if is_null(old) {
                        Ok(())
                    } else {
                        self.replace(way, last, Value::Null)
                    }
                }
            },
            _ => Ok(()),
        }
    }

    // `by` is what stands where nothing is.
    fn count(
        &mut self,
        alloc: Global,
        path: &Path,
        operation: Operation,
        by: Number,
        first: Number,
    ) -> Result<(), UpdateFault>
        ensures does { OnOk result (Does (count_act (located path.now (object_of self.old.doc)) (λ m. applied operation m by) first (object_of self.old.doc)) self.old self.new) }
        ensures stops { IfErr result (λ e. IsRefused e (count_act (located path.now (object_of self.old.doc)) (λ m. applied operation m by) first (object_of self.old.doc))) }
    {
        let mut way = List::new(alloc);
        match locate(alloc, &self.doc, path, &mut way)? {
            Site::There(last, old) => {
                let Some(number) = number_of(old) else {
                    return Err(UpdateFault::WrongType);
                };
                let Some(total) = combined(operation, number, by) else {
                    return Err(UpdateFault::Overflow);
                };
                let value = value_of(total);
                let is_same = equals(old, &value);
                self.change(way, last, is_same, value)?;
                Ok(())
            }
            Site::Missing(last, size, rest) => {
                self.make(alloc, way, last, size, rest, value_of(first))
            }
            Site::Blocked => Err(UpdateFault::NotViable),
        }
    }

    // Whether a field can move to the path.
    fn can_take(&self, alloc: Global, path: &Path) -> Result<bool, AllocError>
        ensures { IfOk result (λ b. b ≡ may_take (located path.now (object_of self.now.doc))) }
    {
        let mut way = List::new(alloc);
        match locate(alloc, &self.doc, path, &mut way)? {
            Site::There(last, _) => Ok(!goes_through_array(way.as_slice(), &last)),
            Site::Missing(last, _, _) => Ok(!goes_through_array(way.as_slice(), &last)),
            Site::Blocked => Ok(false),
        }
    }

    // The value stands at the path, also in the place of an equal one.
    fn move_to(&mut self, alloc: Global, path: &Path, value: Value) -> Result<(), AllocError>
        ensures { OnOk result (IsAfter (moved_to (located path.now (object_of self.old.doc)) value (object_of self.old.doc)) self.old self.new) }
    {
        let mut way = List::new(alloc);
        match locate(alloc, &self.doc, path, &mut way)? {
            Site::There(last, _) => self.replace(way, last, value),
            Site::Missing(last, size, rest) => {
                let value = built(alloc, rest, value)?;
                self.add(alloc, way, last, size, value)
            }
            Site::Blocked => Ok(()),
        }
    }

    // Takes the field out, and puts its value at the path.
    fn carry(
        &mut self,
        alloc: Global,
        way: List<Part>,
        last: Part,
        to: &Path,
        value: Value,
    ) -> Result<(), AllocError>
        ensures { OnOk result (IsAfter (moved (removed way last (object_of self.old.doc)) to.now value (object_of self.old.doc)) self.old self.new) }
    {
        self.take_out(way, last)?;
        self.move_to(alloc, to, value)
    }

    fn rename(&mut self, alloc: Global, from: &Path, to: &Path) -> Result<(), UpdateFault>
        ensures does { OnOk result (Does (rename_act (located from.now (object_of self.old.doc)) to.now (object_of self.old.doc)) self.old self.new) }
        ensures stops { IfErr result (λ e. IsRefused e (rename_act (located from.now (object_of self.old.doc)) to.now (object_of self.old.doc))) }
    {
        let mut way = List::new(alloc);
        match locate(alloc, &self.doc, from, &mut way)? {
            Site::There(last, value) => {
                if goes_through_array(way.as_slice(), &last) || !self.can_take(alloc, to)? {
                    return Err(UpdateFault::NotViable);
                }
                let value = value.copy(alloc)?;
                self.carry(alloc, way, last, to, value)?;
                Ok(())
            }
            Site::Missing(_, _, _) => Ok(()),
            Site::Blocked => Err(UpdateFault::NotViable),
        }
    }

    // The array with these elements in place of its own, of which there are so many and which are the first.
    fn grow(
        &mut self,
        alloc: Global,
        way: List<Part>,
        last: Part,
        count: usize,
        all: List<Value>,
    ) -> Result<(), AllocError>
        ensures { (is vs : List Datum) → all ≡ is ++ vs → count ≡ length is → OnOk result (Does (grown way last is vs (object_of self.old.doc)) self.old self.new) }
    {
        if all.len() == count {
            return Ok(());
        }
        if all.len() > INDEX_LIMIT {
            self.is_large = true;
            return Ok(());
        }
        self.append(alloc, way, last, count, all)
    }

    // Of a set only values are appended that are new to it.
    fn push(
        &mut self,
        alloc: Global,
        path: &Path,
        values: &List<Value>,
        is_set: bool,
    ) -> Result<(), UpdateFault>
        ensures does { OnOk result (Does (push_act (news is_set values.now) (located path.now (object_of self.old.doc)) (object_of self.old.doc)) self.old self.new) }
        ensures stops { IfErr result (λ e. IsRefused e (push_act (news is_set values.now) (located path.now (object_of self.old.doc)) (object_of self.old.doc))) }
    {
        let mut way = List::new(alloc);
        match locate(alloc, &self.doc, path, &mut way)? {
            Site::There(last, old) => match old {
                Value::Array(items) => {
                    let count = items.len();
                    let all = with_news(alloc, items.as_slice(), values.as_slice(), is_set)?;
                    self.grow(alloc, way, last, count, all)?;
                    Ok(())
                }
                _ => Err(UpdateFault::WrongType),
            },
            Site::Missing(last, size, rest) => {
                let all = with_news(alloc, &[], values.as_slice(), is_set)?;
                self.make(alloc, way, last, size, rest, Value::Array(all))
            }
            Site::Blocked => Err(UpdateFault::NotViable),
        }
    }

    fn pop(&mut self, alloc: Global, path: &Path, end: ArrayEnd) -> Result<(), UpdateFault>
        ensures does { OnOk result (Does (pop_act end (located path.now (object_of self.old.doc)) (object_of self.old.doc)) self.old self.new) }
        ensures stops { IfErr result (λ e. IsRefused e (pop_act end (located path.now (object_of self.old.doc)) (object_of self.old.doc))) }
    {
        let mut way = List::new(alloc);
        match locate(alloc, &self.doc, path, &mut way)? {
            Site::There(last, old) => match old {
                Value::Array(items) => match items.as_slice().split_first() {
                    None => Ok(()),
                    Some((_, others)) => match end {
                        ArrayEnd::First => {
                            let others = copies(alloc, others)?;
                            self.replace(way, last, Value::Array(others))?;
                            Ok(())
                        }
                        ArrayEnd::Last => {
                            let len = others.len();
                            self.shorten(way, last, len)?;
                            Ok(())
                        }
                    },
                },
                _ => Err(UpdateFault::WrongType),
            },
            Site::Missing(_, _, _) => Ok(()),
            Site::Blocked => Err(UpdateFault::NotViable),
        }
    }

    // The array without its last element, of which there are so many more.
    fn shorten(&mut self, way: List<Part>, last: Part, len: usize) -> Result<(), AllocError>
        ensures { OnOk result (Does (shortened way last len (object_of self.old.doc)) self.old self.new) }
    {
        if len >= INDEX_LIMIT {
            self.is_large = true;
            Ok(())
        } else {
            self.cut(way, last, len as u32)
        }
    }

    fn pull(&mut self, alloc: Global, path: &Path, value: &Value) -> Result<(), UpdateFault>
        ensures does { OnOk result (Does (pull_act value.now (located path.now (object_of self.old.doc)) (object_of self.old.doc)) self.old self.new) }
        ensures stops { IfErr result (λ e. IsRefused e (pull_act value.now (located path.now (object_of self.old.doc)) (object_of self.old.doc))) }
    {
        let mut way = List::new(alloc);
        match locate(alloc, &self.doc, path, &mut way)? {
            Site::There(last, old) => match old {
                Value::Array(items) => {
                    if has(items.as_slice(), value) {
                        let others = without(alloc, items.as_slice(), value)?;
                        self.replace(way, last, Value::Array(others))?;
                    }
                    Ok(())
                }
                _ => Err(UpdateFault::WrongType),
            },
            Site::Missing(_, _, _) => Ok(()),
            Site::Blocked => Err(UpdateFault::NotViable),
        }
    }

    /// What the operator does to the document as it stands.
    pub fn apply(&mut self, alloc: Global, operator: &Operator) -> Result<(), UpdateFault>
        ensures does { OnOk result (Does (act operator.now (object_of self.old.doc)) self.old self.new) }
        ensures stops { IfErr result (λ e. IsRefused e (act operator.now (object_of self.old.doc))) }
    {
        match operator {
            Operator::Set { path, value } => self.set(alloc, path, value),
            Operator::Unset { path } => {
                self.unset(alloc, path)?;
                Ok(())
            }
            Operator::Inc { path, by } => self.count(alloc, path, Operation::Sum, *by, *by),
            Operator::Mul { path, by } => {
                self.count(alloc, path, Operation::Product, *by, zero_of(*by))
            }
            Operator::Rename { from, to } => self.rename(alloc, from, to),
            Operator::Push { path, values } => self.push(alloc, path, values, false),
            Operator::AddToSet { path, values } => self.push(alloc, path, values, true),
            Operator::Pop { path, end } => self.pop(alloc, path, *end),
            Operator::Pull { path, value } => self.pull(alloc, path, value),
        }
    }
}
