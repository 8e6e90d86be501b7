//! The edits of a level, by their parts.
ghost use Rattle.std.specs.Prelude.{◌≡◌, ◌<◌, ◌∷◌, ◌++◌, [], length, IfOk, OnOk};
ghost use Rattle.entry_model.specs.Edits.{same_part, onto, behind, group};
ghost use Rattle.entry_writer.specs.Edits.{edit_in, edits_in, part_by};
ghost use Rattle.entry_writer.specs.Groups.{groups_in, joined, put_edit, put_by, IsIndex, grouped};

use crate::edits::{Edit, part_of};
use crate::index::Index;
use doc_path::Part;
use std::alloc::{AllocError, Global};

/// A part, and edits that have it.
#[derive(Drop)]
pub(crate) struct PartEdits<'t> {
    pub(crate) part: &'t Part,
    pub(crate) edits: Vec<Edit<'t>>,
}

/// Whether the parts are equal.
pub(crate) fn same_part(a: &Part, b: &Part) -> bool
    ensures { result ≡ same_part a.now b.now }
{
    match a {
        Part::Name(j) => match b {
            Part::Name(k) => j.as_str() == k.as_str(),
            Part::Index(_) => false,
        },
        Part::Index(m) => match b {
            Part::Name(_) => false,
            Part::Index(n) => *m == *n,
        },
    }
}

/// Appends a part with one edit.
fn begin<'t>(
    alloc: Global,
    groups: &mut Vec<PartEdits<'t>>,
    part: &'t Part,
    edit: &Edit<'t>,
) -> Result<(), AllocError>
    ensures { OnOk result (groups_in groups.new.items ≡ groups_in groups.old.items ++ (part.now, edit_in edit.now ∷ []) ∷ []) }
{
    let mut edits = Vec::new(alloc);
    edits.push(*edit)?;
    groups.push(PartEdits { part, edits })?;
    Ok(())
}

/// Appends an edit to those of the part at this place.
fn join<'t>(groups: &mut Vec<PartEdits<'t>>, at: usize, edit: &Edit<'t>) -> Result<(), AllocError>
    requires { at < length groups.old.items }
    ensures { OnOk result (groups_in groups.new.items ≡ joined at (edit_in edit.now) (groups_in groups.old.items)) }
{
    groups[at].edits.push(*edit)?;
    Ok(())
}

/// Appends an edit to those of its part.
fn add<'t>(
    alloc: Global,
    index: &mut Index,
    groups: &mut Vec<PartEdits<'t>>,
    part: &'t Part,
    edit: &Edit<'t>,
) -> Result<(), AllocError>
    requires { IsIndex index.old (groups_in groups.old.items) }
    ensures groups { OnOk result (groups_in groups.new.items ≡ put_edit part.now (edit_in edit.now) (groups_in groups.old.items)) }
    ensures index { OnOk result (IsIndex index.new (groups_in groups.new.items)) }
{
    match index.place(part) {
        Some(at) => join(groups, at, edit),
        None => {
            index.insert(alloc, part, groups.len())?;
            begin(alloc, groups, part, edit)
        }
    }
}

/// Appends an edit to those of its part, where it has one.
fn add_edit<'t>(
    alloc: Global,
    index: &mut Index,
    groups: &mut Vec<PartEdits<'t>>,
    at: bool,
    edit: &Edit<'t>,
) -> Result<(), AllocError>
    requires { IsIndex index.old (groups_in groups.old.items) }
    ensures groups { OnOk result (groups_in groups.new.items ≡ put_by (part_by at (edit_in edit.now)) (edit_in edit.now) (groups_in groups.old.items)) }
    ensures index { OnOk result (IsIndex index.new (groups_in groups.new.items)) }
{
    match part_of(at, edit) {
        Some(part) => add(alloc, index, groups, part, edit),
        None => Ok(()),
    }
}

/// The parts below which edits are, each once, with its edits; with `at` also the parts at which edits set.
pub(crate) fn by_part<'t>(
    alloc: Global,
    at: bool,
    edits: &[Edit<'t>],
) -> Result<Vec<PartEdits<'t>>, AllocError>
    ensures { IfOk result (λ gs. groups_in gs.items ≡ grouped at (edits_in edits.now)) }
{
    let mut index = Index::new(alloc);
    let mut groups = Vec::new(alloc);
    for edit in edits {
        add_edit(alloc, &mut index, &mut groups, at, edit)?;
    }
    Ok(groups)
}

/// Appends what an edit is below a part.
fn push_below<'t>(inner: &mut Vec<Edit<'t>>, part: &Part, edit: &Edit<'t>) -> Result<(), AllocError>
    ensures { OnOk result (edits_in inner.new.items ≡ edits_in inner.old.items ++ onto (behind part.now (edit_in edit.now)) []) }
{
    let Some((first, way)) = edit.way.split_first() else {
        return Ok(());
    };
    if same_part(first, part) {
        inner.push(Edit {
            way,
            touch: edit.touch,
        })?;
    }
    Ok(())
}

/// The edits below a part.
pub(crate) fn below<'t>(
    alloc: Global,
    part: &Part,
    edits: &[Edit<'t>],
) -> Result<Vec<Edit<'t>>, AllocError>
    ensures { IfOk result (λ es. edits_in es.items ≡ group part.now (edits_in edits.now)) }
{
    let mut inner = Vec::new(alloc);
    for edit in edits {
        push_below(&mut inner, part, edit)?;
    }
    Ok(inner)
}
