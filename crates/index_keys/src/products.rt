//! The keys of a document: one branch of each field of the plan.
ghost use Rattle.std.specs.Prelude.{◌≡◌, ◌&&◌, ◌≤◌, OnOk, IfOk, length, map, fold};
ghost use Rattle.std.specs.List.{list_all};
ghost use Rattle.bson_value.specs.declared.value.Value.{Object};
ghost use Rattle.bson_view.specs.Held.{held_document};
ghost use Rattle.index_keys.specs.Branches.{branches};
ghost use Rattle.index_keys.specs.Keys.{is_missing};
ghost use Rattle.index_keys.specs.HeldBranches.{branch_of, branches_of, texts_behind};
ghost use Rattle.index_keys.specs.Texts.{put_text, key_texts};

use crate::branches::{HeldBranch, walk};
use crate::cells::key_of;
use crate::key::{Key, Keys};
use crate::plan::Plan;
use bson_value::{CText, List};
use bson_view::Held;
use doc_path::Path;
use std::alloc::{AllocError, Global};
use std::collections::BTreeSet;

// The branches of the path in the document.
fn branches_in<'a>(
    alloc: Global,
    path: &[CText],
    doc: Held<'a>,
) -> Result<Vec<HeldBranch<'a>>, AllocError>
    requires { 1 ≤ length path.now }
    ensures { IfOk result (λ bs. branches_of bs.items ≡ branches path.now (Object (held_document doc.entry))) }
{
    let mut out = Vec::new(alloc);
    match path.split_first() {
        None => Ok(out),
        Some((name, rest)) => match doc.field(name.as_str()) {
            None => {
                out.push(HeldBranch::Missing)?;
                Ok(out)
            }
            Some(value) => {
                walk(value, rest, &mut out)?;
                Ok(out)
            }
        },
    }
}

// The branches of each path in the document.
fn all_branches<'a>(
    alloc: Global,
    paths: &[Path],
    doc: Held<'a>,
) -> Result<Vec<Vec<HeldBranch<'a>>>, AllocError>
    ensures { IfOk result (λ fs. map (λ f. branches_of f.items) fs.items ≡ map (λ p. branches p (Object (held_document doc.entry))) paths.now) }
{
    let mut out = Vec::new(alloc);
    for path in paths {
        out.push(branches_in(alloc, path.names().as_slice(), doc)?)?;
    }
    Ok(out)
}

fn is_gone(branch: &HeldBranch<'_>) -> bool
    ensures { result ≡ is_missing (branch_of branch.now) }
{
    match branch {
        HeldBranch::Missing => true,
        _ => false,
    }
}

fn all_missing(branches: &[HeldBranch<'_>]) -> bool
    ensures { result ≡ list_all is_missing (branches_of branches.now) }
{
    for branch in branches {
        if !is_gone(branch) {
            return false;
        }
    }
    true
}

// Whether every branch of every field is missing.
fn none_there(fields: &[Vec<HeldBranch<'_>>]) -> bool
    ensures { result ≡ list_all (λ f. list_all is_missing (branches_of f.items)) fields.now }
{
    for field in fields {
        if !all_missing(field.as_slice()) {
            return false;
        }
    }
    true
}

fn leaves_all_out(sparse: bool, fields: &[Vec<HeldBranch<'_>>]) -> bool
    ensures { result ≡ (sparse && list_all (λ f. list_all is_missing (branches_of f.items)) fields.now) }
{
    sparse && none_there(fields)
}

// Puts in the keys that begin with these branches and go on with one of each field.
fn product<'a>(
    alloc: Global,
    front: &mut Vec<HeldBranch<'a>>,
    fields: &[Vec<HeldBranch<'a>>],
    keys: &mut BTreeSet<Key>,
) -> Result<(), AllocError>
    ensures front { OnOk result (front.new.items ≡ front.old.items) }
    ensures keys { OnOk result (keys.new.keys ≡ fold put_text keys.old.keys (texts_behind front.old.items fields.now)) }
{
    match fields.split_first() {
        None => {
            let key = key_of(alloc, front.as_slice())?;
            let _ = keys.insert(key)?;
            Ok(())
        }
        Some((field, rest)) => {
            let count = front.len();
            for branch in field.as_slice() {
                front.push(*branch)?;
                product(alloc, front, rest, keys)?;
                front.truncate(count);
            }
            Ok(())
        }
    }
}

fn key_set(alloc: Global, plan: &Plan, doc: Held<'_>) -> Result<BTreeSet<Key>, AllocError>
    ensures { IfOk result (λ s. s.keys ≡ key_texts plan.now (held_document doc.entry)) }
{
    let fields = all_branches(alloc, plan.paths.as_slice(), doc)?;
    let mut keys = BTreeSet::new(alloc);
    if leaves_all_out(plan.sparse, fields.as_slice()) {
        return Ok(keys);
    }
    let mut front = Vec::new(alloc);
    product(alloc, &mut front, fields.as_slice(), &mut keys)?;
    Ok(keys)
}

/// The keys of the document, each once. They are told also where two fields meet an array.
pub fn all_keys(alloc: Global, plan: &Plan, doc: Held<'_>) -> Result<Keys, AllocError>
    ensures { IfOk result (λ ks. ks ≡ key_texts plan.now (held_document doc.entry)) }
{
    let mut left = key_set(alloc, plan, doc)?;
    let mut keys = List::new(alloc);
    'keys: while let Some(key) = left.pop_first() {
        keys.push(key)?;
    }
    Ok(Keys::of(keys))
}
