//! Plans of indexes: which keys a document has in an index.
ghost use Rattle.std.specs.Prelude.{◌≡◌, ◌&&◌, Some, None, IfOk};
ghost use Rattle.std.specs.List.{list_all, list_any};
ghost use Rattle.std.specs.Char.{is_ascii_digit};
ghost use Rattle.std.specs.Option.{option_copied};
ghost use Rattle.index_keys.specs.Definition.{is_one_of, is_direction, is_plain_path, is_plain_field, is_direction_by, known, starts_apart, all_apart, all_known, flag, built_path, built_paths, paths_in, plan_of, plan_told};

use crate::parts::{members, members_in, text};
use bson_value::{CText, List};
use containers::Text;
use doc_path::{Path, PathFault};
use json_tree::{Fields, Tree};
use std::alloc::{AllocError, Global};

/// An index that is built: the paths of its fields, whether it has no keys of documents in which all of
/// them are missing, and whether a key may belong to one document only.
#[derive(Drop)]
pub struct Plan {
    pub paths: List<Path>,
    pub sparse: bool,
    pub unique: bool,
}

/// What is made of an index definition.
#[derive(Drop)]
pub enum Planned {
    Plain(Plan),
    /// The definition asks for what isn't offered. It is kept, and the index has no keys.
    Unbuilt,
}

impl Plan {
    /// The plan of a definition in normal form. The time is quadratic in the number of its fields.
    pub fn of(alloc: Global, def: &Tree) -> Result<Planned, AllocError>
        ensures { IfOk result (λ p. plan_told p ≡ plan_of def.now) }
    {
        match built_plan(alloc, def)? {
            Some(plan) => Ok(Planned::Plain(plan)),
            None => Ok(Planned::Unbuilt),
        }
    }

    /// Whether a key may belong to one document only. It takes no memory.
    pub fn unique(&self) -> bool
        ensures { result ≡ self.now.unique }
    {
        self.unique
    }
}

#[tactic(auto, unfolding(crate::specs::Definition::plan_of))]
fn built_plan(alloc: Global, def: &Tree) -> Result<Option<Plan>, AllocError>
    ensures { IfOk result (λ p. p ≡ plan_of def.now) }
{
    let Some(fields) = members(def) else {
        return Ok(None);
    };
    if !all_known(fields.entries()) {
        return Ok(None);
    }
    let Some(paths) = paths_in(alloc, members_in(fields.get("key")))? else {
        return Ok(None);
    };
    let Some(sparse) = flag(fields.get("sparse")) else {
        return Ok(None);
    };
    let Some(unique) = flag(fields.get("unique")) else {
        return Ok(None);
    };
    Ok(Some(Plan {
        paths,
        sparse,
        unique,
    }))
}

fn is_known(name: &str) -> bool
    ensures { result ≡ is_one_of known name.now }
{
    matches!(
        name,
        "v" | "key" | "name" | "unique" | "sparse" | "background" | "hidden"
    )
}

fn all_known(entries: &[(Text, Tree)]) -> bool
    ensures { result ≡ all_known entries.now }
{
    for entry in entries {
        if !is_known(entry.0.as_str()) {
            return false;
        }
    }
    true
}

// A field that is true or false, or missing.
fn flag(field: Option<&Tree>) -> Option<bool>
    ensures { result ≡ flag (option_copied field.entry) }
{
    match field {
        None => Some(false),
        Some(Tree::Bool(flag)) => Some(*flag),
        Some(_) => None,
    }
}

fn paths_in(alloc: Global, key: Option<&Fields>) -> Result<Option<List<Path>>, AllocError>
    ensures { IfOk result (λ ps. ps ≡ paths_in (option_copied key.entry)) }
{
    match key {
        None => Ok(None),
        Some(key) => paths(alloc, key.entries()),
    }
}

// The paths of one field or more, where all are plain and no two begin with the same part.
fn paths(alloc: Global, key: &[(Text, Tree)]) -> Result<Option<List<Path>>, AllocError>
    ensures { IfOk result (λ ps. ps ≡ built_paths key.now) }
{
    let mut paths = List::new(alloc);
    for field in key {
        match path(alloc, field)? {
            None => return Ok(None),
            Some(path) => paths.push(path)?,
        }
    }
    if paths.is_empty() {
        return Ok(None);
    }
    if !all_apart(paths.as_slice()) {
        return Ok(None);
    }
    Ok(Some(paths))
}

// The path of a field whose direction is plain, without a part of digits alone.
fn path(alloc: Global, field: &(Text, Tree)) -> Result<Option<Path>, AllocError>
    ensures { IfOk result (λ p. p ≡ built_path field.now) }
{
    if !is_direction(&field.1) {
        return Ok(None);
    }
    match Path::read(alloc, field.0.as_str()) {
        Ok(path) => {
            if has_digits(path.names().as_slice()) {
                return Ok(None);
            }
            Ok(Some(path))
        }
        Err(PathFault::NoMemory) => Err(AllocError),
        Err(_) => Ok(None),
    }
}

// Whether a name is of digits alone.
fn has_digits(names: &[CText]) -> bool
    ensures { result ≡ list_any (list_all is_ascii_digit) names.now }
{
    for name in names {
        if are_digits(name.as_str()) {
            return true;
        }
    }
    false
}

fn are_digits(name: &str) -> bool
    ensures { result ≡ list_all is_ascii_digit name.now }
{
    for byte in name.as_bytes() {
        if !byte.is_ascii_digit() {
            return false;
        }
    }
    true
}

// 1 or -1, as one of three wrappers.
#[tactic(auto, unfolding(crate::specs::Definition::is_direction))]
fn is_direction(tree: &Tree) -> bool
    ensures { result ≡ is_direction tree.now }
{
    let Some(fields) = members(tree) else {
        return false;
    };
    match fields.entries() {
        [entry] => is_direction_by(entry.0.as_str(), text(&entry.1)),
        _ => false,
    }
}

fn is_direction_by(name: &str, number: Option<&str>) -> bool
    ensures { result ≡ is_direction_by (option_copied number.entry) name.now }
{
    let Some(number) = number else {
        return false;
    };
    match name {
        "$numberInt" | "$numberLong" => matches!(number, "1" | "-1"),
        "$numberDouble" => matches!(number, "1.0" | "-1.0"),
        _ => false,
    }
}

// Whether no two of the paths have the same first part.
fn all_apart(paths: &[Path]) -> bool
    ensures { result ≡ all_apart paths.now }
{
    let mut left = paths;
    while let Some((path, rest)) = left.split_first() {
        if !starts_apart(path, rest) {
            return false;
        }
        left = rest;
    }
    true
}

// Whether none of these paths has the first part of the path.
fn starts_apart(path: &Path, others: &[Path]) -> bool
    ensures { result ≡ list_all (starts_apart path.now) others.now }
{
    for other in others {
        if !is_apart(path, other) {
            return false;
        }
    }
    true
}

fn is_apart(path: &Path, other: &Path) -> bool
    ensures { result ≡ starts_apart path.now other.now }
{
    match path.names().as_slice().first() {
        None => true,
        Some(name) => match other.names().as_slice().first() {
            None => true,
            Some(first) => name.as_str() != first.as_str(),
        },
    }
}
