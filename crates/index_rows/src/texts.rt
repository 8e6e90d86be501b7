//! Definitions and plans from texts, and pairs of values as texts.
ghost use Rattle.std.specs.Prelude.{◌≡◌, [], ◌∷◌, ◌++◌, All, None, Some, Ok, IfOk, OnOk, map as each, string_bytes};
ghost use Rattle.index_keys.specs.Definition.{normal};
ghost use Rattle.doc_path.specs.Paths.{parts_of, path_fault};
ghost use Rattle.index_rows.specs.Rows.{WriteDefinition, fields_of, pair_text, plan_over};

use anyhow::Result;
use bson_value::{List, Value};
use doc_path::Path;
use index_keys::{Plan, normal};
use json_text::parse;
use json_tree::Tree;
use row_script::jsons::shown;
use row_script::refused;
use std::alloc::Global;

fn normal_of(alloc: Global, tree: &Tree) -> Result<Tree>
    ensures { IfOk result (λ def. normal tree.now ≡ Some def) }
{
    match normal(alloc, tree)? {
        Some(def) => Ok(def),
        None => refused("no definition"),
    }
}

/// The definition that the text writes, in its normal form.
#[tactic(auto, unfolding(crate::specs::Rows::WriteDefinition))]
pub fn definition(alloc: Global, text: &str) -> Result<Tree>
    ensures { IfOk result (λ def. WriteDefinition text.now def) }
{
    let tree = parse(alloc, text)?;
    normal_of(alloc, &tree)
}

/// Two values as JSON.
pub fn shown_pair(alloc: Global, first: &Value, second: &Value) -> Result<String>
    ensures { IfOk result (λ text. string_bytes text ≡ pair_text first.now second.now) }
{
    let first = shown(alloc, first)?;
    let second = shown(alloc, second)?;
    Ok(format!(in alloc; "{first} {second}")?)
}

fn push_path(alloc: Global, paths: &mut List<Path>, field: &str) -> Result<()>
    ensures ok { OnOk result (paths.new ≡ paths.old ++ parts_of field.now ∷ []) }
    ensures faultless { OnOk result (path_fault field.now ≡ None) }
{
    let path = Path::read(alloc, field)?;
    paths.push(path)?;
    Ok(())
}

// The paths of fields with commas between them.
fn paths(alloc: Global, fields: &str) -> Result<List<Path>>
    ensures paths { IfOk result (λ paths. paths ≡ each parts_of (fields_of fields.now)) }
    ensures faultless { OnOk result (All (λ field. path_fault field ≡ None) (fields_of fields.now)) }
{
    let mut paths = List::new(alloc);
    for field in fields.split(',') {
        push_path(alloc, &mut paths, field)?;
    }
    Ok(paths)
}

/// A plan of fields with commas between them.
pub fn plan(alloc: Global, fields: &str, sparse: bool, unique: bool) -> Result<Plan>
    ensures plan { IfOk result (λ plan. plan ≡ plan_over fields.now sparse unique) }
    ensures faultless { OnOk result (All (λ field. path_fault field ≡ None) (fields_of fields.now)) }
{
    let paths = paths(alloc, fields)?;
    Ok(Plan {
        paths,
        sparse,
        unique,
    })
}
