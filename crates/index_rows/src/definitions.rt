//! Normal forms of definitions, and their plans.
ghost use Rattle.std.specs.Prelude.{◌≡◌, ◌↔◌, Ok, Some, IfOk, IsTrue, string_bytes};
ghost use Rattle.json_tree.specs.declared.tree.Tree.{Tree as Trees};
ghost use Rattle.json_text.specs.Print.{text_of};
ghost use Rattle.json_text.specs.Reading.{tree_of_text};
ghost use Rattle.index_keys.specs.Definition.{normal, plan_of};
ghost use Rattle.index_rows.specs.Rows.{WriteDefinition, form_text, kind_text, plan_text};

use crate::texts::definition;
use anyhow::Result;
use index_keys::{Plan, Planned, normal, normal_once};
use json_text::parse;
use json_tree::Tree;
use row_script::answer;
use row_script::jsons::text_of;
use std::alloc::{AllocError, Global};

// Whether a form is its own normal form.
fn is_normal(alloc: Global, form: &Tree) -> Result<bool, AllocError>
    ensures { IfOk result (λ is_so. IsTrue is_so ↔ (normal form.now ≡ Some form.now)) }
{
    match normal(alloc, form)? {
        Some(again) => Ok(again.same(form)),
        None => Ok(false),
    }
}

// The text of a normal form, which is its own.
fn form_text(alloc: Global, form: &Tree) -> Result<String>
    requires { normal form.now ≡ Some form.now }
    ensures { IfOk result (λ text. string_bytes text ≡ text_of form.now) }
{
    if !is_normal(alloc, form)? {
        return answer(alloc, "another form again");
    }
    text_of(alloc, form)
}

fn form_of(alloc: Global, tree: &Tree) -> Result<String>
    ensures { IfOk result (λ answer. string_bytes answer ≡ form_text (normal tree.now)) }
{
    normal_once();
    match normal(alloc, tree)? {
        Some(form) => form_text(alloc, &form),
        None => answer(alloc, "none"),
    }
}

/// The normal form of a definition.
pub fn form(alloc: Global, text: &str) -> Result<String>
    ensures { IfOk result (λ answer. (tree : Trees) × (tree_of_text text.now ≡ Ok tree) × (string_bytes answer ≡ form_text (normal tree))) }
{
    let tree = parse(alloc, text)?;
    form_of(alloc, &tree)
}

fn kind_of(plan: &Plan) -> &'static str
    ensures { result.now ≡ kind_text plan.now }
{
    if plan.unique() {
        return "unique";
    }
    if plan.sparse { "sparse" } else { "plain" }
}

fn plan_text(alloc: Global, plan: &Plan) -> Result<String>
    ensures { IfOk result (λ text. string_bytes text ≡ plan_text (Some plan.now)) }
{
    Ok(format!(in alloc; "{} {}", kind_of(plan), plan.paths.len())?)
}

fn plan_of(alloc: Global, def: &Tree) -> Result<String>
    ensures { IfOk result (λ answer. string_bytes answer ≡ plan_text (plan_of def.now)) }
{
    match Plan::of(alloc, def)? {
        Planned::Plain(plan) => plan_text(alloc, &plan),
        Planned::Unbuilt => answer(alloc, "unbuilt"),
    }
}

/// The kind of the index that a definition makes, and how many fields it has.
pub fn plan(alloc: Global, text: &str) -> Result<String>
    ensures { IfOk result (λ answer. (def : Trees) × WriteDefinition text.now def × (string_bytes answer ≡ plan_text (plan_of def))) }
{
    let def = definition(alloc, text)?;
    plan_of(alloc, &def)
}
