//! Metadata texts.
ghost use Rattle.std.specs.Prelude.{◌≡◌, List, [], IfOk, OnOk, Ok, string_bytes};
ghost use Rattle.row_script.specs.Rows.{before_blank, behind_blank};
ghost use Rattle.bson_value.specs.declared.namespace.NsName.{NsName as Name};
ghost use Rattle.json_tree.specs.declared.tree.Tree.{Tree as Trees};
ghost use Rattle.json_text.specs.Print.{text_of};
ghost use Rattle.json_text.specs.Reading.{tree_of_text};
ghost use Rattle.metadata_text.specs.Metadata.{metadata_of, metadata_tree};
ghost use Rattle.row_script.specs.Names.{Names};
ghost use Rattle.json_rows.specs.Rows.{metadata_array, with_length};

use crate::jsons::arrays;
use anyhow::Result;
use containers::{List as JList, Text};
use json_text::parse;
use json_tree::Tree;
use metadata_text::{MetaFault, metadata_of, metadata_text};
use row_script::jsons::text_of;
use row_script::{namespace, number, words};
use std::alloc::{AllocError, Global};

// The options and the definitions as one array.
fn array(alloc: Global, options: Tree, defs: JList<Tree>) -> Result<Tree>
    ensures { IfOk result (λ array. array ≡ metadata_array options defs) }
{
    let mut trees = JList::new(alloc);
    trees.push(options)?;
    trees.push(Tree::Items(defs))?;
    Ok(Tree::Items(trees))
}

fn array_text(alloc: Global, options: Tree, defs: JList<Tree>) -> Result<String>
    ensures { IfOk result (λ t. string_bytes t ≡ text_of (metadata_array options defs)) }
{
    let array = array(alloc, options, defs)?;
    text_of(alloc, &array)
}

fn fault_text(alloc: Global, fault: MetaFault) -> Result<String>
    ensures { OnOk result (fault ≡ MetaFault.NoMemory → ⊥) }
{
    match fault {
        MetaFault::Bad { at } => Ok(format!(in alloc; "bad {at}")?),
        MetaFault::NoMemory => Err(AllocError)?,
    }
}

/// The options and definitions of a metadata text, or the place at which it is none.
pub fn read(alloc: Global, text: &str) -> Result<String>
    ensures { (options : Trees) (defs : List Trees) → metadata_of text.now ≡ Ok (options, defs) → IfOk result (λ t. string_bytes t ≡ text_of (metadata_array options defs)) }
{
    match metadata_of(alloc, text) {
        Ok((options, defs)) => array_text(alloc, options, defs),
        Err(fault) => fault_text(alloc, fault),
    }
}

// The metadata text of the namespace of this name.
fn named(alloc: Global, name: &str, options: &Tree, defs: &JList<Tree>) -> Result<Text>
    ensures { IfOk result (λ t. (ns : Name) × Names name.now ns × (t ≡ text_of (metadata_tree ns.coll options.now defs.now))) }
{
    let ns = namespace(alloc, name)?;
    Ok(metadata_text(alloc, &ns, options, defs)?)
}

// The same with options that are read, and no definitions.
fn without_definitions(alloc: Global, name: &str, options: &str) -> Result<Text>
    ensures { IfOk result (λ t. (ns : Name) × (tree : Trees) × Names name.now ns × (tree_of_text options.now ≡ Ok tree)
        × (t ≡ text_of (metadata_tree ns.coll tree []))) }
{
    let options = parse(alloc, options)?;
    named(alloc, name, &options, &JList::new(alloc))
}

/// How long the metadata text of a namespace with these options and no definitions is, and the text.
pub fn written(alloc: Global, text: &str) -> Result<String>
    ensures { IfOk result (λ t. (ns : Name) × (tree : Trees) × Names (before_blank text.now) ns × (tree_of_text (behind_blank text.now) ≡ Ok tree)
        × (string_bytes t ≡ with_length (text_of (metadata_tree ns.coll tree [])))) }
{
    let (name, options) = words(text)?;
    let text = without_definitions(alloc, name, options)?;
    Ok(format!(in alloc; "{} {}", text.len(), text.as_str())?)
}

// Whether a metadata text has these options, or the place at which it is none.
fn options_again(alloc: Global, text: &str, options: &Tree) -> Result<String> {
    match metadata_of(alloc, text) {
        Ok((again, _)) => row_script::truth(alloc, again.same(options)),
        Err(fault) => fault_text(alloc, fault),
    }
}

fn written_again(alloc: Global, options: &Tree, defs: &JList<Tree>) -> Result<String> {
    let written = named(alloc, "a.b", options, defs)?;
    options_again(alloc, written.as_str(), options)
}

// Whether the options of a metadata text are read again of what is written of them.
fn again(alloc: Global, text: &str) -> Result<String> {
    match metadata_of(alloc, text) {
        Ok((options, defs)) => written_again(alloc, &options, &defs),
        Err(fault) => fault_text(alloc, fault),
    }
}

fn deep_text(alloc: Global, count: usize) -> Result<String> {
    let inner = arrays(alloc, count, "1")?;
    Ok(format!(in alloc; "{{\"options\":{{\"a\":{inner}}}}}")?)
}

/// Whether the options with a number below so many arrays are read again of what is written of them.
pub fn deep(alloc: Global, text: &str) -> Result<String> {
    let count = number(text)?;
    let text = deep_text(alloc, count)?;
    again(alloc, text.as_str())
}
