//! The options and definitions of a metadata text.
ghost use Rattle.std.specs.Prelude.{◌≡◌, ◌≤◌, ◌==◌, [], IfOk, OnOk, length, Some, None, string_bytes};
ghost use Rattle.std.specs.Option.{option_copied};
ghost use Rattle.json_tree.specs.declared.tree.Tree.{Tree as Datum};
ghost use Rattle.json_tree.specs.Levels.{levels_of, items_levels};
ghost use Rattle.json_tree.specs.WellFormed.{IsWellFormed, AreWellFormedItems};
ghost use Rattle.metadata_text.specs.Metadata.{Gives, is_object, definition_name, options_of, definitions_of, indexes_of, metadata_of, by_bytes, put_in_order};
ghost use Rattle.metadata_text.specs.RoundTrip.{AreNormal, AreShallow, HasRoom};

use crate::fault::MetaFault;
use containers::List as JList;
use extjson::wrap_numbers;
use json_text::parse;
use json_tree::{Fields, Tree};
use std::alloc::{AllocError, Global};
use std::collections::BTreeMap;

#[tactic(auto, unfolding(crate::specs::Metadata::is_object))]
fn is_object(tree: &Tree) -> bool
    ensures { result ≡ is_object tree.now }
{
    match tree {
        Tree::Object(_) => true,
        Tree::Null => false,
        Tree::Bool(_) => false,
        Tree::Number(_) => false,
        Tree::Str(_) => false,
        Tree::Items(_) => false,
    }
}

// The name of a definition: an object with an object `key` and a string `name`.
#[tactic(auto, unfolding(crate::specs::Metadata::definition_name))]
fn name_of(tree: &Tree) -> Option<&str>
    ensures { option_copied result ≡ definition_name tree.now }
{
    let Tree::Object(fields) = tree else {
        return None;
    };
    let Some(key) = fields.get("key") else {
        return None;
    };
    if !is_object(key) {
        return None;
    }
    match fields.get("name") {
        Some(Tree::Str(name)) => Some(name.as_str()),
        _ => None,
    }
}

#[tactic(auto, unfolding(crate::specs::Metadata::options_of))]
fn options(alloc: Global, fields: &Fields) -> Result<Option<Tree>, AllocError>
    ensures { IfOk result (λ o. o ≡ options_of fields.now) }
{
    let Some(tree) = fields.get("options") else {
        return Ok(Some(Tree::Object(Fields::new(alloc))));
    };
    if !is_object(tree) {
        return Ok(None);
    }
    Ok(Some(wrap_numbers(alloc, tree)?))
}

// A definition among those before it. The one of the index on `_id` is passed over.
fn keep(
    alloc: Global,
    kept: &mut BTreeMap<String, Tree>,
    name: &str,
    tree: &Tree,
) -> Result<(), AllocError>
    ensures { OnOk result (by_bytes kept.new.entries ≡ put_in_order (by_bytes kept.old.entries) (name.now, tree.now)) }
{
    if name == "_id_" {
        return Ok(());
    }
    let key = String::from_str(alloc, name)?;
    let copy = tree.copy(alloc)?;
    let _ = kept.insert(key, copy)?;
    Ok(())
}

// The definitions in the order of their names.
fn definitions(alloc: Global, trees: &[Tree]) -> Result<Option<JList<Tree>>, AllocError>
    ensures { IfOk result (λ o. o ≡ definitions_of trees.now) }
{
    let mut kept: BTreeMap<String, Tree> = BTreeMap::new(alloc);
    for tree in trees {
        let Some(name) = name_of(tree) else {
            return Ok(None);
        };
        keep(alloc, &mut kept, name, tree)?;
    }
    let mut defs = JList::new(alloc);
    'defs: while let Some((_, tree)) = kept.pop_first() {
        defs.push(tree)?;
    }
    Ok(Some(defs))
}

#[tactic(auto, unfolding(crate::specs::Metadata::indexes_of))]
fn indexes(alloc: Global, fields: &Fields) -> Result<Option<JList<Tree>>, AllocError>
    ensures { IfOk result (λ o. o ≡ indexes_of fields.now) }
{
    match fields.get("indexes") {
        None => Ok(Some(JList::new(alloc))),
        Some(Tree::Items(trees)) => definitions(alloc, trees.as_slice()),
        _ => Ok(None),
    }
}

// The options and the index definitions.
fn metadata(alloc: Global, text: &str) -> Result<(Tree, JList<Tree>), MetaFault>
    ensures { Gives result (metadata_of text.now) }
{
    if text.is_empty() {
        return Ok((Tree::Object(Fields::new(alloc)), JList::new(alloc)));
    }
    let tree = parse(alloc, text)?;
    let Tree::Object(fields) = tree else {
        return Err(MetaFault::Bad { at: text.len() });
    };
    let Some(options) = options(alloc, &fields)? else {
        return Err(MetaFault::Bad { at: text.len() });
    };
    let Some(defs) = indexes(alloc, &fields)? else {
        return Err(MetaFault::Bad { at: text.len() });
    };
    Ok((options, defs))
}

/// The options and the index definitions of a metadata text, which is empty or an object with an
/// object `options` and an array `indexes`, where these are there. The options have wrappers in the
/// place of their plain whole numbers. The definitions stand in the order of their names, of two with
/// one name the later, and without the one named `_id_`.
///
/// The options have at most 256 levels: of the 255 that they can have in the text, the innermost can hold
/// a plain number, whose wrapper is one more. A text of at most 255 levels gives options that
/// `metadata_text` writes so that they are read back.
pub fn metadata_of(alloc: Global, text: &str) -> Result<(Tree, JList<Tree>), MetaFault>
    ensures gives { Gives result (metadata_of text.now) }
    ensures well_formed { IfOk result (λ x. IsWellFormed x.0 × AreWellFormedItems x.1) }
    ensures normal { IfOk result (λ x. AreNormal x.0 x.1) }
    ensures levels { IfOk result (λ x. (levels_of x.0 ≤ 256) × (items_levels x.1 ≤ 254)) }
    ensures shallow { HasRoom text.now → IfOk result (λ x. AreShallow x.0 x.1) }
{
    metadata(alloc, text)
}
