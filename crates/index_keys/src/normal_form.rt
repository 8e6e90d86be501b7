//! The normal form of index definitions.
ghost use Rattle.std.specs.Prelude.{◌≡◌, ◌++◌, ◌∷◌, [], codes, IfOk, OnOk};
ghost use Rattle.std.specs.Option.{option_copied};
ghost use Rattle.json_tree.specs.declared.tree.Tree.TheVariants.{Object as object_tree, Str as text_tree};
ghost use Rattle.containers.specs.Entries.{AreDistinct, names_of};
ghost use Rattle.extjson.specs.Trees.{wrapped};
ghost use Rattle.extjson.specs.Plain.{wrapped_numbers, wrapped_fields};
ghost use Rattle.index_keys.specs.Definition.{is_one_of, placed, others, version, arranged, normal};

use crate::parts::{members, members_in, text_in};
use containers::Text;
use extjson::wrap_numbers;
use json_tree::{Fields, Tree};
use std::alloc::{AllocError, Global};

/// The definition in normal form: `v`, which is 2 where it is missing, `key`, `name`, and then the other
/// fields in their order, without `ns`. Plain whole numbers that fit 64 bits become wrappers. `None` where
/// the definition is no object with an object `key` and a string `name`.
#[tactic(auto, unfolding(crate::specs::Definition::normal))]
pub fn normal(alloc: Global, def: &Tree) -> Result<Option<Tree>, AllocError>
    ensures { IfOk result (λ n. n ≡ normal def.now) }
{
    let Some(fields) = members(def) else {
        return Ok(None);
    };
    let Some(key) = members_in(fields.get("key")) else {
        return Ok(None);
    };
    let Some(name) = text_in(fields.get("name")) else {
        return Ok(None);
    };
    Ok(Some(Tree::Object(normal_fields(alloc, key, name, fields)?)))
}

fn normal_fields(
    alloc: Global,
    key: &Fields,
    name: &str,
    fields: &Fields,
) -> Result<Fields, AllocError>
    ensures { IfOk result (λ fs. fs ≡ wrapped_fields (arranged key.now name.now fields.now)) }
{
    // Its clauses say that their names are distinct.
    let _count = fields.len();
    let entries = arranged(alloc, key, name, fields)?;
    Ok(Fields::of_distinct(entries))
}

// Version, key and name, and then the other fields, with wrappers in the place of plain whole numbers.
fn arranged(
    alloc: Global,
    key: &Fields,
    name: &str,
    fields: &Fields,
) -> Result<Vec<(Text, Tree)>, AllocError>
    ensures { IfOk result (λ fs. fs.items ≡ wrapped_fields (arranged key.now name.now fields.now)) }
{
    let mut entries = Vec::new(alloc);
    put_version(alloc, &mut entries, fields.get("v"))?;
    put_key(alloc, &mut entries, key)?;
    put_name(alloc, &mut entries, name)?;
    put_others(alloc, &mut entries, fields.entries())?;
    Ok(entries)
}

fn put_version(
    alloc: Global,
    entries: &mut Vec<(Text, Tree)>,
    given: Option<&Tree>,
) -> Result<(), AllocError>
    ensures { OnOk result (entries.new.items ≡ entries.old.items ++ (codes "v", wrapped_numbers (version (option_copied given.entry))) ∷ []) }
{
    let version = version(alloc, given)?;
    put(alloc, entries, "v", &version)
}

fn put_key(alloc: Global, entries: &mut Vec<(Text, Tree)>, key: &Fields) -> Result<(), AllocError>
    ensures { OnOk result (entries.new.items ≡ entries.old.items ++ (codes "key", wrapped_numbers (object_tree key.now)) ∷ []) }
{
    let key = Tree::Object(key.copy(alloc)?);
    put(alloc, entries, "key", &key)
}

fn put_name(alloc: Global, entries: &mut Vec<(Text, Tree)>, name: &str) -> Result<(), AllocError>
    ensures { OnOk result (entries.new.items ≡ entries.old.items ++ (codes "name", wrapped_numbers (text_tree name.now)) ∷ []) }
{
    let name = Tree::Str(Text::of(alloc, name)?);
    put(alloc, entries, "name", &name)
}

// Puts in the fields that have no place of their own.
fn put_others(
    alloc: Global,
    entries: &mut Vec<(Text, Tree)>,
    fields: &[(Text, Tree)],
) -> Result<(), AllocError>
    ensures { OnOk result (entries.new.items ≡ entries.old.items ++ wrapped_fields (others placed fields.now)) }
{
    for field in fields {
        if !is_placed(field.0.as_str()) {
            put(alloc, entries, field.0.as_str(), &field.1)?;
        }
    }
    Ok(())
}

fn put(
    alloc: Global,
    entries: &mut Vec<(Text, Tree)>,
    name: &str,
    tree: &Tree,
) -> Result<(), AllocError>
    ensures { OnOk result (entries.new.items ≡ entries.old.items ++ (name.now, wrapped_numbers tree.now) ∷ []) }
{
    let name = Text::of(alloc, name)?;
    let tree = wrap_numbers(alloc, tree)?;
    entries.push((name, tree))?;
    Ok(())
}

fn is_placed(name: &str) -> bool
    ensures { result ≡ is_one_of placed name.now }
{
    matches!(name, "v" | "key" | "name" | "ns")
}

// The version, which is 2 where none is given.
fn version(alloc: Global, given: Option<&Tree>) -> Result<Tree, AllocError>
    ensures { IfOk result (λ t. t ≡ version (option_copied given.entry)) }
{
    match given {
        None => int(alloc, "2"),
        Some(tree) => tree.copy(alloc),
    }
}

// The number as canonical Extended JSON has it.
fn int(alloc: Global, digits: &str) -> Result<Tree, AllocError>
    ensures { IfOk result (λ t. t ≡ wrapped (codes "$numberInt") (text_tree digits.now)) }
{
    let name = Text::of(alloc, "$numberInt")?;
    let mut fields = Fields::new(alloc);
    fields.add(name, Tree::Str(Text::of(alloc, digits)?))?;
    Ok(Tree::Object(fields))
}
