//! Plain whole numbers as wrappers.
ghost use Rattle.std.specs.Prelude.{◌≡◌, IfOk, is_ok, map};
ghost use Rattle.containers.specs.Entries.{AreDistinct, names_of};
ghost use Rattle.bson_value.specs.declared.value.Value.{Value as Datum};
ghost use Rattle.json_tree.specs.WellFormed.{IsWellFormed};
ghost use Rattle.extjson.specs.Values.{Read, Gives};
ghost use Rattle.extjson.specs.Plain.{is_told, has_plain_parts, number_tree, wrapped_numbers, wrapped_items, wrapped_fields};

use crate::fault::ExtFault;
use crate::numbers::{is_whole, to_int, to_long};
use crate::wrapped::{key, stamp};
use crate::wrapper::Wrapper;
use crate::writing::{int, long};
use bson_value::Value;
use containers::{List as JList, Text as JText};
use json_tree::{Fields, Number, Tree};
use std::alloc::{AllocError, Global};

// A number that stands by itself.
#[tactic(auto, unfolding(crate::specs::Plain::number_tree, crate::specs::Values::plain_value, crate::specs::Values::whole_value))]
fn number(alloc: Global, number: &Number) -> Result<Tree, AllocError>
    ensures { IfOk result (λ t. t ≡ number_tree number.now) }
{
    let text = number.as_str();
    if !is_whole(text.as_bytes()) {
        return Ok(Tree::Number(number.copy(alloc)?));
    }
    if let Some(n) = to_int(text) {
        return int(alloc, n);
    }
    match to_long(text) {
        Some(n) => long(alloc, n),
        None => Ok(Tree::Number(number.copy(alloc)?)),
    }
}

// Whether a value was read.
fn is_read(read: Result<Value, ExtFault>) -> Result<bool, AllocError>
    ensures { (told : Read Datum) → Gives (λ v. v) read told → IfOk result (λ b. b ≡ is_ok told) }
{
    match read {
        Ok(_) => Ok(true),
        Err(ExtFault::NoMemory) => Err(AllocError),
        Err(_) => Ok(false),
    }
}

fn is_told(wrapper: Option<Wrapper>, tree: &Tree) -> Result<bool, AllocError>
    ensures { IfOk result (λ b. b ≡ is_told wrapper tree.now) }
{
    let Some(wrapper) = wrapper else {
        return Ok(false);
    };
    match wrapper {
        Wrapper::Stamp => is_read(stamp(tree)),
        Wrapper::MinKey => is_read(key(tree, Value::MinKey)),
        Wrapper::MaxKey => is_read(key(tree, Value::MaxKey)),
        _ => Ok(false),
    }
}

fn has_plain_parts(entries: &[(JText, Tree)]) -> Result<bool, AllocError>
    ensures { IfOk result (λ b. b ≡ has_plain_parts entries.now) }
{
    match entries {
        [] => Ok(false),
        [entry] => is_told(Wrapper::named(entry.0.as_str()), &entry.1),
        _ => Ok(false),
    }
}

#[cycle(wrap_numbers)]
fn wrapped(alloc: Global, tree: &Tree) -> Result<Tree, AllocError>
    ensures { IfOk result (λ t. t ≡ wrapped_numbers tree.now) }
{
    match tree {
        Tree::Null => Ok(Tree::Null),
        Tree::Bool(b) => Ok(Tree::Bool(*b)),
        Tree::Number(text) => number(alloc, text),
        Tree::Str(text) => Ok(Tree::Str(text.copy(alloc)?)),
        Tree::Items(trees) => Ok(Tree::Items(items(alloc, trees.as_slice())?)),
        Tree::Object(members) => {
            if has_plain_parts(members.entries())? {
                return Ok(Tree::Object(members.copy(alloc)?));
            }
            Ok(Tree::Object(fields(alloc, members.entries())?))
        }
    }
}

#[cycle(wrap_numbers)]
fn items(alloc: Global, trees: &[Tree]) -> Result<JList<Tree>, AllocError>
    ensures { IfOk result (λ made. made ≡ wrapped_items trees.now) }
{
    let mut made = JList::new(alloc);
    for tree in trees {
        made.push(wrapped(alloc, tree)?)?;
    }
    Ok(made)
}

#[cycle(wrap_numbers)]
fn fields(alloc: Global, entries: &[(JText, Tree)]) -> Result<Fields, AllocError>
    requires { AreDistinct (names_of entries.now) }
    ensures { IfOk result (λ made. made ≡ wrapped_fields entries.now) }
{
    let mut made = Vec::new(alloc);
    for entry in entries {
        made.push(member(alloc, entry)?)?;
    }
    Ok(Fields::of_distinct(made))
}

#[cycle(wrap_numbers)]
fn member(alloc: Global, entry: &(JText, Tree)) -> Result<(JText, Tree), AllocError>
    ensures { IfOk result (λ e. e ≡ (entry.now.0, wrapped_numbers entry.now.1)) }
{
    let name = entry.0.copy(alloc)?;
    let tree = wrapped(alloc, &entry.1)?;
    Ok((name, tree))
}

/// The tree with its plain whole numbers that fit 64 bits as wrappers. An object that reads as a
/// timestamp, or as the least or the greatest key, keeps its numbers.
pub fn wrap_numbers(alloc: Global, tree: &Tree) -> Result<Tree, AllocError>
    ensures tree { IfOk result (λ t. t ≡ wrapped_numbers tree.now) }
    ensures well_formed { IfOk result (λ t. IsWellFormed t) }
{
    let tree = wrapped(alloc, tree)?;
    tree.is_well_formed();
    Ok(tree)
}
