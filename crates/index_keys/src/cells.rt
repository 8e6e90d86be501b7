//! The key of one branch of each field.
ghost use Rattle.std.specs.Prelude.{◌≡◌, ◌∷◌, [], IfOk, map};
ghost use Rattle.bson_value.specs.declared.value.Value.{Array as array_of};
ghost use Rattle.bson_value.specs.Alike.{ordered};
ghost use Rattle.bson_value.specs.Spelling.{document_text};
ghost use Rattle.index_keys.specs.Keys.{cell};
ghost use Rattle.index_keys.specs.Texts.{key_text};
ghost use Rattle.index_keys.specs.HeldBranches.{branch_of, branch_value};

use crate::branches::HeldBranch;
use crate::key::Key;
use bson_encode::encode;
use bson_value::{Bytes, CText, Doc, List, Value};
use std::alloc::{AllocError, Global};

fn one_value(alloc: Global, branch: &HeldBranch<'_>) -> Result<Value, AllocError>
    ensures { IfOk result (λ v. v ≡ branch_value (branch_of branch.now)) }
{
    let mut items = List::new(alloc);
    match branch {
        HeldBranch::Empty => Ok(Value::Array(items)),
        HeldBranch::Missing => {
            items.push(Value::Null)?;
            Ok(Value::Array(items))
        }
        HeldBranch::Given(value) => {
            items.push(value.to_value(alloc)?)?;
            Ok(Value::Array(items))
        }
    }
}

fn all_values(alloc: Global, branches: &[HeldBranch<'_>]) -> Result<List<Value>, AllocError>
    ensures { IfOk result (λ vs. vs ≡ map branch_value (map branch_of branches.now)) }
{
    let mut values = List::new(alloc);
    for branch in branches {
        values.push(one_value(alloc, branch)?)?;
    }
    Ok(values)
}

// The bytes of the document of these values, with the fields in them by their names.
fn bytes_of(alloc: Global, values: List<Value>) -> Result<Bytes, AllocError>
    ensures { IfOk result (λ text. text ≡ document_text (([], array_of (map ordered values)) ∷ [])) }
{
    let mut doc = Doc::new(alloc);
    doc.add(CText::new(alloc), Value::Array(values))?;
    let doc = doc.into_ordered();
    encode(alloc, &doc)
}

/// The key of these branches, one of each field.
pub fn key_of(alloc: Global, branches: &[HeldBranch<'_>]) -> Result<Key, AllocError>
    ensures { IfOk result (λ k. k ≡ key_text (map cell (map branch_of branches.now))) }
{
    let values = all_values(alloc, branches)?;
    Key::of(bytes_of(alloc, values)?)
}
