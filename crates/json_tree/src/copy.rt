//! Copies of values.
ghost use Rattle.std.specs.Prelude.{◌≡◌, IfOk};

use crate::members::Members;
use crate::tree::{Fields, Tree};
use containers::{List as JList, Text as JText};
use std::alloc::{AllocError, Global};

impl Tree {
    /// An equal value.
    #[cycle(copy)]
    pub fn copy(&self, alloc: Global) -> Result<Tree, AllocError>
        ensures { IfOk result (λ t. t ≡ self.now) }
    {
        match self {
            Tree::Null => Ok(Tree::Null),
            Tree::Bool(b) => Ok(Tree::Bool(*b)),
            Tree::Number(text) => Ok(Tree::Number(text.copy(alloc)?)),
            Tree::Str(text) => Ok(Tree::Str(text.copy(alloc)?)),
            Tree::Items(items) => Ok(Tree::Items(copy_items(alloc, items.as_slice())?)),
            Tree::Object(fields) => Ok(Tree::Object(fields.copy(alloc)?)),
        }
    }
}

#[cycle(copy)]
fn copy_items(alloc: Global, items: &[Tree]) -> Result<JList<Tree>, AllocError>
    ensures { IfOk result (λ list. list ≡ items.now) }
{
    let mut list = JList::new(alloc);
    for item in items {
        list.push(item.copy(alloc)?)?;
    }
    Ok(list)
}

impl Members<Tree> {
    /// Equal members.
    #[cycle(copy)]
    pub fn copy(&self, alloc: Global) -> Result<Fields, AllocError>
        ensures { IfOk result (λ fields. fields ≡ self.now) }
    {
        let mut entries = Vec::new(alloc);
        for entry in self.entries() {
            entries.push(copy_entry(alloc, entry)?)?;
        }
        Ok(Members::of_distinct(entries))
    }
}

#[cycle(copy)]
fn copy_entry(alloc: Global, entry: &(JText, Tree)) -> Result<(JText, Tree), AllocError>
    ensures { IfOk result (λ copy. copy ≡ entry.now) }
{
    let name = entry.0.copy(alloc)?;
    let value = entry.1.copy(alloc)?;
    Ok((name, value))
}
