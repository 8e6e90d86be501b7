//! The members of an object, and the text of a string.
ghost use Rattle.std.specs.Prelude.{◌≡◌};
ghost use Rattle.std.specs.Option.{option_copied};
ghost use Rattle.index_keys.specs.Definition.{members, members_in, text, text_in};

use json_tree::{Fields, Tree};

#[tactic(auto, unfolding(crate::specs::Definition::members))]
pub fn members(tree: &Tree) -> Option<&Fields>
    ensures { option_copied result ≡ members tree.now }
{
    match tree {
        Tree::Object(fields) => Some(fields),
        _ => None,
    }
}

pub fn members_in(tree: Option<&Tree>) -> Option<&Fields>
    ensures { option_copied result ≡ members_in (option_copied tree.entry) }
{
    match tree {
        None => None,
        Some(tree) => members(tree),
    }
}

#[tactic(auto, unfolding(crate::specs::Definition::text))]
pub fn text(tree: &Tree) -> Option<&str>
    ensures { option_copied result ≡ text tree.now }
{
    match tree {
        Tree::Str(text) => Some(text.as_str()),
        _ => None,
    }
}

pub fn text_in(tree: Option<&Tree>) -> Option<&str>
    ensures { option_copied result ≡ text_in (option_copied tree.entry) }
{
    match tree {
        None => None,
        Some(tree) => text(tree),
    }
}
