//! That values are well-formed at every level, which the types keep.
ghost use Rattle.std.specs.Prelude.{◌≡◌, true};
ghost use Rattle.std.specs.Str.{is_utf8};
ghost use Rattle.json_tree.specs.WellFormed.{IsWellFormed, AreWellFormedItems, IsWellFormedEntry, AreWellFormedEntries};

use crate::tree::Tree;
use containers::Text;

fn text(text: &Text)
    ensures { is_utf8 text.now ≡ true }
{
    let _ = text.as_str();
}

impl Tree {
    /// Does nothing, in time linear in the number of values. Its caller learns that the value is
    /// well-formed at every level.
    #[cycle(well_formed)]
    #[tactic(auto, using(crate::proofs::WellFormed::well_formed))]
    pub fn is_well_formed(&self)
        ensures { IsWellFormed self.now }
    {
        match self {
            Tree::Null | Tree::Bool(_) => {}
            Tree::Number(number) => {
                let _ = number.as_str();
            }
            Tree::Str(t) => text(t),
            Tree::Items(trees) => items(trees.as_slice()),
            Tree::Object(members) => fields(members.entries()),
        }
    }
}

#[cycle(well_formed)]
fn items(items: &[Tree])
    ensures { AreWellFormedItems items.now }
{
    for item in items {
        item.is_well_formed();
    }
}

#[cycle(well_formed)]
fn fields(entries: &[(Text, Tree)])
    ensures { AreWellFormedEntries entries.now }
{
    for entry in entries {
        field(entry);
    }
}

#[tactic(auto, using(crate::proofs::WellFormed::well_entry))]
#[cycle(well_formed)]
fn field(entry: &(Text, Tree))
    ensures { IsWellFormedEntry entry.now }
{
    text(&entry.0);
    entry.1.is_well_formed();
}
