//! Members that come one after the other.
ghost use Rattle.std.specs.Prelude.{◌≡◌, ◌<◌, ◌≤◌, [], ◌∷◌, ◌++◌, length, is_some, IfOk};
ghost use Rattle.std.specs.Bool.{OnFalse};
ghost use Rattle.containers.specs.Entries.{IsAbsent, names_of, place_of};
ghost use Rattle.json_tree.specs.Covers.{Covers};

use crate::members::Members;
use containers::Text;
use std::alloc::{AllocError, Global};
use std::collections::BTreeSet;
use std::marker::Model;

// So many names are looked for one by one, and more in a set.
const FEW: usize = 32;

/// Members that come one after the other. Where they are more than some tens, a set of their names
/// stands beside them, so that a name is looked for in logarithmic time.
#[derive(Drop)]
pub struct MembersBuilder<T> {
    members: Members<T>,
    names: BTreeSet<String>,
}

impl<T> Model for MembersBuilder<T> {
    ghost use Rattle.std.specs.Prelude.{◌<◌, List, ℕ, length};
    ghost use Rattle.std.specs.Coded.{coded_list, coded×, coded_ℕ};
    ghost use Rattle.containers.specs.Entries.{names_of};
    ghost use Rattle.json_tree.specs.Covers.{Covers};

    ghost Value = { List (List ℕ × T) };

    ghost coded = { coded_list (coded× (coded_list coded_ℕ) T.code) };

    ghost view = { λ b. b.members };

    ghost invariant = { λ b. 32 < length b.members → Covers b.names (names_of b.members) };
}

// The set of these names.
fn set_of<T>(alloc: Global, entries: &[(Text, T)]) -> Result<BTreeSet<String>, AllocError>
    ensures { IfOk result (λ set. Covers set (names_of entries.now)) }
{
    let mut names = BTreeSet::new(alloc);
    for entry in entries {
        let _ = names.insert(String::from_str(alloc, entry.0.as_str())?)?;
    }
    Ok(names)
}

// The set of these names, which it is already where they are more than a few.
fn covering<T>(
    alloc: Global,
    names: BTreeSet<String>,
    entries: &[(Text, T)],
) -> Result<BTreeSet<String>, AllocError>
    requires { 32 < length entries.now → Covers names (names_of entries.now) }
    ensures { IfOk result (λ set. Covers set (names_of entries.now)) }
{
    if entries.len() <= FEW {
        return set_of(alloc, entries);
    }
    Ok(names)
}

// The set with this name behind those, where they are more than a few.
fn set_with<T>(
    alloc: Global,
    names: BTreeSet<String>,
    entries: &[(Text, T)],
    name: &str,
) -> Result<BTreeSet<String>, AllocError>
    requires { 32 < length entries.now → Covers names (names_of entries.now) }
    ensures { IfOk result (λ set. 32 ≤ length entries.now → Covers set (names_of entries.now ++ name.now ∷ [])) }
{
    if entries.len() < FEW {
        return Ok(names);
    }
    let mut names = covering(alloc, names, entries)?;
    let _ = names.insert(String::from_str(alloc, name)?)?;
    Ok(names)
}

impl<T: Drop> MembersBuilder<T> {
    /// No members. It takes no memory.
    pub fn new(alloc: Global) -> MembersBuilder<T>
        ensures { result ≡ [] }
    {
        MembersBuilder {
            members: Members::new(alloc),
            names: BTreeSet::new(alloc),
        }
    }

    /// Whether a member has this name.
    pub fn has(&self, name: &str) -> bool
        ensures is { result ≡ is_some (place_of name.now self.now) }
        ensures absent { OnFalse result (IsAbsent name.now (names_of self.now)) }
    {
        if self.members.len() <= FEW {
            return self.members.place(name).is_some();
        }
        self.names.contains(name)
    }

    /// The members with this one behind them.
    pub fn with(self, alloc: Global, name: Text, value: T) -> Result<MembersBuilder<T>, AllocError>
        requires { IsAbsent name (names_of self) }
        ensures { IfOk result (λ b. b ≡ self ++ (name, value) ∷ []) }
    {
        let MembersBuilder { mut members, names } = self;
        let names = set_with(alloc, names, members.entries(), name.as_str())?;
        members.add(name, value)?;
        Ok(MembersBuilder { members, names })
    }

    /// The members.
    pub fn into_members(self) -> Members<T>
        ensures { result ≡ self }
    {
        let MembersBuilder { members, names: _ } = self;
        members
    }
}
