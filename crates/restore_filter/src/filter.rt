//! Which namespaces are taken, and their new names.
ghost use Rattle.std.specs.Prelude.{◌≡◌, ◌↔◌, [], IfOk, IsTrue};
ghost use Rattle.restore_filter.specs.Names.{any_matches, first_renamed, included, new_name, takes, text_of};
ghost use Rattle.restore_filter.specs.Rules.{HaveSameStars};

use bson_value::{List, NsName, Text};
use ns_patterns::Pattern;
use std::alloc::{AllocError, Global};
use std::marker::Model;

/// Patterns that take, patterns that leave, and pairs of patterns that rename. Contracts see their literals.
#[derive(Debug, Drop)]
pub struct Filter {
    include: List<Pattern>,
    exclude: List<Pattern>,
    renames: List<(Pattern, Pattern)>,
}

impl Model for Filter {
    ghost use Rattle.restore_filter.specs.Rules.{Rules, HaveSameStars};

    ghost Value = { Rules };

    ghost view = { λ f. record {
      include = f.include;
      exclude = f.exclude;
      renames = f.renames;
    } };

    ghost invariant = { λ f. HaveSameStars f.renames };
}

// The text `db.collection`.
fn namespace_text(alloc: Global, ns: &NsName) -> Result<Text, AllocError>
    ensures { IfOk result (λ t. t ≡ text_of ns.now) }
{
    let mut text = ns.db.copy(alloc)?;
    text.push_str(".")?;
    text.push_str(ns.coll.as_str())?;
    Ok(text)
}

fn any_matches(patterns: &[Pattern], ns: &NsName) -> bool
    ensures { result ≡ any_matches patterns.now (text_of ns.now) }
{
    for pattern in patterns {
        if pattern.matches_ns(ns) {
            return true;
        }
    }
    false
}

fn included(patterns: &List<Pattern>, ns: &NsName) -> bool
    ensures { result ≡ included patterns.now (text_of ns.now) }
{
    patterns.is_empty() || any_matches(patterns.as_slice(), ns)
}

// What the first pair makes of the name whose first pattern matches it.
fn first_renamed(
    alloc: Global,
    renames: &[(Pattern, Pattern)],
    name: &str,
) -> Result<Option<Text>, AllocError>
    requires { HaveSameStars renames.now }
    ensures { IfOk result (λ new. new ≡ first_renamed renames.now name.now) }
{
    for (from, to) in renames {
        if let Some(new) = Pattern::rename(alloc, from, to, name)? {
            return Ok(Some(new));
        }
    }
    Ok(None)
}

impl Filter {
    /// A filter. Without patterns that take, all names are taken that no pattern leaves.
    pub fn new(
        include: List<Pattern>,
        exclude: List<Pattern>,
        renames: List<(Pattern, Pattern)>,
    ) -> Filter
        requires { HaveSameStars renames }
        ensures { result ≡ record { include = include; exclude = exclude; renames = renames } }
    {
        Filter {
            include,
            exclude,
            renames,
        }
    }

    /// Whether the namespace is taken. It takes no memory.
    pub fn takes(&self, ns: &NsName) -> bool
        ensures { result ≡ takes self.now ns.now }
    {
        included(&self.include, ns) && !any_matches(self.exclude.as_slice(), ns)
    }

    /// Whether some pair renames.
    pub fn is_renaming(&self) -> bool
        ensures { IsTrue result ↔ (self.now.renames ≡ [] → ⊥) }
    {
        !self.renames.is_empty()
    }

    /// The name under which the namespace is restored: what the first pair makes of it that matches it,
    /// or its own where none does, or where that is no name of a database and a collection.
    pub fn new_name(&self, alloc: Global, ns: &NsName) -> Result<NsName, AllocError>
        ensures { IfOk result (λ name. name ≡ new_name self.now ns.now) }
    {
        let text = namespace_text(alloc, ns)?;
        let Some(new) = first_renamed(alloc, self.renames.as_slice(), text.as_str())? else {
            return ns.copy(alloc);
        };
        match NsName::split(alloc, new.as_str())? {
            Some(name) => Ok(name),
            None => ns.copy(alloc),
        }
    }
}
