//! Patterns of names.
ghost use Rattle.std.specs.Prelude.{◌≡◌, ◌≢◌, List, ℕ, length, IsTrue, ◌↔◌, ◌++◌, ◌∷◌, MatchOption, IfOk, IfSome, IfNone, Some, None};
ghost use Rattle.bson_value.specs.Namespace.{dot};
ghost use Rattle.ns_patterns.specs.Literals.{Literals, literals_of};
ghost use Rattle.ns_patterns.specs.Matches.{Matches, Renamed};
ghost use Rattle.ns_patterns.specs.Reading.{Gives};
ghost use Rattle.ns_patterns.specs.Search.{whole, IsCut, IsUncut};

use crate::joined::Joined;
use bson_value::{List, NsName, Text};
use std::alloc::{AllocError, Global};
use std::marker::Model;
use std::mem;

/// Why a text is no pattern.
#[derive(Clone, Copy, Debug, PartialEq, Eq)]
pub enum PatternFault {
    /// It ends with a `\` that takes no character.
    LoneEscape,
    /// There was no memory.
    NoMemory,
}

/// A pattern: literals, with a star between each two of them. Contracts see it as its literals.
#[derive(Debug, Drop)]
pub struct Pattern {
    first: Text,
    behind: List<Text>,
}

impl Model for Pattern {
    ghost use Rattle.ns_patterns.specs.Literals.{Literals};

    ghost Value = { Literals };

    ghost view = { λ p. record { first = p.first; behind = p.behind } };
}

impl Pattern {
    /// The pattern of a text, where `*` is a star, and `\` takes the next character as it stands.
    pub fn read(alloc: Global, text: &str) -> Result<Pattern, PatternFault>
        ensures { Gives result (literals_of text.now) }
    {
        match Pattern::parse(alloc, text) {
            Ok(Some(pattern)) => Ok(pattern),
            Ok(None) => Err(PatternFault::LoneEscape),
            Err(_) => Err(PatternFault::NoMemory),
        }
    }

    // `None` where a backslash stands last.
    fn parse(alloc: Global, text: &str) -> Result<Option<Pattern>, AllocError>
        ensures { IfOk result (λ o. o ≡ literals_of text.now) }
    {
        let mut behind = List::new(alloc);
        let mut literal = Text::new(alloc);
        let mut escaped = false;
        let mut chars = text.chars();
        'chars: while let Some(c) = chars.next() {
            if escaped {
                literal.push(c)?;
                escaped = false;
            } else if c == '*' {
                behind.push(mem::replace(&mut literal, Text::new(alloc)))?;
            } else if c == '\\' {
                escaped = true;
            } else {
                literal.push(c)?;
            }
        }
        if escaped {
            return Ok(None);
        }
        behind.push(literal)?;
        let first = behind.remove(0);
        Ok(Some(Pattern { first, behind }))
    }

    /// The number of stars.
    pub fn stars(&self) -> usize
        ensures { result ≡ length self.now.behind }
    {
        self.behind.len()
    }

    /// Whether some texts for the stars make this name. It takes no memory, and at the worst time in
    /// the order of name times pattern.
    pub fn matches(&self, name: &str) -> bool
        ensures { IsTrue result ↔ Matches self.now name.now }
    {
        self.takes(Joined {
            front: name.as_bytes(),
            middle: &[],
            back: &[],
        })
    }

    /// The same of the name `db.collection`, which isn't made.
    pub fn matches_ns(&self, ns: &NsName) -> bool
        ensures { IsTrue result ↔ Matches self.now (ns.now.db ++ dot ∷ ns.now.coll) }
    {
        self.takes(Joined {
            front: ns.db.as_str().as_bytes(),
            middle: b".",
            back: ns.coll.as_str().as_bytes(),
        })
    }

    // The leftmost place is taken of each literal but the last, so that most is left for those behind.
    fn takes(&self, name: Joined<'_>) -> bool
        ensures { IsTrue result ↔ Matches self.now (whole name.entry) }
    {
        let Some(mut rest) = name.strip_prefix(self.first.as_str().as_bytes()) else {
            return false;
        };
        let Some((last, inner)) = self.behind.as_slice().split_last() else {
            return rest.is_empty();
        };
        'literals: for literal in inner {
            match rest.behind_first(literal.as_str().as_bytes()) {
                Some(after) => rest = after,
                None => return false,
            }
        }
        rest.ends_with(last.as_str().as_bytes())
    }

    /// The name that `to` makes with the texts that the stars of `from` stand for in this name. These
    /// are the shortest ones, the first star first. `None` comes exactly where `from` doesn't take the name.
    pub fn rename(
        alloc: Global,
        from: &Pattern,
        to: &Pattern,
        name: &str,
    ) -> Result<Option<Text>, AllocError>
        requires { length from.now.behind ≡ length to.now.behind }
        ensures some { IfOk result (λ o. IfSome o (λ new. Renamed from.now to.now name.now new)) }
        ensures none { IfOk result (λ o. IfNone o (Matches from.now name.now → ⊥)) }
    {
        let Some(mut rest) = behind_prefix(name, from.first.as_str()) else {
            return Ok(None);
        };
        let (literals, stars) = (from.behind.as_slice(), from.stars());
        let mut new = to.first.copy(alloc)?;
        'stars: for i in 0..stars {
            let Some((text, after)) = cut(rest, literals[i].as_str(), i + 1 == stars) else {
                return Ok(None);
            };
            new.push_str(text)?;
            new.push_str(to.behind.as_slice()[i].as_str())?;
            rest = after;
        }
        Ok(if rest.is_empty() { Some(new) } else { None })
    }
}

// What follows this text, where it stands first.
fn behind_prefix<'a>(name: &'a str, text: &str) -> Option<&'a str>
    ensures { MatchOption result ((rest : List ℕ) → name.now ≢ text.now ++ rest) (λ rest. name.now ≡ text.now ++ rest.now) }
{
    name.strip_prefix(text)
}

// The text of a star, which stands before the literal behind it, and what follows that literal.
fn cut<'a>(rest: &'a str, literal: &str, is_last: bool) -> Option<(&'a str, &'a str)>
    ensures { MatchOption result (IsUncut is_last literal.now rest.now) (λ x. IsCut is_last literal.now rest.now x.0.now x.1.now) }
{
    if is_last {
        Some((rest.strip_suffix(literal)?, ""))
    } else {
        rest.split_once(literal)
    }
}
