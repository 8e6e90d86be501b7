//! Names, the patterns that take them, and what they are renamed to.
ghost use Rattle.std.specs.Prelude.{◌≡◌, Some, IfOk, string_bytes};
ghost use Rattle.row_script.specs.Rows.{before_blank, behind_blank};
ghost use Rattle.ns_patterns.specs.Literals.{Literals, literals_of};
ghost use Rattle.ns_patterns.specs.Matches.{Matches};
ghost use Rattle.archive_rows.specs.Rows.{TellsRenamed, TellsTaken, TellsWhether};

use anyhow::Result;
use bson_value::NsName;
use ns_patterns::{Pattern, PatternFault};
use row_script::{answer, refused, truth, words};
use std::alloc::{AllocError, Global};

// Whether a pattern takes a name, also as a namespace where it is one.
fn taken(alloc: Global, pattern: &Pattern, name: &str) -> Result<String>
    ensures { IfOk result (λ answer. TellsWhether (Matches pattern.now name.now) (string_bytes answer)) }
{
    let takes = pattern.matches(name);
    if let Some(ns) = NsName::split(alloc, name)? {
        if pattern.matches_ns(&ns) != takes {
            return answer(alloc, "not as a namespace");
        }
    }
    truth(alloc, takes)
}

/// Whether a text takes a name, or why it is no pattern.
pub fn takes(alloc: Global, text: &str) -> Result<String>
    ensures { IfOk result (λ answer. TellsTaken (literals_of (before_blank text.now)) (behind_blank text.now) (string_bytes answer)) }
{
    let (text, name) = words(text)?;
    match Pattern::read(alloc, text) {
        Ok(pattern) => taken(alloc, &pattern, name),
        Err(PatternFault::LoneEscape) => answer(alloc, "LoneEscape"),
        Err(PatternFault::NoMemory) => Err(AllocError)?,
    }
}

// What patterns with as many stars make of a name.
fn renamed_by(alloc: Global, from: &Pattern, to: &Pattern, name: &str) -> Result<String>
    ensures { IfOk result (λ answer. TellsRenamed from.now to.now name.now (string_bytes answer)) }
{
    if from.stars() != to.stars() {
        return refused("another number of stars");
    }
    match Pattern::rename(alloc, from, to, name)? {
        Some(name) => answer(alloc, name.as_str()),
        None => answer(alloc, "none"),
    }
}

// The pattern of a text that is one.
fn pattern(alloc: Global, text: &str) -> Result<Pattern>
    ensures { IfOk result (λ pattern. literals_of text.now ≡ Some pattern) }
{
    match Pattern::read(alloc, text) {
        Ok(pattern) => Ok(pattern),
        Err(PatternFault::LoneEscape) => refused("no pattern"),
        Err(PatternFault::NoMemory) => Err(AllocError)?,
    }
}

fn renamed_from(alloc: Global, from: &Pattern, to: &str, name: &str) -> Result<String>
    ensures { IfOk result (λ answer. (new : Literals) × (literals_of to.now ≡ Some new) × TellsRenamed from.now new name.now (string_bytes answer)) }
{
    let to = pattern(alloc, to)?;
    renamed_by(alloc, from, &to, name)
}

/// What two patterns make of a name.
pub fn renamed(alloc: Global, text: &str) -> Result<String>
    ensures { IfOk result (λ answer. (from : Literals) × (to : Literals) × (literals_of (before_blank text.now) ≡ Some from)
        × (literals_of (before_blank (behind_blank text.now)) ≡ Some to)
        × TellsRenamed from to (behind_blank (behind_blank text.now)) (string_bytes answer)) }
{
    let (from, rest) = words(text)?;
    let (to, name) = words(rest)?;
    let from = pattern(alloc, from)?;
    renamed_from(alloc, &from, to, name)
}
