//! The filter that options say.
ghost use Rattle.std.specs.Prelude.{◌≡◌, IfOk, OnOk, true};
ghost use Rattle.std.specs.List.{zip};
ghost use Rattle.tools_words.specs.Words.{patterns, same_stars, filter_of};
ghost use Rattle.tools_words.specs.declared.table.OptionName.TheVariants as names;
ghost use Rattle.tools_words.specs.Patterns.{patterns_of, with_given, StarsAt};

use crate::table::OptionName;
use crate::words::Given;
use bson_value::List;
use ns_patterns::Pattern;
use restore_filter::Filter;
use std::alloc::{AllocError, Global};

/// The patterns of the options, in their order.
#[derive(Drop)]
struct Patterns {
    include: List<Pattern>,
    exclude: List<Pattern>,
    from: List<Pattern>,
    to: List<Pattern>,
}

// With the pattern of one option more.
fn add(patterns: &mut Patterns, given: Given) -> Result<(), AllocError>
    ensures ok { OnOk result (patterns.new ≡ with_given patterns.old given) }
{
    let Given { row, value } = given;
    let Some(pattern) = value.into_pattern() else {
        return Ok(());
    };
    match row.option {
        OptionName::NsInclude => patterns.include.push(pattern),
        OptionName::NsExclude => patterns.exclude.push(pattern),
        OptionName::NsFrom => patterns.from.push(pattern),
        OptionName::NsTo => patterns.to.push(pattern),
        OptionName::Archive
        | OptionName::Oplog
        | OptionName::OplogReplay
        | OptionName::OplogLimit
        | OptionName::Form
        | OptionName::Rounds => Ok(()),
    }
}

fn patterns_of(alloc: Global, given: Vec<Given>) -> Result<Patterns, AllocError>
    ensures { IfOk result (λ p. p ≡ patterns_of given.items) }
{
    let mut patterns = Patterns {
        include: List::new(alloc),
        exclude: List::new(alloc),
        from: List::new(alloc),
        to: List::new(alloc),
    };
    for next in given {
        add(&mut patterns, next)?;
    }
    Ok(patterns)
}

// Two by two.
fn pair_up(
    alloc: Global,
    from: List<Pattern>,
    to: List<Pattern>,
) -> Result<List<(Pattern, Pattern)>, AllocError>
    ensures { IfOk result (λ p. p ≡ zip from to) }
{
    let mut pairs = Vec::new(alloc);
    let mut targets = to.into_vec().into_iter();
    'pairs: for source in from.into_vec() {
        let Some(target) = targets.next() else {
            break;
        };
        pairs.push((source, target))?;
    }
    Ok(List::from_vec(pairs))
}

/// The filter that the options say.
pub(crate) fn filter_of(alloc: Global, given: Vec<Given>) -> Result<Filter, AllocError>
    requires { same_stars (zip (patterns names.NsFrom given.items) (patterns names.NsTo given.items)) ≡ true }
    ensures { IfOk result (λ f. f ≡ filter_of given.items) }
{
    let Patterns {
        include,
        exclude,
        from,
        to,
    } = patterns_of(alloc, given)?;
    let renames = pair_up(alloc, from, to)?;
    Ok(Filter::new(include, exclude, renames))
}

// The number of stars of the first pattern that an option has among these, and what stands behind it.
fn next_stars(option: OptionName, given: &[Given]) -> Option<(usize, &[Given])>
    ensures { StarsAt option given.now result }
{
    let mut rest = given;
    'options: while let Some((next, behind)) = rest.split_first() {
        if next.row.option.is_same(option) {
            if let Some(pattern) = next.value.pattern() {
                return Some((pattern.stars(), behind));
            }
        }
        rest = behind;
    }
    None
}

/// Whether the patterns of the two options have as many stars, two by two.
pub(crate) fn have_same_stars(option: OptionName, other: OptionName, given: &[Given]) -> bool
    ensures { result ≡ same_stars (zip (patterns option given.now) (patterns other given.now)) }
{
    let mut left = given;
    let mut right = given;
    'pairs: while let Some((stars, behind)) = next_stars(option, left) {
        let Some((wanted, rest)) = next_stars(other, right) else {
            return true;
        };
        if stars != wanted {
            return false;
        }
        left = behind;
        right = rest;
    }
    true
}
