//! The words of the command line.
ghost use Rattle.std.specs.Prelude.{◌≡◌, ◌+◌, ◌<◌, ◌^◌, [], length, option_map, IfOk, Ok, Err, true};
ghost use Rattle.std.specs.List.{list_any, list_all};
ghost use Rattle.tools_words.specs.Values.{is_hex};
ghost use Rattle.tools_words.specs.Laws.{RoundsAreFew};
ghost use Rattle.tools_words.specs.Words.{behind, given_in, first_row, may_stand, option_at, times_given, holds, hold, form_of, limit_of, rounds_given, order_of, step, meaning_behind, meaning_of, same_option, options, rules, texts_of, Means};

use crate::filter::{filter_of, have_same_stars};
use crate::order::{Order, RestoreOrder, SourceOrder};
use crate::table::{OptionName, OptionRow, Rule, Times, Verb};
use crate::value::{Value, value_of};
use bson_value::Ts;
use document_lines::ListForm;
use restore_plan::Plan;
use std::alloc::{AllocError, AllocFailed, Global};

/// An option that stands, with its value.
#[derive(Debug, Drop)]
pub struct Given {
    pub row: OptionRow,
    pub value: Value,
}

/// Why words are no command.
#[derive(Clone, Copy, Debug, PartialEq, Eq)]
pub enum WordsFault {
    NoMemory,
    /// The place of the first word that can't stand where it stands, from 0.
    Usage { word: usize },
}

impl From<AllocError> for WordsFault {
    ghost use Rattle.tools_words.specs.declared.words.WordsFault.TheVariants.{NoMemory};

    ghost from_gives = { λ _ e. e ≡ NoMemory };

    fn from(_e: AllocError) -> WordsFault {
        WordsFault::NoMemory
    }
}

impl<T: Drop> From<AllocFailed<T>> for WordsFault {
    ghost use Rattle.tools_words.specs.declared.words.WordsFault.TheVariants.{NoMemory};

    ghost from_gives = { λ _ e. e ≡ NoMemory };

    fn from(_e: AllocFailed<T>) -> WordsFault {
        WordsFault::NoMemory
    }
}

// What stands behind a name in a word that begins with it.
fn behind<'a>(name: &str, word: &'a str) -> Option<&'a str>
    ensures { option_map (λ r. r.now) result ≡ behind name.now word.now }
{
    word.strip_prefix(name)
}

// What a word is by this row.
fn given_in(alloc: Global, row: OptionRow, word: &str) -> Result<Option<Given>, AllocError>
    ensures { IfOk result (λ o. o ≡ given_in row word.now) }
{
    match behind(row.option.name(), word) {
        Some(text) => match value_of(alloc, row.kind, text)? {
            Some(value) => Ok(Some(Given { row, value })),
            None => Ok(None),
        },
        None => Ok(None),
    }
}

// What a word is by the first row that it fits.
fn first_row(alloc: Global, rows: &[OptionRow], word: &str) -> Result<Option<Given>, AllocError>
    ensures { IfOk result (λ o. o ≡ first_row rows.now word.now) }
{
    let mut rest = rows;
    'rows: while let Some((row, behind)) = rest.split_first() {
        if let Some(given) = given_in(alloc, *row, word)? {
            return Ok(Some(given));
        }
        rest = behind;
    }
    Ok(None)
}

// How often an option stands.
fn times_given(option: OptionName, given: &[Given]) -> usize
    ensures { result ≡ times_given option given.now }
{
    given
        .iter()
        .filter(|g| g.row.option.is_same(option))
        .count()
}

fn may_stand(next: &Given, given: &[Given]) -> bool
    ensures { result ≡ may_stand next.now given.now }
{
    match next.row.times {
        Times::Any => true,
        Times::Once => times_given(next.row.option, given) == 0,
    }
}

// The option that a word is behind these, if it can stand there.
fn option_at(
    alloc: Global,
    verb: Verb,
    given: &[Given],
    word: &str,
) -> Result<Option<Given>, AllocError>
    ensures { IfOk result (λ o. o ≡ option_at verb given.now word.now) }
{
    match first_row(alloc, verb.options(), word)? {
        Some(next) if may_stand(&next, given) => Ok(Some(next)),
        _ => Ok(None),
    }
}

fn holds(rule: Rule, given: &[Given]) -> bool
    ensures { result ≡ holds rule given.now }
{
    match rule {
        Rule::Needed(option) => times_given(option, given) != 0,
        Rule::Needs(option, other) => {
            times_given(option, given) == 0 || times_given(other, given) != 0
        }
        Rule::Excludes(option, other) => {
            times_given(option, given) == 0 || times_given(other, given) == 0
        }
        Rule::Equal(option, other) => times_given(option, given) == times_given(other, given),
        Rule::SameStars(option, other) => have_same_stars(option, other, given),
    }
}

fn hold(verb: Verb, given: &[Given]) -> bool
    ensures { result ≡ hold verb given.now }
{
    verb.rules().iter().all(|rule| holds(*rule, given))
}

fn has_hex(given: &[Given]) -> bool
    ensures { result ≡ list_any (λ g. is_hex g.value) given.now }
{
    given.iter().any(|g| g.value.is_hex())
}

fn form_of(given: &[Given]) -> ListForm
    ensures { result ≡ form_of given.now }
{
    if has_hex(given) {
        ListForm::Hex
    } else {
        ListForm::Json
    }
}

fn limit_of(given: &[Given]) -> Option<Ts>
    ensures { result ≡ limit_of given.now }
{
    let mut rest = given;
    'options: while let Some((next, behind)) = rest.split_first() {
        if let Some(limit) = next.value.moment() {
            return Some(limit);
        }
        rest = behind;
    }
    None
}

fn rounds_given(given: &[Given]) -> u32
    ensures { result ≡ rounds_given given.now }
{
    let mut rest = given;
    'options: while let Some((next, behind)) = rest.split_first() {
        if let Some(rounds) = next.value.rounds() {
            return rounds;
        }
        rest = behind;
    }
    1
}

fn order_of(alloc: Global, verb: Verb, given: Vec<Given>) -> Result<Order, AllocError>
    requires { hold verb given.items ≡ true }
    ensures { IfOk result (λ o. o ≡ order_of verb given.items) }
{
    match verb {
        Verb::Source => Ok(Order::Source(SourceOrder {
            limit: limit_of(&given),
            form: form_of(&given),
        })),
        Verb::Dump => Ok(Order::Dump),
        Verb::Restore => {
            let form = form_of(&given);
            let limit = limit_of(&given);
            let replaying = times_given(OptionName::OplogReplay, &given) != 0;
            let filter = filter_of(alloc, given)?;
            Ok(Order::Restore(RestoreOrder {
                plan: Plan {
                    filter,
                    replaying,
                    limit,
                },
                form,
            }))
        }
        Verb::Drill => Ok(Order::Drill {
            rounds: rounds_given(&given),
        }),
        Verb::Help => Ok(Order::Help),
        Verb::Version => Ok(Order::Version),
    }
}

fn read_behind(alloc: Global, verb: Verb, words: &[String]) -> Result<Order, WordsFault>
    requires { length words.now + 1 < 2 ^ 64 }
    ensures { Means result (meaning_behind verb (texts_of words.now)) }
{
    let mut given = Vec::new(alloc);
    let mut at = 1;
    let mut rest = words;
    'words: while let Some((word, behind)) = rest.split_first() {
        match option_at(alloc, verb, &given, word.as_str())? {
            Some(next) => given.push(next)?,
            None => return Err(WordsFault::Usage { word: at }),
        }
        at += 1;
        rest = behind;
    }
    if hold(verb, &given) {
        Ok(order_of(alloc, verb, given)?)
    } else {
        Err(WordsFault::Usage { word: at })
    }
}

/// What the words mean: an order, or else the first word that can't stand where it stands.
pub fn read_words(alloc: Global, words: &[String]) -> Result<Order, WordsFault>
    ensures { Means result (meaning_of (texts_of words.now)) }
{
    let Some((first, rest)) = words.split_first() else {
        return Err(WordsFault::Usage { word: 0 });
    };
    match Verb::of(first.as_str()) {
        Some(verb) => read_behind(alloc, verb, rest),
        None => Err(WordsFault::Usage { word: 0 }),
    }
}

/// A drill that words mean has 1 to 100,000 rounds.
pub fn rounds_are_few()
    ensures { RoundsAreFew }
{}
