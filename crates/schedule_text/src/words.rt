//! The words of a line.
ghost use Rattle.std.specs.Prelude.{◌≡◌};
ghost use Rattle.std.specs.Option.{option_copied};
ghost use Rattle.schedule_text.specs.Words.{form_of, cut, operands_of, lacks, is_word, is_first, is_second, takes, words_of};
ghost use Rattle.schedule_text.specs.Operands.{listed, Gives};

use crate::fault::{LineKind, StatementFault};
use crate::verb::{Context, Verb};
use doc_path::Form;

/// The words behind the first one. The second may be a JSON text.
#[derive(Clone, Copy)]
pub(crate) enum Operands<'t> {
    None,
    One(&'t str),
    Two(&'t str, &'t str),
}

// What stands before the first space, and behind it where there is one.
fn cut(text: &str) -> (&str, Option<&str>)
    ensures before { result.0.now ≡ (cut text.now).0 }
    ensures behind { option_copied result.1 ≡ (cut text.now).1 }
{
    match text.split_once(' ') {
        Some((word, rest)) => (word, Some(rest)),
        None => (text, None),
    }
}

fn operands_of(rest: Option<&str>) -> Operands<'_>
    ensures { listed result ≡ operands_of (option_copied rest.entry) }
{
    let Some(rest) = rest else {
        return Operands::None;
    };
    match cut(rest) {
        (first, None) => Operands::One(first),
        (first, Some(second)) => Operands::Two(first, second),
    }
}

fn lacks_space(text: &[u8]) -> bool
    ensures { result ≡ lacks 32 text.now }
{
    text.iter().all(|b| !(*b == b' '))
}

fn is_word(text: &str) -> bool
    ensures { result ≡ is_word text.now }
{
    !text.is_empty() && lacks_space(text.as_bytes())
}

#[tactic(auto, unfolding(crate::specs::Words::form_of))]
pub(crate) fn form(word: &str) -> Option<Form>
    ensures { result ≡ form_of word.now }
{
    match word {
        "v1" => Some(Form::V1),
        "v2" => Some(Form::V2),
        _ => None,
    }
}

fn is_first(verb: Verb, word: &str) -> bool
    ensures { result ≡ is_first verb word.now }
{
    match verb {
        Verb::Record => form(word).is_some(),
        _ => is_word(word),
    }
}

fn is_second(verb: Verb, text: &str) -> bool
    ensures { result ≡ is_second verb text.now }
{
    if verb.has_text() {
        !text.is_empty()
    } else {
        is_word(text)
    }
}

#[tactic(auto, unfolding(crate::specs::Words::takes))]
fn takes(verb: Verb, operands: Operands<'_>) -> bool
    ensures { result ≡ takes verb (listed operands.entry) }
{
    match operands {
        Operands::None => verb.least() == 0,
        Operands::One(first) => verb.least() <= 1 && 1 <= verb.most() && is_first(verb, first),
        Operands::Two(first, second) => {
            verb.most() == 2 && is_word(first) && is_second(verb, second)
        }
    }
}

/// The verb and the operands of a line that stands there, or its first fault.
#[tactic(auto, unfolding(crate::specs::Words::words_of))]
pub(crate) fn words(context: Context, line: &str) -> Result<(Verb, Operands<'_>), StatementFault>
    ensures { Gives (λ x. (x.0, listed x.1)) result (words_of context line.now) }
{
    let (word, rest) = cut(line);
    let operands = operands_of(rest);
    let Some(verb) = Verb::named(word) else {
        return Err(StatementFault::Bad(LineKind::Command));
    };
    if !takes(verb, operands) {
        return Err(StatementFault::Bad(LineKind::Words));
    }
    if !verb.may_stand(context) {
        return Err(StatementFault::Bad(LineKind::Place));
    }
    Ok((verb, operands))
}
