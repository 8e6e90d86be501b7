//! The values that stand in options' words directly behind their names.
ghost use Rattle.std.specs.Prelude.{◌≡◌, IfOk, option_map};
ghost use Rattle.tools_words.specs.Values.{number_of, moment_of, form_of, nothing_of, within, rounds_of, rounds_in, pattern_of, value_of, is_hex, moment_in, pattern_in};
ghost use Rattle.std.specs.Option.{option_copied};

use bson_value::Ts;
use document_lines::ListForm;
use itoa::Buffer;
use ns_patterns::{Pattern, PatternFault};
use std::alloc::{AllocError, Global};

/// The kind of an option's value.
#[derive(Clone, Copy, Debug, PartialEq, Eq)]
pub enum Kind {
    Nothing,
    /// How many lines a drill draws, from 1 to 100,000.
    Rounds,
    Moment,
    Form,
    Pattern,
}

/// The value of an option.
#[derive(Debug, Drop)]
pub enum Value {
    Nothing,
    Rounds(u32),
    Moment(Ts),
    Form(ListForm),
    Pattern(Pattern),
}

impl Value {
    /// Whether it asks for documents by their bytes.
    pub fn is_hex(&self) -> bool
        ensures { result ≡ is_hex self.now }
    {
        matches!(self, Value::Form(ListForm::Hex))
    }

    /// The moment that it is, if it is one.
    pub fn moment(&self) -> Option<Ts>
        ensures { result ≡ moment_in self.now }
    {
        match self {
            Value::Moment(ts) => Some(*ts),
            _ => None,
        }
    }

    /// The rounds of a drill that it is, if it is such a number.
    pub fn rounds(&self) -> Option<u32>
        ensures { result ≡ rounds_in self.now }
    {
        match self {
            Value::Rounds(number) => within(*number),
            _ => None,
        }
    }

    /// The pattern that it is, if it is one.
    pub fn pattern(&self) -> Option<&Pattern>
        ensures { option_copied result ≡ pattern_in self.now }
    {
        match self {
            Value::Pattern(pattern) => Some(pattern),
            _ => None,
        }
    }

    /// The pattern that it is, if it is one.
    pub fn into_pattern(self) -> Option<Pattern>
        ensures { result ≡ pattern_in self }
    {
        match self {
            Value::Pattern(pattern) => Some(pattern),
            _ => None,
        }
    }
}

fn nothing(text: &str) -> Option<Value>
    ensures { result ≡ option_map (λ u. Value.Nothing) (nothing_of text.now) }
{
    match text {
        "" => Some(Value::Nothing),
        _ => None,
    }
}

// `parse` takes a sign and leading zeros too, so the digits are compared.
fn number(text: &str) -> Option<u32>
    ensures { result ≡ number_of text.now }
{
    match text.parse::<u32>() {
        Err(_) => None,
        Ok(number) => {
            let mut digits = Buffer::new();
            if digits.format(number) == text {
                Some(number)
            } else {
                None
            }
        }
    }
}

// A number of rounds that a drill can have.
fn within(number: u32) -> Option<u32>
    ensures { result ≡ within number }
{
    if 1 <= number && number <= 100_000 {
        Some(number)
    } else {
        None
    }
}

fn rounds(text: &str) -> Option<u32>
    ensures { result ≡ rounds_of text.now }
{
    within(number(text)?)
}

fn moment(text: &str) -> Option<Ts>
    ensures { result ≡ moment_of text.now }
{
    match text.split_once(':') {
        Some((secs, inc)) => Some(Ts {
            secs: number(secs)?,
            inc: number(inc)?,
        }),
        None => Some(Ts {
            secs: number(text)?,
            inc: 0,
        }),
    }
}

fn form(text: &str) -> Option<ListForm>
    ensures { result ≡ form_of text.now }
{
    match text {
        "hex" => Some(ListForm::Hex),
        "json" => Some(ListForm::Json),
        _ => None,
    }
}

fn pattern(alloc: Global, text: &str) -> Result<Option<Pattern>, AllocError>
    ensures { IfOk result (λ o. o ≡ pattern_of text.now) }
{
    match Pattern::read(alloc, text) {
        Ok(pattern) => Ok(Some(pattern)),
        Err(PatternFault::LoneEscape) => Ok(None),
        Err(PatternFault::NoMemory) => Err(AllocError),
    }
}

/// The value of this kind that a text is.
pub fn value_of(alloc: Global, kind: Kind, text: &str) -> Result<Option<Value>, AllocError>
    ensures { IfOk result (λ o. o ≡ value_of kind text.now) }
{
    match kind {
        Kind::Nothing => Ok(nothing(text)),
        Kind::Rounds => Ok(rounds(text).map(Value::Rounds)),
        Kind::Moment => Ok(moment(text).map(Value::Moment)),
        Kind::Form => Ok(form(text).map(Value::Form)),
        Kind::Pattern => Ok(pattern(alloc, text)?.map(Value::Pattern)),
    }
}
