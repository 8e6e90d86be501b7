//! Words of a row, and answers.
ghost use Rattle.std.specs.Prelude.{◌≡◌, ◌↔◌, ◌<◌, ◌^◌, string_bytes, map as each, Contains, Ok, IsOk, IsErr, IfOk};
ghost use Rattle.std.specs.Str.Parse.{IsNumeral, digits_value, without_leading_plus};
ghost use Rattle.hex.specs.Hex.{decode_of, encode_lower};
ghost use Rattle.row_script.specs.Rows.{before_blank, behind_blank};
ghost use Rattle.row_script.specs.Texts.{number_of, truth_text, words_of};

use anyhow::{Context, Result, anyhow};
use std::alloc::{AllocError, Global};

/// The word in front of the first blank, and what stands behind the blank.
pub fn words(text: &str) -> Result<(&str, &str)>
    ensures ok { IsOk result ↔ Contains text.now 32 }
    ensures word { IfOk result (λ words. words.0.now ≡ before_blank text.now) }
    ensures behind { IfOk result (λ words. words.1.now ≡ behind_blank text.now) }
{
    text.split_once(' ').context("one word")
}

/// All words of a text, with one blank between two.
pub fn all_words(alloc: Global, text: &str) -> Result<Vec<String>, AllocError>
    ensures { IfOk result (λ words. each string_bytes words.items ≡ words_of text.now) }
{
    let mut words = Vec::new(alloc);
    for word in text.split(' ') {
        let word = String::from_str(alloc, word)?;
        words.push(word)?;
    }
    Ok(words)
}

/// The number that a word writes in decimal digits, behind a plus or without one.
pub fn number(word: &str) -> Result<usize>
    ensures ok { IsOk result ↔ (IsNumeral 10 (without_leading_plus word.now) × (digits_value 10 (without_leading_plus word.now) < 2 ^ 64)) }
    ensures value { IfOk result (λ n. n ≡ number_of word.now) }
{
    Ok(word.parse::<usize>()?)
}

/// The bytes that hexadecimal digits write.
pub fn bytes(alloc: Global, digits: &str) -> Result<Vec<u8>>
    ensures { IfOk result (λ bytes. decode_of digits.now ≡ Ok bytes.items) }
{
    Ok(hex::decode(alloc, digits)?)
}

/// The hexadecimal digits of bytes.
pub fn digits(alloc: Global, bytes: &[u8]) -> Result<String>
    ensures { IfOk result (λ digits. string_bytes digits ≡ encode_lower bytes.now) }
{
    Ok(hex::encode(alloc, bytes)?)
}

/// A text as an answer.
pub fn answer(alloc: Global, text: &str) -> Result<String>
    ensures { IfOk result (λ answer. string_bytes answer ≡ text.now) }
{
    Ok(String::from_str(alloc, text)?)
}

/// A truth as an answer.
pub fn truth(alloc: Global, is_so: bool) -> Result<String>
    ensures { IfOk result (λ answer. string_bytes answer ≡ truth_text is_so) }
{
    answer(alloc, if is_so { "yes" } else { "no" })
}

/// What a script asks for that nothing answers.
pub fn refused<T>(why: &str) -> Result<T>
    ensures { IsErr result }
{
    Err(anyhow!("{why}"))
}
