//! The orders of timestamps, namespaces and texts, names that are indexes, and a list.
ghost use Rattle.std.specs.Prelude.{◌≡◌, ◌∷◌, ◌++◌, [], ℕ, IfOk, IfSome, OnOk, codes, pos, string_bytes};
ghost use Rattle.std.specs.List.{FoldsTo};
ghost use Rattle.std.specs.BTreeMap.{insert_entry};
ghost use Rattle.std.specs.Fmt.{decimal};
ghost use Rattle.std.specs.Ordering.{nat_cmp};
ghost use Rattle.std.specs.Cmp.Lexicographic.{slice_cmp};
ghost use Rattle.row_script.specs.Rows.{before_blank, behind_blank};
ghost use Rattle.bson_value.specs.Digits.{index_of};
ghost use Rattle.bson_value.specs.Namespace.{IsSplit};
ghost use Rattle.bson_value.specs.NamespaceOrder.{namespace_cmp};
ghost use Rattle.bson_value.specs.Timestamp.{stamp_cmp, stamp_number};
ghost use Rattle.bson_value.specs.declared.namespace.NsName.{NsName as Namespace};
ghost use Rattle.bson_rows.specs.Rows.{IsPlaced, Places, first_text, if_small, index_text, numbers_text, order_word, stamp_of, stamps_text, texts_text, words_of};

use crate::texts::{joined, name, order_word};
use anyhow::{Context, Result};
use bson_value::{NsName, Ts, index_of};
use containers::{Bytes, CText, List, Text};
use row_script::{refused, words};
use std::alloc::{AllocError, Global};
use std::cmp::Ordering;
use std::collections::BTreeMap;

// Seconds and an ordinal, with a colon between.
fn timestamp(text: &str) -> Result<Ts>
    ensures { IfOk result (λ ts. ts ≡ stamp_of text.now) }
{
    let (secs, inc) = text.split_once(':').context("no timestamp")?;
    let secs = secs.parse::<u32>()?;
    let inc = inc.parse::<u32>()?;
    Ok(Ts { secs, inc })
}

fn stamps_text(alloc: Global, left: Ts, right: Ts) -> Result<String>
    ensures { IfOk result (λ text. string_bytes text ≡ stamps_text left right) }
{
    let order = order_word(left.cmp(&right));
    let numbers = order_word(left.as_u64().cmp(&right.as_u64()));
    Ok(format!(in alloc; "{order} {numbers}")?)
}

/// How a timestamp stands to another one, and their numbers.
pub fn timestamps(alloc: Global, text: &str) -> Result<String>
    ensures { IfOk result (λ answer. string_bytes answer ≡ stamps_text (stamp_of (before_blank text.now)) (stamp_of (behind_blank text.now))) }
{
    let (left, right) = words(text)?;
    let left = timestamp(left)?;
    let right = timestamp(right)?;
    left.is_ordered_by_number(right);
    stamps_text(alloc, left, right)
}

fn namespace(alloc: Global, text: &str) -> Result<NsName>
    ensures { IfOk result (λ ns. IsSplit text.now ns.db ns.coll) }
{
    match NsName::split(alloc, text)? {
        Some(name) => Ok(name),
        None => refused("no namespace"),
    }
}

// Counts a namespace.
fn count(alloc: Global, counts: &mut BTreeMap<NsName, u32>, text: &str, count: u32) -> Result<()>
    ensures { OnOk result ((ns : Namespace) × IsSplit text.now ns.db ns.coll × (counts.new.entries ≡ insert_entry namespace_cmp counts.old.entries ns count)) }
{
    let name = namespace(alloc, text)?;
    let _ = counts.insert(name, count)?;
    Ok(())
}

// Counts the namespaces that words name by the places of the words.
fn count_words(alloc: Global, counts: &mut BTreeMap<NsName, u32>, text: &str) -> Result<()>
    ensures { OnOk result ((last : ℕ) × FoldsTo IsPlaced (counts.old.entries, 0) (words_of text.now) (counts.new.entries, last)) }
{
    let mut place: u32 = 0;
    for word in text.split(' ') {
        place = place.saturating_add(1);
        count(alloc, counts, word, place)?;
    }
    Ok(())
}

// The database of a namespace, its place, and how many there are.
fn place_text(alloc: Global, db: &str, place: u32, count: usize) -> Result<String>
    ensures { IfOk result (λ answer. string_bytes answer ≡ db.now ++ codes " " ++ decimal place ++ codes " " ++ decimal count) }
{
    Ok(format!(in alloc; "{db} {place} {count}")?)
}

// The first entry, and how many there are.
fn first_entry(alloc: Global, counts: &BTreeMap<NsName, u32>) -> Result<String>
    ensures { IfOk result (λ answer. string_bytes answer ≡ first_text counts.now.entries) }
{
    match counts.first_key_value() {
        Some((name, place)) => place_text(alloc, name.db.as_str(), *place, counts.len()),
        None => refused("no entry"),
    }
}

/// A map of namespaces to the places of the words that last name them: its first entry, and how many it has.
pub fn namespaces(alloc: Global, text: &str) -> Result<String>
    ensures { IfOk result (λ answer. (places : Places) × FoldsTo IsPlaced ([], 0) (words_of text.now) places
        × (string_bytes answer ≡ first_text places.0)) }
{
    let mut map = BTreeMap::new(alloc);
    count_words(alloc, &mut map, text)?;
    first_entry(alloc, &map)
}

fn order_to_text(alloc: Global, left: &Text, right: &str) -> Result<Ordering, AllocError>
    ensures { IfOk result (λ order. order ≡ slice_cmp nat_cmp left.now right.now) }
{
    let right = Text::of(alloc, right)?;
    Ok(left.cmp(&right))
}

fn text_order(alloc: Global, left: &str, right: &str) -> Result<Ordering, AllocError>
    ensures { IfOk result (λ order. order ≡ slice_cmp nat_cmp left.now right.now) }
{
    let left = Text::of(alloc, left)?;
    order_to_text(alloc, &left, right)
}

fn order_to_name(alloc: Global, left: &CText, right: &str) -> Result<Ordering>
    ensures { IfOk result (λ order. order ≡ slice_cmp nat_cmp left.now right.now) }
{
    let right = name(alloc, right)?;
    Ok(left.cmp(&right))
}

fn name_order(alloc: Global, left: &str, right: &str) -> Result<Ordering>
    ensures { IfOk result (λ order. order ≡ slice_cmp nat_cmp left.now right.now) }
{
    let left = name(alloc, left)?;
    order_to_name(alloc, &left, right)
}

fn byte_order(alloc: Global, left: &[u8], right: &[u8]) -> Result<Ordering, AllocError>
    ensures { IfOk result (λ order. order ≡ slice_cmp nat_cmp left.now right.now) }
{
    let left = Bytes::of(alloc, left)?;
    let right = Bytes::of(alloc, right)?;
    Ok(left.cmp(&right))
}

/// How a text stands to another one, as texts, as texts without zeros and as bytes.
pub fn texts(alloc: Global, text: &str) -> Result<String>
    ensures { IfOk result (λ answer. string_bytes answer ≡ texts_text (before_blank text.now) (behind_blank text.now)) }
{
    let (left, right) = words(text)?;
    let texts = text_order(alloc, left, right)?;
    let names = name_order(alloc, left, right)?;
    let bytes = byte_order(alloc, left.as_bytes(), right.as_bytes())?;
    joined(
        alloc,
        order_word(texts),
        order_word(names),
        order_word(bytes),
    )
}

fn small_index(name: &str) -> Option<usize>
    ensures { result ≡ if_small (index_of name.now) }
{
    index_of(name)
}

/// The index that a name is.
pub fn index(alloc: Global, text: &str) -> Result<String>
    ensures { IfOk result (λ answer. string_bytes answer ≡ index_text text.now) }
{
    let index = small_index(text);
    Ok(format!(in alloc; "{index:?}")?)
}

// Puts the numbers 1, 2 and 3 in.
fn put_three(list: &mut List<i32>) -> Result<(), AllocError>
    ensures { OnOk result (list.new ≡ list.old ++ pos 1 ∷ pos 2 ∷ pos 3 ∷ []) }
{
    list.push(1)?;
    list.push(2)?;
    list.push(3)
}

// Puts in the numbers 1, 2 and 3, and then 9 at the place 1.
fn put_numbers(list: &mut List<i32>) -> Result<(), AllocError>
    requires { list.old ≡ [] }
    ensures { OnOk result (list.new ≡ pos 1 ∷ pos 9 ∷ pos 2 ∷ pos 3 ∷ []) }
{
    put_three(list)?;
    list.insert(1, 9)
}

fn numbers_text(alloc: Global, numbers: &[i32]) -> Result<String>
    ensures { IfOk result (λ text. IfSome (numbers_text numbers.now) (λ shown. string_bytes text ≡ shown)) }
{
    Ok(format!(in alloc; "{numbers:?}")?)
}

// Takes 2 out.
fn keep_others(list: &mut List<i32>)
    requires { list.old ≡ pos 1 ∷ pos 9 ∷ pos 2 ∷ pos 3 ∷ [] }
    ensures { list.new ≡ pos 1 ∷ pos 9 ∷ pos 3 ∷ [] }
{
    list.retain(|n| *n != 2);
}

// A text, and behind it numbers.
fn with_numbers(alloc: Global, text: &str, numbers: &[i32]) -> Result<String>
    ensures { IfOk result (λ answer. IfSome (numbers_text numbers.now) (λ shown. string_bytes answer ≡ text.now ++ codes " " ++ shown)) }
{
    Ok(format!(in alloc; "{text} {numbers:?}")?)
}

// The numbers of a list, and then these without 2.
fn list_text(alloc: Global, list: &mut List<i32>) -> Result<String>
    requires { list.old ≡ pos 1 ∷ pos 9 ∷ pos 2 ∷ pos 3 ∷ [] }
    ensures { IfOk result (λ answer. string_bytes answer ≡ codes "[1, 9, 2, 3] [1, 9, 3]") }
{
    let text = numbers_text(alloc, list.as_slice())?;
    keep_others(list);
    with_numbers(alloc, text.as_str(), list.as_slice())
}

/// The numbers 1, 2, 3 with 9 put in at the place 1, and these without 2.
pub fn list(alloc: Global) -> Result<String>
    ensures { IfOk result (λ answer. string_bytes answer ≡ codes "[1, 9, 2, 3] [1, 9, 3]") }
{
    let mut list = List::with_capacity(alloc, 4)?;
    put_numbers(&mut list)?;
    list_text(alloc, &mut list)
}
