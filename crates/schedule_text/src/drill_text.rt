//! The drill: a schedule whose commands a number draws.
ghost use Rattle.std.specs.Prelude.{ℕ, ◌≡◌, ◌<◌, ◌≤◌, ◌++◌, IfOk, OnOk};
ghost use Rattle.std.specs.Fmt.{decimal};
ghost use Rattle.schedule_text.specs.declared.drill_text.Action.TheVariants.{Insert, Set, Push, Pop, Replace, Delete, Copy};
ghost use Rattle.schedule_text.specs.DrillText.{next, drawn, action_of, row, start, lines_at, drill_text};

use containers::Bytes;
use itoa::Buffer;
use std::alloc::{AllocError, Global};

// The field `p` of an inserted document.
const PADDING: &[u8; 100] =
    b"xxxxxxxxxxxxxxxxxxxxxxxxxxxxxxxxxxxxxxxxxxxxxxxxxxxxxxxxxxxxxxxxxxxxxxxxxxxxxxxxxxxxxxxxxxxxxxxxxxxx";

/// A linear congruential generator.
#[derive(Drop)]
struct Generator {
    state: u64,
}

impl Generator {
    /// Draws a number below `limit`.
    fn below(&mut self, limit: u64) -> u64
        requires { 0 < limit }
        ensures state { self.new.state ≡ next self.old.state }
        ensures value { result ≡ drawn limit self.new.state }
        ensures below { result < limit }
    {
        self.state = self
            .state
            .wrapping_mul(6364136223846793005)
            .wrapping_add(1442695040888963407);
        (self.state / 8589934592) % limit
    }
}

/// What a line of the drill does.
#[derive(Clone, Copy)]
enum Action {
    Insert,
    Set,
    Push,
    Pop,
    Replace,
    Delete,
    Copy,
}

fn action_of(t: u64) -> Action
    ensures { result ≡ action_of t }
{
    match t {
        0 | 1 | 2 | 3 => Action::Insert,
        4 => Action::Set,
        5 => Action::Push,
        6 => Action::Pop,
        7 => Action::Replace,
        8 => Action::Delete,
        _ => Action::Copy,
    }
}

// A piece of a line, and a number behind it.
fn put_number(text: &mut Vec<u8>, piece: &[u8], n: u64) -> Result<(), AllocError>
    ensures { OnOk result (text.new.items ≡ text.old.items ++ (piece.now ++ decimal n)) }
{
    let mut digits = Buffer::new();
    text.extend_from_slice(piece)?;
    text.extend_from_slice(digits.format(n).as_bytes())
}

fn put_insert(text: &mut Vec<u8>, j: u64, k: u64, i: u64) -> Result<(), AllocError>
    ensures { OnOk result (text.new.items ≡ text.old.items ++ row Insert j k i) }
{
    put_number(text, b"insert d.c", j)?;
    put_number(text, b" {\"_id\":", k)?;
    put_number(text, b",\"a\":[", i)?;
    put_number(text, b"],\"b\":{\"x\":", i)?;
    text.extend_from_slice(b"},\"p\":\"")?;
    text.extend_from_slice(PADDING)?;
    text.extend_from_slice(b"\"}\n")?;
    Ok(())
}

fn put_set(text: &mut Vec<u8>, j: u64, k: u64, i: u64) -> Result<(), AllocError>
    ensures { OnOk result (text.new.items ≡ text.old.items ++ row Set j k i) }
{
    put_number(text, b"update d.c", j)?;
    put_number(text, b" {\"_id\":", k)?;
    put_number(text, b",\"$set\":{\"b.x\":", i)?;
    text.extend_from_slice(b"}}\n")?;
    Ok(())
}

fn put_push(text: &mut Vec<u8>, j: u64, k: u64, i: u64) -> Result<(), AllocError>
    ensures { OnOk result (text.new.items ≡ text.old.items ++ row Push j k i) }
{
    put_number(text, b"update d.c", j)?;
    put_number(text, b" {\"_id\":", k)?;
    put_number(text, b",\"$push\":{\"a\":", i)?;
    text.extend_from_slice(b"}}\n")?;
    Ok(())
}

fn put_pop(text: &mut Vec<u8>, j: u64, k: u64) -> Result<(), AllocError>
    ensures { (i : ℕ) → OnOk result (text.new.items ≡ text.old.items ++ row Pop j k i) }
{
    put_number(text, b"update d.c", j)?;
    put_number(text, b" {\"_id\":", k)?;
    text.extend_from_slice(b",\"$pop\":{\"a\":1}}\n")?;
    Ok(())
}

fn put_replace(text: &mut Vec<u8>, j: u64, k: u64) -> Result<(), AllocError>
    ensures { (i : ℕ) → OnOk result (text.new.items ≡ text.old.items ++ row Replace j k i) }
{
    put_number(text, b"replace d.c", j)?;
    put_number(text, b" {\"_id\":", k)?;
    text.extend_from_slice(b",\"a\":[],\"b\":{\"x\":0}}\n")?;
    Ok(())
}

fn put_delete(text: &mut Vec<u8>, j: u64, k: u64) -> Result<(), AllocError>
    ensures { (i : ℕ) → OnOk result (text.new.items ≡ text.old.items ++ row Delete j k i) }
{
    put_number(text, b"delete d.c", j)?;
    put_number(text, b" {\"_id\":", k)?;
    text.extend_from_slice(b"}\n")?;
    Ok(())
}

fn put_copy(text: &mut Vec<u8>, j: u64) -> Result<(), AllocError>
    ensures { (k i : ℕ) → OnOk result (text.new.items ≡ text.old.items ++ row Copy j k i) }
{
    put_number(text, b"copy d.c", j)?;
    text.extend_from_slice(b" 7\n")?;
    Ok(())
}

// The line of an action with the collection `j` and the document `k`, at the place `i`.
fn put_row(text: &mut Vec<u8>, action: Action, j: u64, k: u64, i: u64) -> Result<(), AllocError>
    ensures { OnOk result (text.new.items ≡ text.old.items ++ row action j k i) }
{
    match action {
        Action::Insert => put_insert(text, j, k, i),
        Action::Set => put_set(text, j, k, i),
        Action::Push => put_push(text, j, k, i),
        Action::Pop => put_pop(text, j, k),
        Action::Replace => put_replace(text, j, k),
        Action::Delete => put_delete(text, j, k),
        Action::Copy => put_copy(text, j),
    }
}

// The start of the dump, where it stands before this place.
fn put_start(text: &mut Vec<u8>, n: u64, i: u64) -> Result<(), AllocError>
    ensures { OnOk result (text.new.items ≡ text.old.items ++ start n i) }
{
    if i == n / 2 + 1 {
        text.extend_from_slice(b"dump\n")?;
    }
    Ok(())
}

// The lines of a place.
#[tactic(auto, using(crate::proofs::DrillRows::put_both))]
fn put_lines(
    text: &mut Vec<u8>,
    generator: &mut Generator,
    n: u64,
    i: u64,
) -> Result<(), AllocError>
    requires { 0 < n }
    ensures text { OnOk result (text.new.items ≡ text.old.items ++ lines_at n i generator.old.state) }
    ensures state { OnOk result (generator.new.state ≡ next (next (next generator.old.state))) }
{
    put_start(text, n, i)?;
    let action = action_of(generator.below(10));
    let j = generator.below(4);
    let k = generator.below(n);
    put_row(text, action, j, k, i)
}

fn lines(alloc: Global, n: u64) -> Result<Vec<u8>, AllocError>
    requires least { 1 ≤ n }
    requires most { n ≤ 100000 }
    ensures { IfOk result (λ text. text.items ≡ drill_text n) }
{
    let mut text = Vec::from_slice(
        alloc,
        b"oplog 1000000\ncreate d.c0\ncreate d.c1\ncreate d.c2\ncreate d.c3\n",
    )?;
    let mut generator = Generator { state: n };
    for i in 0..n {
        put_lines(&mut text, &mut generator, n, i + 1)?;
    }
    Ok(text)
}

/// The text of the drill of `n`, by which the whole program is tried: inserts, updates, replacements and
/// deletions of `n` documents at most in four collections, among them the start of a dump and its copies,
/// all drawn by a generator that begins at `n`. It has n + 6 lines.
pub fn drill(alloc: Global, n: u32) -> Result<Bytes, AllocError>
    requires least { 1 ≤ n }
    requires most { n ≤ 100000 }
    ensures { IfOk result (λ text. text ≡ drill_text n) }
{
    Ok(Bytes::from_vec(lines(alloc, u64::from(n))?))
}
