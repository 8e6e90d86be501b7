//! Bytes in hexadecimal.
ghost use Rattle.std.specs.Prelude.{◌≡◌, ℕ, ◌+◌, ◌*◌, ◌/◌, ◌%◌, ◌<◌, ◌≤◌, ◌++◌, OnOk, length, slice_index};
ghost use Rattle.hex.specs.Hex.{encode_lower, lower_digits};
ghost use Rattle.document_lines.specs.Digits.{AreWritten};

use std::alloc::AllocError;

// How many bytes are written in digits at a time.
const RUN: usize = 1024;

// How many bytes are put in digits together.
const BLOCK: usize = 16;

// By arithmetic and not from a table, so that many go at once.
#[inline(always)]
fn digit(n: u8) -> u8
    requires { n < 16 }
    ensures { result ≡ slice_index lower_digits n }
{
    let letter = if n < 10 { 0 } else { 39 };
    n + 48 + letter
}

// The first digits of a block.
#[inline(always)]
fn high_digits(bytes: &[u8], at: usize) -> [u8; BLOCK]
    requires { at + 16 ≤ length bytes.now }
    ensures { (k : ℕ) → k < 16 → slice_index result k ≡ slice_index lower_digits (slice_index bytes.now (at + k) / 16) }
{
    let mut digits = [0; BLOCK];
    'digits: for i in 0..BLOCK {
        digits[i] = digit(bytes[at + i] / 16);
    }
    digits
}

// The second digits of a block.
#[inline(always)]
fn low_digits(bytes: &[u8], at: usize) -> [u8; BLOCK]
    requires { at + 16 ≤ length bytes.now }
    ensures { (k : ℕ) → k < 16 → slice_index result k ≡ slice_index lower_digits (slice_index bytes.now (at + k) % 16) }
{
    let mut digits = [0; BLOCK];
    'digits: for i in 0..BLOCK {
        digits[i] = digit(bytes[at + i] % 16);
    }
    digits
}

// Both digits of a block. It stands apart, so that LLVM makes vectors of its bytes and not of the blocks of its caller.
#[inline(never)]
fn write_block(bytes: &[u8], at: usize, text: &mut [u8])
    requires room { at + 16 ≤ length bytes.now }
    requires before { AreWritten bytes.now text.old at }
    ensures { AreWritten bytes.now text.new (at + 16) }
{
    let high = high_digits(bytes, at);
    let low = low_digits(bytes, at);
    'bytes: for i in 0..BLOCK {
        text[2 * (at + i)] = high[i];
        text[2 * (at + i) + 1] = low[i];
    }
}

pub fn write_digits(bytes: &[u8], text: &mut [u8])
    requires { length text.old ≡ 2 * length bytes.now }
    ensures { text.new ≡ encode_lower bytes.now }
{
    let mut at = 0;
    'runs: while bytes.len() - at >= BLOCK {
        write_block(bytes, at, text);
        at += BLOCK;
    }
    write_rest(bytes, at, text);
}

fn write_rest(bytes: &[u8], at: usize, text: &mut [u8])
    requires within { at ≤ length bytes.now }
    requires before { AreWritten bytes.now text.old at }
    ensures { text.new ≡ encode_lower bytes.now }
{
    'bytes: for i in at..bytes.len() {
        let byte = bytes[i];
        text[2 * i] = digit(byte / 16);
        text[2 * i + 1] = digit(byte % 16);
    }
}

/// Appends the bytes in lower-case hexadecimal.
pub fn put_hex(out: &mut Vec<u8>, bytes: &[u8]) -> Result<(), AllocError>
    ensures { OnOk result (out.new.items ≡ out.old.items ++ encode_lower bytes.now) }
{
    let mut rest = bytes;
    let mut digits = [0u8; 2 * RUN];
    while !rest.is_empty() {
        let n = rest.len().min(RUN);
        let (run, others) = rest.split_at(n);
        write_digits(run, &mut digits[..2 * n]);
        out.extend_from_slice(&digits[..2 * n])?;
        rest = others;
    }
    Ok(())
}
