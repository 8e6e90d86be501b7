//! The script: one direction a line.
//!
//! - `row NAME`: a row begins, with an empty input.
//! - `> TEXT`: the input has this line more; `+ TEXT`: this text, without a line end; `x HEX`: these bytes.
//! - `cut N`: the input has its first N bytes alone.
//! - `letters N`: the input has N letters x more; `drill N`: the text of the drill of N.
//! - `pieces N`: the input comes in pieces of N bytes, 7 where nothing is said.
//! - `fail END N`: the call of this number, from 0, of `input`, `output` or `report` fails.
//! - `each END`: the call is made again and again, in each of which one call of this end more fails, until none is left.
//! - `run WORDS`: the program is called with these words. Behind it stand `status N`, 0 where nothing is said, `< LINE` for each line of
//!   the output, `= HEX` for its bytes or `bytes N` for their number, and `! LINE` for each line of the report, or `told N` for the number of
//!   its bytes.
//! - `pipe`: the output of the last call is the input of the next one; `back`: the input is again what it was before.
//! - `again`: the next call must write what the last one wrote.
use crate::call::{Answer, End, Failure, call};
use crate::wanted::Wanted;
use anyhow::bail;
use row_script::all_words;
use schedule_text::drill;
use std::alloc::{AllocError, Global};
use std::io::{self, Write};

/// Where a script stands.
#[derive(Drop)]
pub struct Script {
    row: String,
    input: Vec<u8>,
    before: Vec<u8>,
    piece: usize,
    failure: Option<Failure>,
    each: Option<End>,
    // The words of a call that isn't made yet.
    words: Option<Vec<String>>,
    wanted: Wanted,
    // What the last call wrote.
    last: Vec<u8>,
    pub calls: u32,
    pub differ: u32,
}

fn end_of(name: &str) -> Option<End> {
    match name {
        "input" => Some(End::Input),
        "output" => Some(End::Output),
        "report" => Some(End::Report),
        _ => None,
    }
}

fn put_line(bytes: &mut Vec<u8>, text: &str) -> Result<(), AllocError> {
    bytes.extend_from_slice(text.as_bytes())?;
    bytes.push(b'\n')?;
    Ok(())
}

// The bytes that these digits write.
fn put_bytes(alloc: Global, bytes: &mut Vec<u8>, digits: &str) -> anyhow::Result<()> {
    let more = row_script::bytes(alloc, digits)?;
    bytes.extend_from_slice(&more)?;
    Ok(())
}

fn put_letters(bytes: &mut Vec<u8>, count: u32) -> Result<(), AllocError> {
    for _ in 0..count {
        bytes.push(b'x')?;
    }
    Ok(())
}

// The text of a drill of so many rounds.
fn put_drill(alloc: Global, bytes: &mut Vec<u8>, rounds: u32) -> anyhow::Result<()> {
    if rounds < 1 || rounds > 100_000 {
        bail!("no drill: {rounds}");
    }
    let text = drill(alloc, rounds)?;
    bytes.extend_from_slice(text.as_slice())?;
    Ok(())
}

// The call of an end that fails, the first where none is named.
fn failure_of(text: &str) -> anyhow::Result<Option<Failure>> {
    let (name, call) = text.split_once(' ').unwrap_or((text, "0"));
    let call = call.parse::<u64>()?;
    Ok(end_of(name).map(|end| Failure { end, call }))
}

impl Script {
    pub fn new(alloc: Global) -> Script {
        Script {
            row: String::new(alloc),
            input: Vec::new(alloc),
            before: Vec::new(alloc),
            piece: 7,
            failure: None,
            each: None,
            words: None,
            wanted: Wanted::new(alloc),
            last: Vec::new(alloc),
            calls: 0,
            differ: 0,
        }
    }

    fn call_with(
        &self,
        alloc: Global,
        words: &[String],
        failure: Option<Failure>,
    ) -> Result<Answer, AllocError> {
        call(alloc, words, &self.input, self.piece, failure)
    }

    // Whether each call of this end that fails has the wanted answer, and some call fails.
    fn each_is_wanted(
        &self,
        alloc: Global,
        words: &[String],
        end: End,
    ) -> Result<bool, AllocError> {
        let whole = self.call_with(alloc, words, None)?;
        for number in 0..10_000u64 {
            let failure = Some(Failure { end, call: number });
            let answer = self.call_with(alloc, words, failure)?;
            if answer.status == whole.status && answer.output == whole.output {
                return Ok(number > 0);
            }
            if !self.wanted.is_front(&answer, &whole) {
                return Ok(false);
            }
        }
        Ok(false)
    }

    fn is_wanted(&mut self, alloc: Global, words: &[String]) -> Result<bool, AllocError> {
        let answer = self.call_with(alloc, words, self.failure)?;
        let is_wanted = self.wanted.is(&answer);
        self.last = answer.output;
        Ok(is_wanted)
    }

    /// Makes the call that is still to be made, and tells where it doesn't answer what is wanted.
    pub fn settle<W: Write>(&mut self, alloc: Global, out: &mut W) -> anyhow::Result<()> {
        let Some(words) = self.words.take() else {
            return Ok(());
        };
        let is_wanted = self.makes_wanted(alloc, &words)?;
        drop(words);
        self.count(out, is_wanted)?;
        self.wanted = Wanted::new(alloc);
        self.failure = None;
        self.each = None;
        Ok(())
    }

    // Makes a call, or each of those that fail. Whether what is answered is wanted.
    fn makes_wanted(&mut self, alloc: Global, words: &[String]) -> Result<bool, AllocError> {
        match self.each {
            Some(end) => self.each_is_wanted(alloc, words, end),
            None => self.is_wanted(alloc, words),
        }
    }

    // Counts a call, and tells of it where it isn't answered as it should be.
    fn count<W: Write>(&mut self, out: &mut W, is_wanted: bool) -> io::Result<()> {
        self.calls = self.calls.saturating_add(1);
        if !is_wanted {
            self.differ = self.differ.saturating_add(1);
            let row = self.row.as_str();
            let call = self.calls;
            writeln!(out, "{row}: call {call} differs")?;
        }
        Ok(())
    }

    fn begin(&mut self, alloc: Global, name: &str) -> anyhow::Result<()> {
        self.row = String::from_str(alloc, name)?;
        self.input.clear();
        self.piece = 7;
        Ok(())
    }

    // What stands in front of a call.
    fn given(&mut self, alloc: Global, verb: &str, text: &str) -> anyhow::Result<()> {
        match verb {
            ">" => put_line(&mut self.input, text)?,
            "+" => self.input.extend_from_slice(text.as_bytes())?,
            "x" => put_bytes(alloc, &mut self.input, text)?,
            "cut" => self.input.truncate(text.parse::<usize>()?),
            "pieces" => self.piece = text.parse::<usize>()?,
            "letters" => put_letters(&mut self.input, text.parse::<u32>()?)?,
            "drill" => put_drill(alloc, &mut self.input, text.parse::<u32>()?)?,
            "each" => self.each = end_of(text),
            "fail" => self.failure = failure_of(text)?,
            _ => bail!("no direction of a script: {verb}"),
        }
        Ok(())
    }

    /// Follows a line of the script.
    pub fn line<W: Write>(&mut self, alloc: Global, line: &str, out: &mut W) -> anyhow::Result<()> {
        let (verb, text) = line.split_once(' ').unwrap_or((line, ""));
        match verb {
            "" | "#" => {}
            "row" => {
                self.settle(alloc, out)?;
                self.begin(alloc, text)?;
            }
            "run" => {
                self.settle(alloc, out)?;
                self.words = Some(all_words(alloc, text)?);
            }
            "pipe" => {
                self.settle(alloc, out)?;
                self.before = self.input.to_vec(alloc)?;
                self.input = self.last.to_vec(alloc)?;
            }
            "back" => {
                self.settle(alloc, out)?;
                self.input = self.before.to_vec(alloc)?;
            }
            "again" => self.wanted.output = self.last.to_vec(alloc)?,
            "status" => self.wanted.status = text.parse::<u8>()?,
            "told" => self.wanted.told = Some(text.parse::<usize>()?),
            "bytes" => self.wanted.length = Some(text.parse::<usize>()?),
            "<" => put_line(&mut self.wanted.output, text)?,
            "=" => put_bytes(alloc, &mut self.wanted.output, text)?,
            "!" => put_line(&mut self.wanted.report, text)?,
            _ => {
                self.settle(alloc, out)?;
                self.given(alloc, verb, text)?;
            }
        }
        Ok(())
    }
}
