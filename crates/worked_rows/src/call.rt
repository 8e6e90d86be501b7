//! A call of the program over memory.
use row_script::ends::{sink, source};
use std::alloc::{AllocError, Global};
use tools_cli::tools;

/// An end of a call.
#[derive(Clone, Copy, Debug, PartialEq, Eq)]
pub enum End {
    Input,
    Output,
    Report,
}

/// Which call of an end fails.
#[derive(Clone, Copy, Debug)]
pub struct Failure {
    pub end: End,
    pub call: u64,
}

/// What a call answered.
#[derive(Drop)]
pub struct Answer {
    pub status: u8,
    pub output: Vec<u8>,
    pub report: Vec<u8>,
}

// The call of an end that fails, if there is one.
fn failing(end: End, failure: Option<Failure>) -> Option<u64> {
    match failure {
        Some(failure) if failure.end == end => Some(failure.call),
        _ => None,
    }
}

fn answer_of(
    alloc: Global,
    status: u8,
    output: &[u8],
    report: &[u8],
) -> Result<Answer, AllocError> {
    let output = output.to_vec(alloc)?;
    let report = report.to_vec(alloc)?;
    Ok(Answer {
        status,
        output,
        report,
    })
}

/// Calls the program with these words and an input that comes in pieces of so many bytes, at least one.
pub fn call(
    alloc: Global,
    words: &[String],
    input: &[u8],
    piece: usize,
    failure: Option<Failure>,
) -> Result<Answer, AllocError> {
    let mut source = source(alloc, input, piece, failing(End::Input, failure))?;
    let mut output = sink(alloc, failing(End::Output, failure))?;
    let mut report = sink(alloc, failing(End::Report, failure))?;
    let status = tools(alloc, words, &mut source, &mut output, &mut report);
    answer_of(alloc, status, output.written(), report.written())
}
