//! Ends in memory and over the streams of std. Each row makes an end, and calls it as often as it says.
use crate::halting::Halting;
use anyhow::Result;
use row_script::{answer, bytes, digits, number, words};
use std::alloc::{AllocError, Global};
use tool_io::{MemSink, MemSource, Sink, Source, StdSink, StdSource};

// What a read of at most eight bytes gives.
fn read<S: Source>(alloc: Global, source: &mut S) -> Result<String> {
    let mut buf = [0u8; 8];
    match source.read(&mut buf) {
        Ok(0) => answer(alloc, "end"),
        Ok(count) => digits(alloc, &buf[..count]),
        Err(_) => answer(alloc, "fault"),
    }
}

fn push_read<S: Source>(alloc: Global, told: &mut String, source: &mut S) -> Result<()> {
    let read = read(alloc, source)?;
    told.push_str(read.as_str())?;
    Ok(())
}

// What four reads give.
fn reads<S: Source>(alloc: Global, source: &mut S) -> Result<String> {
    let mut told = String::new(alloc);
    push_read(alloc, &mut told, source)?;
    for _ in 0..3 {
        told.push(' ')?;
        push_read(alloc, &mut told, source)?;
    }
    Ok(told)
}

// The call that fails, as a list.
fn failing(alloc: Global, call: &str) -> Result<Vec<u64>> {
    let call = call.parse::<u64>()?;
    Ok(vec![in alloc; call]?)
}

// A source of two bytes and then nine.
fn two_and_nine(alloc: Global, bytes: Vec<u8>, fails: Vec<u64>) -> Result<MemSource, AllocError> {
    let pieces = [2, 9].to_vec(alloc)?;
    Ok(MemSource::new(bytes, pieces, fails))
}

/// What is read of a source in memory that gives two bytes and then nine, and whose call of this number fails.
pub fn source(alloc: Global, text: &str) -> Result<String> {
    let (call, text) = words(text)?;
    let fails = failing(alloc, call)?;
    let bytes = bytes(alloc, text)?;
    let mut source = two_and_nine(alloc, bytes, fails)?;
    reads(alloc, &mut source)
}

/// What is read of a standard source that gives two bytes a call, and whose call of this number fails.
pub fn standard_source(alloc: Global, text: &str) -> Result<String> {
    let (call, text) = words(text)?;
    let call = number(call)?;
    let bytes = bytes(alloc, text)?;
    let mut source = StdSource::new(Halting::new(bytes, call));
    reads(alloc, &mut source)
}

// Which of the words can be written, one after the other.
fn writes<K: Sink>(alloc: Global, sink: &mut K, text: &str) -> Result<String> {
    let mut told = String::new(alloc);
    for word in text.split(' ') {
        let end = sink.write(word.as_bytes());
        told.push_str(if end.is_ok() { "ok " } else { "fault " })?;
    }
    Ok(told)
}

fn with_kept(alloc: Global, told: &str, kept: &[u8]) -> Result<String> {
    let kept = std::str::from_utf8(kept)?;
    Ok(format!(in alloc; "{told}{kept}")?)
}

/// Which words a sink in memory takes whose call of this number fails, and what it keeps.
pub fn sink(alloc: Global, text: &str) -> Result<String> {
    let (call, text) = words(text)?;
    let fails = failing(alloc, call)?;
    let mut sink = MemSink::new(alloc, fails);
    let told = writes(alloc, &mut sink, text)?;
    with_kept(alloc, told.as_str(), sink.written())
}

/// Which words a standard sink takes of two bytes a call, whose call of this number fails, and what it keeps.
pub fn standard_sink(alloc: Global, text: &str) -> Result<String> {
    let (call, text) = words(text)?;
    let call = number(call)?;
    let mut writer = Halting::new(Vec::new(alloc), call);
    let told = writes(alloc, &mut StdSink::new(&mut writer), text)?;
    with_kept(alloc, told.as_str(), &writer.held)
}

/// Which words a standard sink over three bytes takes, and what it keeps.
pub fn full_sink(alloc: Global, text: &str) -> Result<String> {
    let mut room = [0u8; 3];
    let told = writes(alloc, &mut StdSink::new(room.as_mut_slice()), text)?;
    with_kept(alloc, told.as_str(), &room)
}
