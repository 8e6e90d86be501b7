//! The program: standard input, output and error, the words of the command line, and the exit status.
#![tactic(auto)]

use std::io::{BufReader, BufWriter, ErrorKind, Write};
use std::process::ExitCode;
use std::{env, io};
use tool_io::{Sink, StdSink, StdSource};
use tools_cli::tools;

/// What is gathered before the operating system is asked to read or to write, in bytes.
const GATHERED: usize = 65_536;

fn words(rt: HostRuntime) -> io::Result<Vec<String>> {
    let mut words = Vec::new(rt.alloc());
    for word in env::args(&rt)?.skip(1) {
        words.push(word)?;
    }
    Ok(words)
}

// Runs the tools over the standard streams. What is still gathered is written at the end, and a fault of that write is one of the
// output.
fn run<R: Sink>(rt: HostRuntime, report: &mut R) -> io::Result<u8> {
    let words = words(rt)?;
    let reader = BufReader::with_capacity(rt.alloc(), GATHERED, rt.stdin())?;
    let mut writer = BufWriter::with_capacity(rt.alloc(), GATHERED, rt.stdout())?;
    let mut input = StdSource::new(reader);
    let mut output = StdSink::new(&mut writer);
    let status = tools(rt.alloc(), &words, &mut input, &mut output, report);
    if writer.flush().is_err() && status == 0 {
        let _ = report.write(b"write fault\n");
        return Ok(10);
    }
    Ok(status)
}

fn main(rt: HostRuntime) -> ExitCode {
    let mut report = StdSink::new(rt.stderr());
    let status = match run(rt, &mut report) {
        Ok(status) => status,
        Err(e) if e.kind() == ErrorKind::InvalidData => {
            // A word that isn't UTF-8.
            let _ = report.write(b"usage: word 0\n");
            1
        }
        Err(_) => {
            let _ = report.write(b"no memory\n");
            11
        }
    };
    ExitCode::from(status)
}
