//! The calls of a script, by their verbs:
//!
//! - `new N`: a new store, whose oplog holds N entries, and no dump; `fail N`: the write of this number, from 0, to the sink of the next
//!   dump fails.
//! - `do LINE`: a command to the store, checked and then run: how many entries it records, or why it is refused. Where ` / ` stands, a
//!   line of the schedule ends.
//! - `start`, `copy NS N`, `mark`, `tail N`, `finish`: the calls of a dump; `wrote`: how many bytes it has written.
//! - `recorded`: how many entries the store has recorded.
//! - `restore`, `replay`: what the program tells on its report of a restore of these bytes, or how many bytes it lists.
use crate::answers;
use anyhow::{Result, bail};
use dump_run::Dump;
use row_script::ends::{sink, source};
use row_script::{Respondent, all_words, namespace};
use schedule_model::{Command, Line};
use schedule_text::Schedule;
use std::alloc::Global;
use store_core::Store;
use tool_io::MemSink;
use tools_cli::tools;

/// Where the calls stand.
#[derive(Drop)]
pub struct Calls {
    store: Store,
    sink: MemSink,
    dump: Option<Dump>,
}

fn number(text: &str) -> Result<u32> {
    Ok(text.parse::<u32>()?)
}

// The text of a schedule with a line end for each ` / `.
fn lines_of(alloc: Global, text: &str) -> Result<String> {
    let mut lines = String::new(alloc);
    for line in text.split(" / ") {
        lines.push_str(line)?;
        lines.push_str("\n")?;
    }
    Ok(lines)
}

// The words of a restore, with or without the replay of the oplog.
fn restore_words(replay: bool) -> &'static str {
    if replay {
        "restore --archive --oplogReplay"
    } else {
        "restore --archive"
    }
}

// What a call tells, in one line.
fn told(alloc: Global, status: u8, length: usize, report: &str) -> Result<String> {
    match report.trim_end() {
        "" => Ok(format!(in alloc; "status {status}, {length} bytes:")?),
        line => Ok(format!(in alloc; "status {status}, {length} bytes: {line}")?),
    }
}

// What the program tells of a restore of these bytes, or how long its listing is.
fn restored(alloc: Global, archive: &[u8], replay: bool) -> Result<String> {
    let words = all_words(alloc, restore_words(replay))?;
    let mut input = source(alloc, archive, 4096, None)?;
    let mut output = sink(alloc, None)?;
    let mut report = sink(alloc, None)?;
    let status = tools(alloc, &words, &mut input, &mut output, &mut report);
    let length = output.written().len();
    match std::str::from_utf8(report.written()) {
        Ok(report) => told(alloc, status, length, report),
        Err(_) => bail!("a report that is no text"),
    }
}

impl Calls {
    pub fn new(alloc: Global) -> Result<Calls> {
        let sink = sink(alloc, None)?;
        let store = Store::new(alloc, 1000, None)?;
        Ok(Calls {
            store,
            sink,
            dump: None,
        })
    }

    // A new store, with an oplog of so many entries, and no dump.
    fn begin(&mut self, alloc: Global, text: &str) -> Result<String> {
        let entries = text.parse::<usize>()?.max(1).min(1_000_000);
        self.store = Store::new(alloc, entries, None)?;
        self.sink = sink(alloc, None)?;
        self.dump = None;
        answers::step(alloc, Ok(()))
    }

    fn fail(&mut self, alloc: Global, text: &str) -> Result<String> {
        let write = text.parse::<u64>()?;
        self.sink = sink(alloc, Some(write))?;
        answers::step(alloc, Ok(()))
    }

    // A command is checked, and then run: both answer the same.
    fn command(&mut self, alloc: Global, text: &str) -> Result<String> {
        let text = lines_of(alloc, text)?;
        let Ok(schedule) = Schedule::read(alloc, text.as_bytes()) else {
            bail!("no schedule");
        };
        let Some(line) = schedule.lines.as_slice().first() else {
            bail!("no line");
        };
        match &line.line {
            Line::Cmd(command) => self.run(alloc, command),
            _ => bail!("no command"),
        }
    }

    fn run(&mut self, alloc: Global, command: &Command) -> Result<String> {
        if self.store.recorded() >= 4_000_000_000 {
            bail!("more entries than a store records");
        }
        let checked = self.store.check(command);
        let applied = self.store.apply(command);
        if checked != applied {
            bail!("two answers");
        }
        answers::command(alloc, applied)
    }

    fn start(&mut self, alloc: Global) -> Result<String> {
        match Dump::start(alloc, &self.store, &mut self.sink) {
            Ok(dump) => {
                self.dump = Some(dump);
                answers::step(alloc, Ok(()))
            }
            Err(fault) => answers::step(alloc, Err(fault)),
        }
    }

    fn copy(&mut self, alloc: Global, text: &str) -> Result<String> {
        let (name, count) = text.split_once(' ').unwrap_or((text, "1"));
        let ns = namespace(alloc, name)?;
        let count = number(count)?;
        let Some(dump) = &mut self.dump else {
            bail!("no dump");
        };
        answers::step(alloc, dump.copy(&self.store, &ns, count, &mut self.sink))
    }

    fn mark(&mut self, alloc: Global) -> Result<String> {
        let Some(dump) = &mut self.dump else {
            bail!("no dump");
        };
        answers::step(alloc, dump.mark(&self.store))
    }

    fn tail(&mut self, alloc: Global, count: u32) -> Result<String> {
        let Some(dump) = &mut self.dump else {
            bail!("no dump");
        };
        answers::step(alloc, dump.tail(&self.store, count, &mut self.sink))
    }

    fn finish(&mut self, alloc: Global) -> Result<String> {
        let Some(dump) = &mut self.dump else {
            bail!("no dump");
        };
        answers::finish(alloc, dump.finish(&self.store, &mut self.sink))
    }
}

impl Respondent for Calls {
    fn answer(&mut self, alloc: Global, verb: &str, text: &str) -> Result<String> {
        match verb {
            "new" => self.begin(alloc, text),
            "fail" => self.fail(alloc, text),
            "do" => self.command(alloc, text),
            "recorded" => answers::count(alloc, self.store.recorded()),
            "start" => self.start(alloc),
            "copy" => self.copy(alloc, text),
            "mark" => self.mark(alloc),
            "tail" => self.tail(alloc, number(text)?),
            "finish" => self.finish(alloc),
            "wrote" => answers::count(alloc, self.sink.written().len() as u64),
            "restore" => restored(alloc, self.sink.written(), false),
            "replay" => restored(alloc, self.sink.written(), true),
            _ => bail!("no call: {verb}"),
        }
    }
}
