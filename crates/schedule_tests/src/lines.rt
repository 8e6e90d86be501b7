//! The lines that worked schedules have.
use bson_value::{Doc, NsName, Value};
use doc_path::Form;
use extjson::tree_of;
use json_text::print;
use schedule_model::{Command, DocumentCommand, Line};
use schedule_text::Schedule;
use std::alloc::{AllocError, Global};
use std::test::Fail;

// A schedule where ` / ` stands for a line end, and its cap and lines with their numbers.
const GOOD: &str = r#"
<> 1000
<#> 1000
<dump> 1000; 1 dump
<dump / > 1000; 1 dump
<oplog 5> 5
<# / oplog 5 276 / dump> 5 276; 3 dump
<oplog 1000000 1073741824> 1000000 1073741824
<at 0 / at 4294967295> 1000; 1 at 0; 2 at 4294967295
<record v1 / record v2> 1000; 1 record v1; 2 record v2
<create s.c / create s.c.d {"a":1}> 1000; 1 create s|c {}; 2 create s|c.d {"a":{"$numberInt":"1"}}
<drop s.c / dropDatabase s / rename s.c t.d> 1000; 1 drop s|c; 2 dropDatabase s; 3 rename s|c t|d
<insert s.c  {"a":1}  / replace s.c {"_id":1}> 1000; 1 insert s|c {"a":{"$numberInt":"1"}}; 2 replace s|c {"_id":{"$numberInt":"1"}}
<update s.c {"$set":{"a":1},"_id":[],"b":null}> 1000; 1 update s|c [] {"$set":{"a":{"$numberInt":"1"}},"b":null}
<delete s.c {"_id":{"a":1}}> 1000; 1 delete s|c {"a":{"$numberInt":"1"}}
<createIndex s.c {"key":{"x":1},"name":"i"} / dropIndex s.c i> 1000; 1 createIndex s|c {"key":{"x":{"$numberInt":"1"}},"name":"i"}; 2 dropIndex s|c i
<copy s.c 1 / mark / tail 1000000> 1000; 1 copy s|c 1; 2 mark; 3 tail 1000000
<begin / commit> 1000; 2 txn
<begin / insert s.c {} / #x / copy s.c 5 / delete s.c {"_id":2} / commit / dump> 1000; 4 copy s|c 5; 6 txn insert s|c {}, delete s|c {"$numberInt":"2"}; 7 dump
<begin / insert s.c {} / mark / abort / dump> 1000; 3 mark; 5 dump
<dump / begin / insert s.c {}> 1000; 1 dump
<begin / delete s.c {"_id":1} / commit / begin / commit> 1000; 3 txn delete s|c {"$numberInt":"1"}; 5 txn
"#;

fn shown_value(alloc: Global, value: &Value) -> Result<String, AllocError> {
    let tree = tree_of(alloc, value)?;
    Ok(print(alloc, &tree)?.into_string()?)
}

fn shown_document(alloc: Global, doc: &Doc) -> Result<String, AllocError> {
    let mut copy = Doc::new(alloc);
    for (name, value) in doc.entries() {
        copy.set(name.copy(alloc)?, value.copy(alloc)?)?;
    }
    shown_value(alloc, &Value::Object(copy))
}

fn shown_name(alloc: Global, ns: &NsName) -> Result<String, AllocError> {
    let (db, coll) = (ns.db.as_str(), ns.coll.as_str());
    format!(in alloc; "{db}|{coll}")
}

fn shown_pair(alloc: Global, verb: &str, ns: &NsName, doc: &Doc) -> Result<String, AllocError> {
    let (ns, doc) = (shown_name(alloc, ns)?, shown_document(alloc, doc)?);
    format!(in alloc; "{verb} {ns} {doc}")
}

fn shown_document_command(alloc: Global, command: &DocumentCommand) -> Result<String, AllocError> {
    match command {
        DocumentCommand::Insert { ns, doc } => shown_pair(alloc, "insert", ns, doc),
        DocumentCommand::Replace { ns, doc } => shown_pair(alloc, "replace", ns, doc),
        DocumentCommand::Update { ns, id, ops } => {
            let (ns, id) = (shown_name(alloc, ns)?, shown_value(alloc, id)?);
            let ops = shown_document(alloc, ops)?;
            format!(in alloc; "update {ns} {id} {ops}")
        }
        DocumentCommand::Delete { ns, id } => {
            let (ns, id) = (shown_name(alloc, ns)?, shown_value(alloc, id)?);
            format!(in alloc; "delete {ns} {id}")
        }
    }
}

fn shown_transaction(alloc: Global, commands: &[DocumentCommand]) -> Result<String, AllocError> {
    let mut text = String::from_str(alloc, "txn")?;
    for command in commands {
        let sign = if text.len() == 3 { " " } else { ", " };
        text.push_str(sign)?;
        text.push_str(shown_document_command(alloc, command)?.as_str())?;
    }
    Ok(text)
}

fn shown_rename(alloc: Global, from: &NsName, to: &NsName) -> Result<String, AllocError> {
    let (from, to) = (shown_name(alloc, from)?, shown_name(alloc, to)?);
    format!(in alloc; "rename {from} {to}")
}

fn shown_drop_index(alloc: Global, ns: &NsName, name: &str) -> Result<String, AllocError> {
    let ns = shown_name(alloc, ns)?;
    format!(in alloc; "dropIndex {ns} {name}")
}

fn shown_drop(alloc: Global, ns: &NsName) -> Result<String, AllocError> {
    let ns = shown_name(alloc, ns)?;
    format!(in alloc; "drop {ns}")
}

fn shown_drop_database(alloc: Global, db: &str) -> Result<String, AllocError> {
    format!(in alloc; "dropDatabase {db}")
}

fn shown_command(alloc: Global, command: &Command) -> Result<String, AllocError> {
    match command {
        Command::At(second) => format!(in alloc; "at {second}"),
        Command::Recording(Form::V1) => format!(in alloc; "record v1"),
        Command::Recording(Form::V2) => format!(in alloc; "record v2"),
        Command::Create { ns, options } => shown_pair(alloc, "create", ns, options),
        Command::DropColl { ns } => shown_drop(alloc, ns),
        Command::DropDatabase { db } => shown_drop_database(alloc, db.as_str()),
        Command::Rename { from, to } => shown_rename(alloc, from, to),
        Command::Document(command) => shown_document_command(alloc, command),
        Command::CreateIndex { ns, def } => shown_pair(alloc, "createIndex", ns, def),
        Command::DropIndex { ns, name } => shown_drop_index(alloc, ns, name.as_str()),
        Command::Txn { commands } => shown_transaction(alloc, commands.as_slice()),
    }
}

fn shown_line(alloc: Global, line: &Line) -> Result<String, AllocError> {
    match line {
        Line::Cmd(command) => shown_command(alloc, command),
        Line::Dump => format!(in alloc; "dump"),
        Line::Copy { ns, n } => {
            let ns = shown_name(alloc, ns)?;
            format!(in alloc; "copy {ns} {n}")
        }
        Line::Mark => format!(in alloc; "mark"),
        Line::Tail { n } => format!(in alloc; "tail {n}"),
    }
}

fn shown(alloc: Global, schedule: &Schedule) -> Result<String, AllocError> {
    let cap = schedule.cap;
    let mut text = format!(in alloc; "{cap}")?;
    if let Some(bytes) = schedule.bytes {
        text.push_str(format!(in alloc; " {bytes}")?.as_str())?;
    }
    for numbered in schedule.lines.as_slice() {
        let number = numbered.number;
        let line = shown_line(alloc, &numbered.line)?;
        text.push_str(format!(in alloc; "; {number} {line}")?.as_str())?;
    }
    Ok(text)
}

#[test]
fn each_line_is_read(rt: HostRuntime) -> Result<(), Fail> {
    for row in GOOD.lines().skip(1) {
        let (text, want) = row.split_once("> ").ok_or("no end")?;
        let text = text.strip_prefix("<").ok_or("no bracket")?;
        let text = text.replace(rt.alloc(), " / ", "\n")?;
        let schedule = Schedule::read(rt.alloc(), text.as_bytes())?;
        assert_eq!(rt; shown(rt.alloc(), &schedule)?.as_str(), want);
    }
    Ok(())
}
