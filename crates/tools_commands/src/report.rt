//! The lines of the report.
ghost use Rattle.std.specs.Prelude.{◌≡◌, ◌⊎◌, ℕ, List, IfOk, string_bytes};
ghost use Rattle.tools_commands.specs.Ends.{turn, Tells};
ghost use Rattle.tools_commands.specs.Telling.{Told, RunsOut};
ghost use Rattle.json_text.specs.Print.{quoted as quoted_string};
ghost use Rattle.tools_commands.specs.Lines.{kind_text, quoted_name, sum_text, format_text, usage_line, line_kind_text, schedule_line, archive_line, no_id_text, metadata_text, operation_text, unreadable_text, unknown_line, id_text, index_text, duplicate_line, parallel_line, restore_line, line_of};

use crate::status::Status;
use archive_format::FormatFault;
use bson_check::BsonKind;
use bson_value::{NsName, Ts, Value};
use containers::Text;
use extjson::tree_of;
use json_text::print;
use json_tree::Tree;
use restore_plan::RestoreFault;
use schedule_dump::{renamed_line, rolled_line, ts_text};
use schedule_text::LineKind;
use std::alloc::{AllocError, Global};
use tool_io::{Fault, Sink};

// Tells the line of a status. Where that finds no memory, that is the status.
fn tell_line<R: Sink>(report: &mut R, line: &[u8], status: Status) -> Status
    requires { line.now ≡ line_of status }
    ensures { ((result ≡ status) × Tells (turn (R.end report.old) (R.end report.new)) (line_of status))
        ⊎ ((result ≡ Status.NoMemory) × RunsOut status (turn (R.end report.old) (R.end report.new))) }
{
    match report.write(line) {
        Ok(()) | Err(Fault::Failed) => status,
        Err(Fault::NoMemory) => Status::NoMemory,
    }
}

// The number of a kind of fault.
fn kind_text(kind: BsonKind) -> &'static str
    ensures { result.now ≡ kind_text kind }
{
    match kind {
        BsonKind::Short => "1",
        BsonKind::Length => "2",
        BsonKind::Tag => "3",
        BsonKind::Text => "4",
        BsonKind::Repeat => "5",
        BsonKind::Deep => "6",
        BsonKind::Bool => "7",
        BsonKind::TooLong => "8",
    }
}

// Database and collection, as a JSON string.
fn quoted(alloc: Global, ns: &NsName) -> Result<String, AllocError>
    ensures { IfOk result (λ s. string_bytes s ≡ quoted_name ns.now) }
{
    let name = state_listing::quoted_name(alloc, ns.db.as_str(), ns.coll.as_str())?;
    name.into_string()
}

// A checksum in 16 digits.
fn sum(alloc: Global, n: u64) -> Result<String, AllocError>
    ensures { IfOk result (λ s. string_bytes s ≡ sum_text n) }
{
    let bytes = n.to_be_bytes();
    hex::encode(alloc, bytes.as_slice())
}

fn crc_text(alloc: Global, ns: &NsName, said: u64, found: u64) -> Result<String, AllocError>
    ensures { IfOk result (λ s. string_bytes s ≡ format_text (FormatFault.Crc ns.now said found)) }
{
    let name = quoted(alloc, ns)?;
    let said = sum(alloc, said)?;
    let found = sum(alloc, found)?;
    format!(in alloc; "crc of {name} said {said} found {found}")
}

fn bson_text(alloc: Global, at: u64, kind: BsonKind) -> Result<String, AllocError>
    ensures { IfOk result (λ s. string_bytes s ≡ format_text (FormatFault.BadBson at kind)) }
{
    let place = format!(in alloc; "bad document at {at}")?;
    let digit = kind_text(kind);
    format!(in alloc; "{place} kind {digit}")
}

fn after_end_text(alloc: Global, ns: &NsName, at: u64) -> Result<String, AllocError>
    ensures { IfOk result (λ s. string_bytes s ≡ format_text (FormatFault.AfterEnd ns.now at)) }
{
    let name = quoted(alloc, ns)?;
    format!(in alloc; "after end of {name} at {at}")
}

fn not_ended_text(alloc: Global, ns: &NsName) -> Result<String, AllocError>
    ensures { IfOk result (λ s. string_bytes s ≡ format_text (FormatFault.NotEnded ns.now)) }
{
    let name = quoted(alloc, ns)?;
    format!(in alloc; "{name} not ended")
}

// What is wrong with the bytes.
fn format_text(alloc: Global, fault: &FormatFault) -> Result<String, AllocError>
    ensures { IfOk result (λ s. string_bytes s ≡ format_text fault.now) }
{
    match fault {
        FormatFault::BadMagic => format!(in alloc; "bad magic"),
        FormatFault::Truncated { at } => format!(in alloc; "truncated at {at}"),
        FormatFault::BadBson { at, kind } => bson_text(alloc, *at, *kind),
        FormatFault::BadPrelude { at } => format!(in alloc; "bad prelude at {at}"),
        FormatFault::BadHeader { at } => format!(in alloc; "bad header at {at}"),
        FormatFault::AfterEnd { ns, at } => after_end_text(alloc, ns, *at),
        FormatFault::DocsInEnd { at } => format!(in alloc; "document in end at {at}"),
        FormatFault::Crc { ns, said, found } => crc_text(alloc, ns, *said, *found),
        FormatFault::NotEnded { ns } => not_ended_text(alloc, ns),
        FormatFault::TooLong => format!(in alloc; "too long"),
    }
}

fn no_id_text(alloc: Global, ns: &NsName) -> Result<String, AllocError>
    ensures { IfOk result (λ s. string_bytes s ≡ no_id_text ns.now) }
{
    let name = quoted(alloc, ns)?;
    format!(in alloc; "no _id in {name}")
}

fn metadata_text(alloc: Global, ns: &NsName, at: usize) -> Result<String, AllocError>
    ensures { IfOk result (λ s. string_bytes s ≡ metadata_text ns.now at) }
{
    let name = quoted(alloc, ns)?;
    format!(in alloc; "bad metadata of {name} at {at}")
}

fn archive_line(alloc: Global, text: Result<String, AllocError>) -> Result<String, AllocError>
    ensures { (t : List ℕ) → IfOk text (λ s. string_bytes s ≡ t) → IfOk result (λ s. string_bytes s ≡ archive_line t) }
{
    let text = text?;
    format!(in alloc; "bad archive: {text}\n")
}

// An operation of the oplog that isn't known.
fn operation_line(alloc: Global, ts: Ts, name: &str) -> Result<String, AllocError>
    ensures { IfOk result (λ s. string_bytes s ≡ unknown_line (operation_text ts name.now)) }
{
    let ts = ts_text(alloc, ts)?;
    format!(in alloc; "unknown operation: {ts} {name}\n")
}

fn unreadable_line(alloc: Global, ts: Option<Ts>) -> Result<String, AllocError>
    ensures { IfOk result (λ s. string_bytes s ≡ unknown_line (unreadable_text ts)) }
{
    match ts {
        Some(ts) => operation_line(alloc, ts, "unreadable"),
        None => format!(in alloc; "unknown operation: unreadable\n"),
    }
}

fn usage_line(alloc: Global, word: usize) -> Result<String, AllocError>
    ensures { IfOk result (λ s. string_bytes s ≡ usage_line word) }
{
    format!(in alloc; "usage: word {word}\n")
}

// What is wrong with a line of a schedule.
fn line_kind_text(kind: LineKind) -> &'static str
    ensures { result.now ≡ line_kind_text kind }
{
    match kind {
        LineKind::Utf8 => "Utf8",
        LineKind::Command => "Command",
        LineKind::Words => "Words",
        LineKind::Number => "Number",
        LineKind::Name => "Name",
        LineKind::Json => "Json",
        LineKind::Extended => "Extended",
        LineKind::Shape => "Shape",
        LineKind::Place => "Place",
        LineKind::Limit => "Limit",
    }
}

fn schedule_line(alloc: Global, line: u32, kind: LineKind) -> Result<String, AllocError>
    ensures { IfOk result (λ s. string_bytes s ≡ schedule_line line kind) }
{
    let name = line_kind_text(kind);
    format!(in alloc; "bad schedule: line {line} {name}\n")
}

// Tells a text that was made for this status, if there was memory for it.
fn tell_text<R: Sink>(report: &mut R, text: Result<String, AllocError>, status: Status) -> Status
    requires { IfOk text (λ s. string_bytes s ≡ line_of status) }
    ensures { ((result ≡ status) × Tells (turn (R.end report.old) (R.end report.new)) (line_of status))
        ⊎ ((result ≡ Status.NoMemory) × RunsOut status (turn (R.end report.old) (R.end report.new))) }
{
    match text {
        Ok(text) => tell_line(report, text.as_bytes(), status),
        Err(_) => tell_line(report, b"no memory\n", Status::NoMemory),
    }
}

// An `_id`, as canonical Extended JSON.
fn id_text(alloc: Global, id: &Value) -> Result<String, AllocError>
    ensures { IfOk result (λ s. string_bytes s ≡ id_text id.now) }
{
    let text = print(alloc, &tree_of(alloc, id)?)?;
    text.into_string()
}

fn quoted_text(alloc: Global, text: &Text) -> Result<String, AllocError>
    ensures { IfOk result (λ s. string_bytes s ≡ quoted_string text.now) }
{
    let text = print(alloc, &Tree::Str(text.copy(alloc)?))?;
    text.into_string()
}

// A collection and an index of it.
fn index_text(alloc: Global, ns: &NsName, index: &Text) -> Result<String, AllocError>
    ensures { IfOk result (λ s. string_bytes s ≡ index_text ns.now index.now) }
{
    let name = quoted(alloc, ns)?;
    let index = quoted_text(alloc, index)?;
    format!(in alloc; "{name} {index}")
}

fn duplicate_line(
    alloc: Global,
    ns: &NsName,
    index: &Text,
    first: &Value,
    second: &Value,
) -> Result<String, AllocError>
    ensures { IfOk result (λ s. string_bytes s ≡ duplicate_line ns.now index.now first.now second.now) }
{
    let place = index_text(alloc, ns, index)?;
    let first = id_text(alloc, first)?;
    let second = id_text(alloc, second)?;
    format!(in alloc; "duplicate key: {place} {first} {second}\n")
}

fn parallel_line(alloc: Global, ns: &NsName, index: &Text, id: &Value) -> Result<String, AllocError>
    ensures { IfOk result (λ s. string_bytes s ≡ parallel_line ns.now index.now id.now) }
{
    let place = index_text(alloc, ns, index)?;
    let id = id_text(alloc, id)?;
    format!(in alloc; "parallel arrays: {place} {id}\n")
}

// What an archive that can't be restored is told as.
fn restore_line(alloc: Global, fault: &RestoreFault) -> Result<String, AllocError>
    ensures { IfOk result (λ s. string_bytes s ≡ restore_line fault.now) }
{
    match fault {
        RestoreFault::Metadata { ns, at } => archive_line(alloc, metadata_text(alloc, ns, *at)),
        RestoreFault::NoId { ns } => archive_line(alloc, no_id_text(alloc, ns)),
        RestoreFault::Entry { ts } => unreadable_line(alloc, *ts),
        RestoreFault::Rename { ts } => operation_line(alloc, *ts, "renameCollection"),
        RestoreFault::OtherCommand { ts, name } => operation_line(alloc, *ts, name.as_str()),
        RestoreFault::Parallel { ns, index, id } => parallel_line(alloc, ns, index, id),
        RestoreFault::Duplicate {
            ns,
            index,
            first,
            second,
        } => duplicate_line(alloc, ns, index, first, second),
        RestoreFault::NoMemory => format!(in alloc; "no memory\n"),
    }
}

fn tell_format<R: Sink>(alloc: Global, fault: FormatFault, report: &mut R) -> Status
    ensures { ((result ≡ Status.BadArchive fault) × Tells (turn (R.end report.old) (R.end report.new)) (line_of (Status.BadArchive fault)))
        ⊎ ((result ≡ Status.NoMemory) × RunsOut (Status.BadArchive fault) (turn (R.end report.old) (R.end report.new))) }
{
    let text = archive_line(alloc, format_text(alloc, &fault));
    tell_text(report, text, Status::BadArchive(fault))
}

fn tell_failure<R: Sink>(alloc: Global, fault: RestoreFault, report: &mut R) -> Status
    ensures { ((result ≡ Status.NotRestored fault) × Tells (turn (R.end report.old) (R.end report.new)) (line_of (Status.NotRestored fault)))
        ⊎ ((result ≡ Status.NoMemory) × RunsOut (Status.NotRestored fault) (turn (R.end report.old) (R.end report.new))) }
{
    let text = restore_line(alloc, &fault);
    tell_text(report, text, Status::NotRestored(fault))
}

/// Tells the status on the report. A failing write changes nothing of it, and want of memory is the status then.
pub fn tell<R: Sink>(alloc: Global, status: Status, report: &mut R) -> Status
    ensures { Told status result (turn (R.end report.old) (R.end report.new)) }
{
    match status {
        Status::Done => Status::Done,
        Status::Usage { word } => {
            tell_text(report, usage_line(alloc, word), Status::Usage { word })
        }
        Status::BadSchedule { line, kind } => {
            let text = schedule_line(alloc, line, kind);
            tell_text(report, text, Status::BadSchedule { line, kind })
        }
        Status::BadArchive(fault) => tell_format(alloc, fault, report),
        Status::NotRestored(fault) => tell_failure(alloc, fault, report),
        Status::Rolled { start, oldest } => {
            let text = rolled_line(alloc, start, oldest);
            tell_text(report, text, Status::Rolled { start, oldest })
        }
        Status::Renamed { ts } => {
            tell_text(report, renamed_line(alloc, ts), Status::Renamed { ts })
        }
        Status::ReadFault => tell_line(report, b"read fault\n", Status::ReadFault),
        Status::WriteFault => tell_line(report, b"write fault\n", Status::WriteFault),
        Status::NoMemory => tell_line(report, b"no memory\n", Status::NoMemory),
    }
}
