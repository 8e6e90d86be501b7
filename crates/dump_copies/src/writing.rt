//! What is written of the documents that a step read.
ghost use Rattle.std.specs.Prelude.{◌≡◌, ◌≤◌, ◌++◌, OnOk, OnErr, IsErrOf};
ghost use Rattle.std.specs.Io.KnownBytes.{Appends};
ghost use Rattle.tool_io.specs.Causes.{Rose, AppendsFront};
ghost use Rattle.archive_format.specs.Written.{with_documents};
ghost use Rattle.dump_copies.specs.Writing.{end_if, read_text};

use archive_blocks::BlockWriter;
use bson_value::{Bytes, List};
use tool_io::{Fault, Sink};

fn write_end<K: Sink>(writer: &mut BlockWriter, ended: bool, sink: &mut K) -> Result<(), Fault>
    ensures ok { OnOk result (Appends (K.end sink.old).bytes (K.end sink.new).bytes (end_if ended writer.old.ns writer.old.sum)) }
    ensures err { OnErr result (AppendsFront (K.end sink.old).bytes (K.end sink.new).bytes (end_if ended writer.old.ns writer.old.sum)) }
    ensures same { writer.new ≡ writer.old }
    ensures later { (K.end sink.old).faults ≤ (K.end sink.new).faults }
    ensures failed { IsErrOf result Fault.Failed → Rose (K.end sink.old).faults (K.end sink.new).faults }
{
    if ended { writer.end(sink) } else { Ok(()) }
}

/// Writes documents as a block, if there are any, and the end of their namespace behind the last ones. Behind an error
/// the writer is of no use.
pub fn write_read<K: Sink>(
    writer: &mut BlockWriter,
    docs: &List<Bytes>,
    ended: bool,
    sink: &mut K,
) -> Result<(), Fault>
    ensures ok { OnOk result (Appends (K.end sink.old).bytes (K.end sink.new).bytes (read_text writer.old docs.now ended)) }
    ensures err { OnErr result (AppendsFront (K.end sink.old).bytes (K.end sink.new).bytes (read_text writer.old docs.now ended)) }
    ensures writer { OnOk result (writer.new ≡ with_documents writer.old docs.now) }
    ensures later { (K.end sink.old).faults ≤ (K.end sink.new).faults }
    ensures failed { IsErrOf result Fault.Failed → Rose (K.end sink.old).faults (K.end sink.new).faults }
{
    match writer.block(docs, sink) {
        Ok(()) => write_end(writer, ended, sink),
        Err(fault) => Err(fault),
    }
}
