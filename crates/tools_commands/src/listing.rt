//! The restore of an archive, and the listing of what it gives.
ghost use Rattle.std.specs.Prelude.{◌≡◌};
ghost use Rattle.tools_commands.specs.Ends.{turn};
ghost use Rattle.tools_commands.specs.RestoreAnswers.{RestoreSays};

use crate::status::Status;
use restore_plan::{ArchiveFault, restore_archive};
use state_listing::list;
use std::alloc::Global;
use tool_io::{Fault, Sink, Source};
use tools_words::RestoreOrder;

/// Reads an archive from the input, and lists on the output what it restores to.
pub fn list_archive<S: Source, K: Sink>(
    alloc: Global,
    order: RestoreOrder,
    input: &mut S,
    output: &mut K,
) -> Status
    ensures { RestoreSays order result
        (turn (S.end input.old) (S.end input.new))
        (turn (K.end output.old) (K.end output.new)) }
{
    let RestoreOrder { plan, form } = order;
    match restore_archive(alloc, plan, input) {
        Ok((state, counts)) => match list(alloc, &state, &counts, form, output) {
            Ok(()) => Status::Done,
            Err(Fault::Failed) => Status::WriteFault,
            Err(Fault::NoMemory) => Status::NoMemory,
        },
        Err(ArchiveFault::Format(fault)) => Status::BadArchive(fault),
        Err(ArchiveFault::Restore(fault)) => Status::NotRestored(fault),
        Err(ArchiveFault::ReadFault) => Status::ReadFault,
        Err(ArchiveFault::NoMemory) => Status::NoMemory,
    }
}
