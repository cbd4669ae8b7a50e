//! What is done with a new registry in memory, by the task that the command line names.
ghost use Rattle.std.specs.Prelude.{◌≡◌};
ghost use Rattle.std.specs.Io.Buffered.{writer_contents};
ghost use Rattle.goo_spec.specs.Created.{created};
ghost use Rattle.goo_cli_jobs.specs.MemoryWorks.{IsWorkedInMemory};

use crate::serving_memory::serve_in_memory;
use goo_cli::{Opening, Serving};
use goo_cli_ending::Ending;
use goo_cli_registry::running::run_in_memory;
use goo_desk_server::Listener;
use std::alloc::Global;
use std::io::{BufWriter, Read, Write};

/// What is done with a new registry in memory.
#[derive(Clone, Copy)]
pub enum MemoryWork {
    /// The requests of the input are answered.
    Run,
    /// Requests are answered over HTTP.
    Serve(Serving),
}

/// Does this with a new registry in memory, which is gone when the program ends.
///
/// - `worked`: what is done is what was asked for: for lines what they come to, for connections
///   what each was sent, and that as many were accepted as asked for.
pub fn work_in_memory<L: Listener, R: Read, W: Write + Drop>(
    alloc: Global,
    opening: Opening,
    work: &MemoryWork,
    listener: &mut L,
    reader: &mut R,
    writer: &mut BufWriter<W>,
) -> Ending
    ensures worked { IsWorkedInMemory (created opening.code opening.today opening.next_serial)
        (R.remaining reader.old) (R.remaining reader.new) (writer_contents W.contents writer.old)
        (writer_contents W.contents writer.new) result (L.clients listener.old)
        (L.clients listener.new) work.now }
{
    match work {
        MemoryWork::Run => run_in_memory(alloc, opening, reader, writer),
        MemoryWork::Serve(serving) => serve_in_memory(alloc, opening, *serving, listener, writer),
    }
}
