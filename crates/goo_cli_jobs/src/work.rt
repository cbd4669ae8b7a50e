//! What is done with a registry, by the task that the command line names.
ghost use Rattle.std.specs.Prelude.{◌≡◌, IsTrue};
ghost use Rattle.std.specs.Io.Buffered.{writer_contents};
ghost use Rattle.sqlite.specs.Files.{image_of, HoldsDatabase};
ghost use Rattle.sqlite.specs.Tree.{Trees};
ghost use Rattle.goo_store_opening.specs.Versions.{state_held};
ghost use Rattle.goo_cli.specs.Asked.{asked_by};
ghost use Rattle.goo_cli_registry.specs.Closings.{HasSpareLog, IfRefused, IsClean};
ghost use Rattle.goo_cli_registry.specs.Refusals.{IsTurnedAway};
ghost use Rattle.goo_cli_jobs.specs.Works.{asked_for, IsWorked};

use crate::memory_work::MemoryWork;
use goo_cli::{Invocation, Opening, Records, Serving};
use goo_cli_ending::Ending;
use goo_cli_files::{audit_in_files, declare_in_files, serve_in_files, statement_in_files};
use goo_cli_registry::closing::Left;
use goo_cli_registry::renewal_line::RenewalLine;
use goo_cli_registry::running::run_in_files;
use goo_cli_texts::ProgressLine;
use goo_desk_server::Listener;
use goo_types::account_no::AccountNo;
use sqlite::Files;
use sqlite_disk::Disk;
use std::alloc::Global;
use std::io::{BufWriter, Read, Write};

/// What is done with the registry that files hold.
#[derive(Clone, Copy)]
pub enum Work {
    /// The requests of the input are answered.
    Run,
    /// The declarations of the input are imported.
    Declare,
    /// The statement of an account is shown.
    Statement(AccountNo),
    /// The audit is shown.
    Audit,
    /// Requests are answered over HTTP.
    Serve(Serving),
}

/// A task, by where its records are.
#[derive(Clone, Copy)]
pub enum Job<'a> {
    /// A new registry is made in the file.
    Make(&'a str, Opening),
    /// This is done with the registry in the file.
    InFile(&'a str, Work),
    /// This is done with a new registry in memory.
    InMemory(Opening, MemoryWork),
}

/// The same opening, field by field, as what is lent can't be given away.
pub fn copy_of(opening: &Opening) -> Opening
    ensures { result ≡ opening.now }
{
    Opening {
        code: opening.code,
        today: opening.today,
        next_serial: opening.next_serial,
    }
}

/// The job of a task.
pub fn job_of<'a>(task: &Invocation<'a>) -> Job<'a>
    ensures { asked_for result ≡ asked_by task.now }
{
    match task {
        Invocation::Init(path, opening) => Job::Make(*path, copy_of(opening)),
        Invocation::Run(Records::Memory(opening)) => {
            Job::InMemory(copy_of(opening), MemoryWork::Run)
        }
        Invocation::Run(Records::File(path)) => Job::InFile(*path, Work::Run),
        Invocation::Declare(path) => Job::InFile(*path, Work::Declare),
        Invocation::Statement(path, account) => Job::InFile(*path, Work::Statement(*account)),
        Invocation::Audit(path) => Job::InFile(*path, Work::Audit),
        Invocation::Serve(Records::Memory(opening), serving) => {
            Job::InMemory(copy_of(opening), MemoryWork::Serve(*serving))
        }
        Invocation::Serve(Records::File(path), serving) => Job::InFile(
            *path,
            Work::Serve(*serving),
        ),
    }
}

/// Does this with the registry that files hold, and closes it. `progress` tells how far an import
/// is, `line` if the registry is of version 1. What is said holds so long as the files returned
/// what was written, and `db` is the database that they held.
///
/// - `worked`: what is done is what was asked for: for a statement the account's, for an audit the
///   audit's text, for lines and for rows what they come to, for connections what is promised of
///   their requests, what each was sent, and that as many were accepted as asked for. A statement and an audit leave
///   the registry as it was.
/// - `turned_away`: where there is no registry, the word for what the files hold is told, or a fault of
///   the store or want of memory, and no harm came to what the files held, after a crash too: but for
///   a registry of version 1, the same registry in version 2 may be found then.
/// - `copied`: a log that is said to be copied into the database file is.
pub fn work_in_files<D: Disk + Drop, L: Listener, R: Read, W: Write + Drop, T: Write, E: Write>(
    alloc: Global,
    files: Files<D>,
    seed: u64,
    work: &Work,
    listener: &mut L,
    reader: &mut R,
    writer: &mut BufWriter<W>,
    progress: &mut ProgressLine<T>,
    line: &mut RenewalLine<'_, E>,
) -> (Ending, Left<D>)
    requires log { IsTrue (D.Disk.is_usable files.log) }
    requires db { IsTrue (D.Disk.is_usable files.db) }
    ensures worked { IsClean result.1 → (db : Trees) → HoldsDatabase (image_of D.Disk files) db
        → IsWorked (state_held db) (R.remaining reader.old) (R.remaining reader.new)
        (writer_contents W.contents writer.old) (writer_contents W.contents writer.new) result.0
        result.1 (L.clients listener.old) (L.clients listener.new) work.now }
    ensures turned_away { IsClean result.1 → IfRefused result.1 (IsTurnedAway files result.0) }
    ensures copied { HasSpareLog result.1 }
{
    match work {
        Work::Run => run_in_files(alloc, files, seed, reader, writer, line),
        Work::Declare => declare_in_files(alloc, files, seed, reader, writer, progress, line),
        Work::Statement(account) => statement_in_files(alloc, files, seed, *account, writer, line),
        Work::Audit => audit_in_files(alloc, files, seed, writer, line),
        Work::Serve(serving) => {
            serve_in_files(alloc, files, seed, *serving, listener, writer, line)
        }
    }
}
