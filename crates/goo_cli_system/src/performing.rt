//! What the program does.
ghost use Rattle.std.specs.Prelude.{◌≡◌, ◌⊎◌, map};
ghost use Rattle.std.specs.Io.Buffered.{writer_contents};
ghost use Rattle.std.specs.Io.KnownBytes.{Keeps};
ghost use Rattle.goo_spec.specs.Created.{created};
ghost use Rattle.goo_cli_ending.specs.Endings.{status_of};
ghost use Rattle.goo_cli_system.specs.Deeds.{OpenKept, OpenNew};
ghost use Rattle.goo_cli_system.specs.Uses.{Declines, MakesIn, Uses, WorksIn};
ghost use Rattle.goo_cli_system.specs.Performs.{IsIdle, IsPerformed, Performs};
ghost use Rattle.goo_cli_ending.specs.declared.ending.Ending.{Ending as End};

use crate::system::{Opened, System};
use goo_cli::{Opening, read_task};
use goo_cli_ending::Ending;
use goo_cli_jobs::{Job, Work, copy_of, init_in_files, job_of, work_in_files, work_in_memory};
use goo_cli_registry::renewal_line::RenewalLine;
use goo_cli_texts::ProgressLine;
use goo_desk_listener::Listener;
use std::alloc::Global;
use std::convert::AsStr;
use std::io::{BufWriter, Read, Write};

/// Makes a new registry in the files at a path.
fn make_at<Y: System, W: Write + Drop>(
    alloc: Global,
    system: &mut Y,
    path: &str,
    opening: Opening,
    writer: &mut BufWriter<W>,
) -> Ending
    ensures { (Declines (Y.refuses system.old (OpenNew path.now)) result (Y.did system.old)
        (Y.did system.new)
        × Keeps (writer_contents W.contents writer.old) (writer_contents W.contents writer.new))
        ⊎ Uses Y.Disk.Disk (OpenNew path.now) path.now (Y.held system.old path.now)
        (Y.did system.old) (Y.did system.new)
        (MakesIn Y.Disk.Disk (created opening.code opening.today opening.next_serial) opening.code
        (writer_contents W.contents writer.old) (writer_contents W.contents writer.new) result) }
{
    match system.open_new(path) {
        Ok(opened) => {
            let Opened { files, seed } = opened;
            let (ending, left) = init_in_files(alloc, files, seed, opening, writer);
            system.let_go(path, left.settle());
            ending
        }
        Err(reason) => Ending::Failed(reason.failure()),
    }
}

/// Works with the registry in the files at a path.
fn work_at<Y: System, L: Listener, R: Read, W: Write + Drop>(
    alloc: Global,
    system: &mut Y,
    path: &str,
    work: &Work,
    listener: &mut L,
    reader: &mut R,
    writer: &mut BufWriter<W>,
) -> Ending
    ensures { (Declines (Y.refuses system.old (OpenKept path.now)) result (Y.did system.old)
        (Y.did system.new) × IsIdle (R.remaining reader.old) (R.remaining reader.new)
        (writer_contents W.contents writer.old) (writer_contents W.contents writer.new)
        (L.clients listener.old) (L.clients listener.new))
        ⊎ Uses Y.Disk.Disk (OpenKept path.now) path.now (Y.held system.old path.now)
        (Y.did system.old) (Y.did system.new)
        (WorksIn Y.Disk.Disk (R.remaining reader.old) (R.remaining reader.new)
        (writer_contents W.contents writer.old) (writer_contents W.contents writer.new) result
        (L.clients listener.old) (L.clients listener.new) work.now) }
{
    match system.open_kept(path) {
        Ok(opened) => {
            let Opened { files, seed } = opened;
            let mut line = RenewalLine::new(path, system.errors());
            let mut progress = ProgressLine::new(system.terminal());
            let (ending, left) = work_in_files(
                alloc,
                files,
                seed,
                work,
                listener,
                reader,
                writer,
                &mut progress,
                &mut line,
            );
            let settled = left.settle();
            system.let_go(path, settled);
            ending
        }
        Err(reason) => Ending::Failed(reason.failure()),
    }
}

/// Does a job.
fn perform_job<Y: System, L: Listener, R: Read, W: Write + Drop>(
    alloc: Global,
    system: &mut Y,
    job: &Job<'_>,
    listener: &mut L,
    reader: &mut R,
    writer: &mut BufWriter<W>,
) -> Ending
    ensures { Performs Y.Disk.Disk (Y.held system.old) (Y.refuses system.old) (Y.did system.old)
        (Y.did system.new)
        (R.remaining reader.old) (R.remaining reader.new)
        (writer_contents W.contents writer.old) (writer_contents W.contents writer.new)
        (L.clients listener.old) (L.clients listener.new) result job.now }
{
    match job {
        Job::Make(path, opening) => make_at(alloc, system, *path, copy_of(opening), writer),
        Job::InFile(path, work) => work_at(alloc, system, *path, work, listener, reader, writer),
        Job::InMemory(opening, work) => {
            work_in_memory(alloc, copy_of(opening), work, listener, reader, writer)
        }
    }
}

/// Says how the program ends, and tells the exit status.
fn tell<Y: System>(system: &Y, ending: &Ending) -> u8
    ensures { result ≡ status_of ending.now }
{
    system.tell(ending);
    ending.status()
}

/// Does what the words of a command line ask for, says on standard error what isn't all right, and
/// tells the exit status.
///
/// The status is that of an ending, of which this holds: the words ask for a task, and what is done
/// is the task's job, with the files of its path and no others, or why the system refuses to open
/// them is told; or they ask for none, that is told, and nothing is done. A log is removed only where it may go, whatever a crash leaves of the files,
/// and nothing else is removed.
pub fn perform<P: AsStr, Y: System, L: Listener, R: Read, W: Write + Drop>(
    alloc: Global,
    words: &[P],
    system: &mut Y,
    listener: &mut L,
    reader: &mut R,
    writer: &mut BufWriter<W>,
) -> u8
    ensures { (told : End) × (result ≡ status_of told)
        × IsPerformed Y.Disk.Disk (Y.held system.old) (Y.refuses system.old) (Y.did system.old)
        (Y.did system.new)
        (R.remaining reader.old) (R.remaining reader.new)
        (writer_contents W.contents writer.old) (writer_contents W.contents writer.new)
        (L.clients listener.old) (L.clients listener.new) told
        (map P.text words.now) }
{
    let job = match read_task(alloc, words) {
        Ok(task) => job_of(&task),
        Err(fault) => return tell(&*system, &Ending::from(fault)),
    };
    let ending = perform_job(alloc, system, &job, listener, reader, writer);
    let status = tell(&*system, &ending);
    system.explain(&job, &ending);
    status
}
