//! What is done to a registry's disks, and what that comes to.
//!
//! All goes through one function over disks (`performs`): each further one that calls what is
//! written over any store costs a check of this crate twenty seconds.

ghost use Rattle.std.specs.Prelude.{IsTrue};

use crate::claims::holds;
use crate::disks::Disks;
use goo_cli::Opening;
use goo_cli_disk::settling::Settled;
use goo_cli_ending::Ending;
use goo_cli_jobs::init_in_files;
use goo_cli_registry::renewal_line::RenewalLine;
use goo_cli_registry::running::run_in_files;
use goo_types::day::Day;
use goo_types::registry_code::RegistryCode;
use goo_types::serial::Serial;
use sqlite::{Connection, Files, Options};
use sqlite_disk::Disk;
use std::alloc::Global;
use std::io::BufWriter;
use std::process::Abort;

/// What is done to disks.
#[derive(Clone, Copy)]
pub enum Step<'a> {
    /// The command `init`, on 1 March 2025: a registry of this code, with this next serial.
    Inits(u8, u64),
    /// The command `run`, with these lines as its input.
    Runs(&'a str),
    /// A text is run on the database, by nobody who should.
    Edits(&'a str),
}

/// A step and what it comes to: the line that tells of a renewal if there is one, the exit status,
/// the line on standard error if there is one, and then what standard output gets.
pub type StepRow = (Step<'static>, &'static str);

/// What is told of an edit.
pub const EDITED: &str = "edited";

/// Where the registry is said to lie.
const PATH: &str = "registry.db";

/// What the salts of a new log begin with.
const SEED: u64 = 7;

/// What a registry begins with on 1 March 2025.
fn in_march(rt: &impl Abort, code: u8, serial: u64) -> Opening {
    Opening {
        code: RegistryCode::new(code).expect(rt, "a code"),
        today: Day::read(b"2025-03-01").expect(rt, "a day"),
        next_serial: Serial::new(serial).expect(rt, "a serial"),
    }
}

/// What a command comes to.
fn told(rt: &impl Abort, alloc: Global, renewed: &[u8], ending: &Ending, output: &[u8]) -> String {
    let status = ending.status();
    let renewed = str::from_utf8(renewed).expect(rt, "a text");
    let output = str::from_utf8(output).expect(rt, "a text");
    let text = match ending {
        Ending::Done | Ending::PartlyDone => format!(in alloc; "{renewed}{status}\n{output}"),
        Ending::Denied(denial) => {
            let word = denial.text();
            format!(in alloc; "{renewed}{status} {word}\n{output}")
        }
        Ending::Failed(failure) => format!(in alloc; "{renewed}{status} {failure}\n{output}"),
        Ending::Words(_) | Ending::Misused(_) => panic!(rt; "a command line that is wrong"),
    };
    text.expect(rt, "memory")
}

/// A text is run on the database that files hold.
fn edited<D: Disk + Drop>(rt: &impl Abort, alloc: Global, files: Files<D>, sql: &str) -> Files<D>
    requires log { IsTrue (D.Disk.is_usable files.log) }
    requires db { IsTrue (D.Disk.is_usable files.db) }
{
    match Connection::open_files(alloc, files, Options::new(SEED)) {
        Ok(mut conn) => {
            conn.execute_batch(sql).expect(rt, "an edit");
            conn.into_store().close()
        }
        Err((_, left)) => left.into_files(),
    }
}

/// A step is done on files: what it comes to, and the files as it leaves them, with whether their
/// log may go.
fn performs<D: Disk + Drop>(
    rt: &impl Abort,
    alloc: Global,
    files: Files<D>,
    step: &Step<'_>,
) -> (String, Settled<D>) {
    if !files.may_be_used() {
        panic!(rt; "disks that may not be used");
    }
    let mut writer = BufWriter::new(alloc, Vec::new(alloc)).expect(rt, "memory");
    let mut renewed = Vec::new(alloc);
    let mut line = RenewalLine::new(PATH, &mut renewed);
    let (ending, left) = match step {
        Step::Inits(code, serial) => {
            let opening = in_march(rt, *code, *serial);
            init_in_files(alloc, files, SEED, opening, &mut writer)
        }
        Step::Runs(lines) => {
            let mut reader = lines.as_bytes();
            run_in_files(alloc, files, SEED, &mut reader, &mut writer, &mut line)
        }
        Step::Edits(sql) => {
            let settled = Settled {
                files: edited(rt, alloc, files, sql),
                is_log_spare: false,
            };
            let text = String::from_str(alloc, EDITED).expect(rt, "memory");
            return (text, settled);
        }
    };
    (
        told(rt, alloc, &renewed, &ending, writer.get_ref()),
        left.settle(),
    )
}

/// A step is done on disks: what it comes to, and the disks as it leaves them. A log that may go is
/// removed, as the program does.
pub fn does(rt: &impl Abort, alloc: Global, disks: Disks, step: &Step<'_>) -> (String, Disks) {
    let (told, settled) = performs(rt, alloc, disks.files, step);
    let disks = Disks {
        files: settled.files,
    };
    if settled.is_log_spare {
        (told, disks.without_log(alloc))
    } else {
        (told, disks)
    }
}

/// A step comes to what it should. Where it ends with its status and a line on standard error, the
/// disks hold what they held.
pub fn comes_to(rt: &impl Abort, alloc: Global, disks: Disks, row: &StepRow) -> Disks {
    let before = disks.contents(rt, alloc);
    let (told, disks) = does(rt, alloc, disks, &row.0);
    let is_spared = !row.1.contains(" goo: ") || disks.hold(&before);
    holds(rt, told.as_str() == row.1, &told);
    holds(rt, is_spared, row.1);
    disks
}

/// Steps that are done one after another come to what they should.
pub fn come_to(rt: &impl Abort, alloc: Global, disks: Disks, rows: &[StepRow]) -> Disks {
    let mut disks = disks;
    for row in rows {
        disks = comes_to(rt, alloc, disks, row);
    }
    disks
}
