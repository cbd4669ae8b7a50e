//! How far an import is, on a line of a terminal.
ghost use Rattle.std.specs.Prelude.{◌≡◌, ◌++◌, ◌+◌, ◌≤◌, decimal, OnOk};
ghost use Rattle.std.specs.Io.KnownBytes.{Appends};
ghost use Rattle.arrayvec.specs.ArrayString.{array_string_len};
ghost use Rattle.goo_cli_texts.specs.Progress.{progress_text};

use arrayvec::ArrayString;
use goo_files::ImportWatcher;
use goo_files_streams::{WriteFault, write_whole};
use itoa::Buffer;
use std::io::Write;

/// An import of fewer rows tells nothing of how far it is.
const FEWEST: u64 = 100;

/// How many times an import of many rows tells how far it is.
const PARTS: u64 = 100;

/// Room for what is told at once.
const ROOM: usize = 64;

/// The line of a terminal on which an import of a hundred rows or more tells how many of them
/// stand, and of how many. It is written over itself, at most at each further hundredth of the
/// rows. A write that fails is passed over.
#[derive(Drop)]
pub struct ProgressLine<T> {
    /// None where nobody looks.
    terminal: Option<T>,
    /// How many rows there are in all.
    rows: u64,
    /// The number of rows at which something is told next.
    due: u64,
    is_begun: bool,
}

/// Writes an integer.
fn push_integer(out: &mut ArrayString<ROOM>, integer: u64)
    requires { array_string_len out.old + 20 ≤ 64 }
    ensures bytes { out.new.bytes ≡ out.old.bytes ++ decimal integer }
    ensures len { array_string_len out.new ≤ array_string_len out.old + 20 }
{
    let mut digits = Buffer::new();
    out.push_str(digits.format(integer));
}

/// What is told where so many rows of so many stand. It begins where the line does.
#[tactic(auto, unfolding(crate::specs::Progress::progress_text))]
fn progress_text(done: u64, rows: u64) -> ArrayString<ROOM>
    ensures { result.bytes ≡ progress_text done rows }
{
    let mut out = ArrayString::new();
    out.push_str("\r");
    push_integer(&mut out, done);
    out.push_str(" of ");
    push_integer(&mut out, rows);
    out.push_str(" rows");
    out
}

/// Writes over the line that so many rows of so many stand.
fn tell<T: Write>(terminal: &mut T, done: u64, rows: u64) -> Result<(), WriteFault>
    ensures { OnOk result
        (Appends (T.contents terminal.old) (T.contents terminal.new) (progress_text done rows)) }
{
    write_whole(terminal, progress_text(done, rows).as_str().as_bytes())
}

impl<T: Write> ProgressLine<T> {
    /// A line of this terminal, or of none.
    pub fn new(terminal: Option<T>) -> ProgressLine<T> {
        ProgressLine {
            terminal,
            rows: 0,
            due: u64::MAX,
            is_begun: false,
        }
    }

    /// Ends the line, if something is told on it.
    pub fn end(&mut self) {
        if !self.is_begun {
            return;
        }
        self.is_begun = false;
        if let Some(terminal) = &mut self.terminal {
            let _ = write_whole(terminal, b"\n");
        }
    }
}

impl<T: Write> ImportWatcher for ProgressLine<T> {
    fn is_watched(&self) -> bool {
        self.terminal.is_some()
    }

    fn begin(&mut self, rows: u64) {
        if rows >= FEWEST {
            self.rows = rows;
            self.due = 1;
        }
    }

    fn advance(&mut self, rows: u64) {
        if rows < self.due && rows != self.rows {
            return;
        }
        self.is_begun = true;
        self.due = rows.saturating_add(self.rows / PARTS);
        if let Some(terminal) = &mut self.terminal {
            let _ = tell(terminal, rows, self.rows);
        }
    }
}
