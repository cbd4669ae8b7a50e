//! The bytes of a journal, read piece by piece.
ghost use Rattle.std.specs.Prelude.{◌≡◌, ◌≢◌, ◌++◌, ◌∷◌, [], List, ℕ, IfOk, IfErr, IfSome, OnOk};
ghost use Rattle.goo_log_journal.specs.Place.{Place};
ghost use Rattle.goo_log_journal.specs.Read.{place_of};
ghost use Rattle.goo_log_verify.specs.Verdicts.{IsVerdict, Stands};
ghost use Rattle.goo_log_verify.specs.Stops.{IsStop};

use crate::verdict::Verdict;
use goo_files_streams::{InputFault, read_some};
use goo_log_journal::{LineFault, Reading, take};
use goo_log_keyed::Key;
use std::alloc::Global;
use std::io::Read;

/// The bytes of a line, at most: more than any entry or outcome has whose request the registry
/// reads.
pub const MOST_LINE: usize = 4_194_304;

/// How many bytes are read at once.
const PIECE: usize = 4_096;

/// Where a verifier stands: behind whole lines, in the line of a number.
#[derive(Drop)]
struct Verifier {
    reading: Reading,
    /// Of the line that is read.
    line: u64,
    /// What was read of it.
    rest: Vec<u8>,
}

/// Why a verifier goes no further.
#[derive(Drop)]
enum Stop {
    /// The line of this number is refused, or there was no memory for it.
    Refused(u64, LineFault),
    /// The line of this number is beyond bounds.
    Beyond(u64),
}

impl Stop {
    /// What is said of the journal then.
    fn verdict(self) -> Result<Verdict, InputFault>
        ensures { IfOk result (λ verdict. (key : List ℕ) (from : Place) (bytes : List ℕ)
            → IsStop key from bytes self → IsVerdict key from bytes verdict) }
    {
        match self {
            Stop::Refused(_, LineFault::Memory) => Err(InputFault::Memory),
            Stop::Refused(line, fault) => Ok(Verdict::Bad(line, fault)),
            Stop::Beyond(line) => Ok(Verdict::Beyond(line)),
        }
    }
}

impl Verifier {
    /// Before the first line.
    fn new(alloc: Global, from: Reading) -> Verifier
        ensures { (key : List ℕ) → Stands key (place_of from) [] result }
    {
        Verifier {
            reading: from,
            line: 1,
            rest: Vec::new(alloc),
        }
    }

    /// Takes a byte of a line.
    fn add_byte(&mut self, byte: u8) -> Result<(), Stop>
        requires { byte ≢ 10 }
        ensures ok { OnOk result ((key : List ℕ) (from : Place) (bytes : List ℕ)
            → Stands key from bytes self.old → Stands key from (bytes ++ byte ∷ []) self.new) }
        ensures err { IfErr result (λ stop. (key : List ℕ) (from : Place) (bytes : List ℕ)
            → Stands key from bytes self.old → IsStop key from (bytes ++ byte ∷ []) stop) }
    {
        if self.rest.len() >= MOST_LINE {
            return Err(Stop::Beyond(self.line));
        }
        match self.rest.push(byte) {
            Ok(()) => Ok(()),
            Err(_) => Err(Stop::Refused(self.line, LineFault::Memory)),
        }
    }

    /// Takes a line end.
    #[tactic(auto, using(crate::proofs::Steps::step_line))]
    fn end_line(&mut self, alloc: Global, key: &Key) -> Result<(), Stop>
        ensures ok { OnOk result ((from : Place) (bytes : List ℕ)
            → Stands key.now from bytes self.old
            → Stands key.now from (bytes ++ 10 ∷ []) self.new) }
        ensures err { IfErr result (λ stop. (from : Place) (bytes : List ℕ)
            → Stands key.now from bytes self.old → IsStop key.now from (bytes ++ 10 ∷ []) stop) }
    {
        if self.line == u64::MAX {
            return Err(Stop::Beyond(self.line));
        }
        match take(&mut self.reading, alloc, key, self.rest.as_slice()) {
            Ok(_) => {
                self.line += 1;
                self.rest.clear();
                Ok(())
            }
            Err(fault) => Err(Stop::Refused(self.line, fault)),
        }
    }

    /// Takes a byte.
    fn take_byte(&mut self, alloc: Global, key: &Key, byte: u8) -> Result<(), Stop>
        ensures ok { OnOk result ((from : Place) (bytes : List ℕ)
            → Stands key.now from bytes self.old
            → Stands key.now from (bytes ++ byte ∷ []) self.new) }
        ensures err { IfErr result (λ stop. (from : Place) (bytes : List ℕ)
            → Stands key.now from bytes self.old → IsStop key.now from (bytes ++ byte ∷ []) stop) }
    {
        if byte == b'\n' {
            self.end_line(alloc, key)
        } else {
            self.add_byte(byte)
        }
    }

    /// Takes a piece.
    fn take_piece(&mut self, alloc: Global, key: &Key, piece: &[u8]) -> Result<(), Stop>
        ensures ok { OnOk result ((from : Place) (bytes : List ℕ)
            → Stands key.now from bytes self.old
            → Stands key.now from (bytes ++ piece.now) self.new) }
        ensures err { IfErr result (λ stop. (from : Place) (bytes : List ℕ)
            → Stands key.now from bytes self.old → IsStop key.now from (bytes ++ piece.now) stop) }
    {
        for index in 0..piece.len() {
            self.take_byte(alloc, key, piece[index])?;
        }
        Ok(())
    }

    /// What the bytes are, if no more come.
    fn end(self) -> Verdict
        ensures { (key : List ℕ) (from : Place) (bytes : List ℕ)
            → Stands key from bytes self → IsVerdict key from bytes result }
    {
        if self.rest.is_empty() {
            Verdict::Whole(self.reading)
        } else {
            Verdict::Unfinished(self.line)
        }
    }
}

/// What the bytes of a journal are, which begins at a place.
///
/// # Errors
///
/// `Read` where a read fails, and `Memory` where memory was refused. `TooLong` where it has more
/// pieces than can be counted.
pub fn verify<R: Read>(
    alloc: Global,
    key: &Key,
    from: Reading,
    journal: &mut R,
) -> Result<Verdict, InputFault>
    ensures { IfOk result (λ verdict. IfSome (R.remaining journal.old)
        (λ bytes. IsVerdict key.now (place_of from) bytes verdict)) }
{
    let mut verifier = Verifier::new(alloc, from);
    let mut piece = [0u8; PIECE];
    for _ in 0..u64::MAX {
        let count = read_some(journal, &mut piece)?;
        if count == 0 {
            return Ok(verifier.end());
        }
        if let Err(stop) = verifier.take_piece(alloc, key, &piece[..count]) {
            return stop.verdict();
        }
    }
    Err(InputFault::TooLong)
}
