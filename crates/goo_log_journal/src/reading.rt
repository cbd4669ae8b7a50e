//! A reader of a journal: where it stands after each line.
ghost use Rattle.std.specs.Prelude.{◌≡◌, ◌<◌, length, IfOk, OnOk, OnErr, string_bytes};
ghost use Rattle.std.specs.Str.{bytes_eq};
ghost use Rattle.hex.specs.Hex.{encode_lower};
ghost use Rattle.sha2.specs.Sha256.{sha256};
ghost use Rattle.goo_log_entry.specs.Contents.{entry_contents, outcome_contents};
ghost use Rattle.goo_log_journal.specs.Place.{comes_next as is_next, is_concluded as concluded_test};
ghost use Rattle.goo_log_journal.specs.Place.{concludes as conclusion_test, with_entry, with_outcome};
ghost use Rattle.goo_log_journal.specs.Read.{place_of, waiting_of};

use goo_log_chain::chained;
use goo_log_entry::{Entry, Outcome};
use goo_log_keyed::{HexDigest, hash_of};
use std::alloc::{AllocError, Global};

/// An entry that has no outcome yet.
#[derive(Drop)]
pub struct Waiting {
    pub number: u64,
    pub route: String,
}

/// Where a journal stands.
#[derive(Drop)]
pub struct Reading {
    /// Of the last entry; 0 before the first.
    pub number: u64,
    /// Of the last entry's line.
    pub hash: HexDigest,
    /// Of the outcomes.
    pub chain: Vec<u8>,
    /// The entries that have no outcome, the oldest first.
    pub waiting: Vec<Waiting>,
}

/// A text once more.
fn copied(alloc: Global, text: &String) -> Result<String, AllocError>
    ensures { IfOk result (λ copy. string_bytes copy ≡ string_bytes text.now) }
{
    let mut copy = String::new(alloc);
    copy.push_str(text.as_str())?;
    Ok(copy)
}

/// Bytes once more.
fn bytes_copied(alloc: Global, bytes: &[u8]) -> Result<Vec<u8>, AllocError>
    ensures { IfOk result (λ copy. copy.items ≡ bytes.now) }
{
    let mut copy = Vec::new(alloc);
    copy.extend_from_slice(bytes)?;
    Ok(copy)
}

/// Whether two texts are the same bytes.
fn is_same(one: &[u8], other: &[u8]) -> bool
    ensures { result ≡ bytes_eq one.now other.now }
{
    one == other
}

/// Whether an outcome is that of an entry, chained behind `chain`.
fn concludes(
    alloc: Global,
    outcome: &Outcome,
    chain: &[u8],
    first: &Waiting,
) -> Result<bool, AllocError>
    ensures { IfOk result
        (λ is. is
        ≡ conclusion_test (outcome_contents outcome.now) chain.now (waiting_of first.now)) }
{
    if outcome.number != first.number {
        return Ok(false);
    }
    let route = first.route.as_str();
    let own = chained(alloc, chain, route, outcome.status, outcome.body.as_slice())?;
    Ok(is_same(outcome.chain.as_bytes(), own.as_slice()))
}

impl Reading {
    /// Whether an entry comes next.
    pub fn comes_next(&self, entry: &Entry) -> bool
        ensures { result ≡ is_next (entry_contents entry.now) (place_of self.now) }
    {
        entry.number > 0
            && entry.number - 1 == self.number
            && (self.number == 0 || is_same(entry.before.as_bytes(), self.hash.as_slice()))
    }

    /// Goes on behind an entry, of which this is the line.
    ///
    /// # Errors
    ///
    /// `AllocError` where memory was refused; the place stays then.
    pub fn add_entry(&mut self, alloc: Global, entry: &Entry, line: &[u8]) -> Result<(), AllocError>
        ensures added { OnOk result (place_of self.new
            ≡ with_entry (encode_lower (sha256 line.now)) (entry_contents entry.now)
            (place_of self.old)) }
        ensures same { OnErr result (place_of self.new ≡ place_of self.old) }
    {
        let route = copied(alloc, &entry.request.route)?;
        let number = entry.number;
        self.waiting.push(Waiting { number, route })?;
        self.number = number;
        self.hash = hash_of(line);
        Ok(())
    }

    /// Whether an outcome is that of the first entry that waits, and chained.
    ///
    /// # Errors
    ///
    /// `AllocError` where memory was refused.
    pub fn is_concluded(&self, alloc: Global, outcome: &Outcome) -> Result<bool, AllocError>
        ensures { IfOk result
            (λ is. is
            ≡ concluded_test (outcome_contents outcome.now) (place_of self.now).chain
            (place_of self.now).waiting) }
    {
        match self.waiting.as_slice() {
            [] => Ok(false),
            [first, ..] => concludes(alloc, outcome, self.chain.as_slice(), first),
        }
    }

    /// Goes on behind the outcome of the first entry that waits.
    ///
    /// # Errors
    ///
    /// `AllocError` where memory was refused; the place stays then.
    pub fn add_outcome(&mut self, alloc: Global, outcome: &Outcome) -> Result<(), AllocError>
        requires { 0 < length self.old.waiting.items }
        ensures added { OnOk result (place_of self.new
            ≡ with_outcome (outcome_contents outcome.now) (place_of self.old)) }
        ensures same { OnErr result (place_of self.new ≡ place_of self.old) }
    {
        let chain = bytes_copied(alloc, outcome.chain.as_bytes())?;
        self.chain = chain;
        let _first = self.waiting.remove(0);
        Ok(())
    }
}
