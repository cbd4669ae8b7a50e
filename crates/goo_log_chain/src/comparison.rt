//! What of an outcome is the same whenever its entry is applied, and its hash.
ghost use Rattle.std.specs.Prelude.{◌≡◌, IfOk};
ghost use Rattle.goo_log_chain.specs.Chain.{as_accepted as accepted_text};
ghost use Rattle.goo_log_chain.specs.Chain.{chained as chain_after, comparable as comparable_text};

use crate::rows::rows;
use bstr::ByteSlice;
use goo_log_keyed::{HexDigest, hash_of_both};
use std::alloc::{AllocError, Global};

/// What a request that comes again is told.
const REPEATED: &[u8] = b"\"outcome\":\"repeated\"";

/// What it was told first.
const ACCEPTED: &[u8] = b"\"outcome\":\"accepted\"";

/// The route of a table of declarations.
const DECLARATIONS: &str = "/v1/declarations";

/// An answer with each `repeated` as `accepted`.
fn as_accepted(alloc: Global, body: &[u8]) -> Result<Vec<u8>, AllocError>
    ensures { IfOk result (λ text. text.items ≡ accepted_text body.now) }
{
    body.replace(alloc, REPEATED, ACCEPTED)
}

/// What of an outcome is the same whenever its entry is applied.
///
/// An entry that is applied twice is `repeated` and not `accepted`, and a refused row of a table
/// may get another number.
///
/// # Errors
///
/// `AllocError` where memory was refused.
#[tactic(auto, unfolding(crate::specs::Chain::comparable))]
pub fn comparable(
    alloc: Global,
    route: &str,
    status: u16,
    body: &[u8],
) -> Result<Vec<u8>, AllocError>
    ensures { IfOk result (λ text. text.items ≡ comparable_text route.now status body.now) }
{
    let same = if route == DECLARATIONS {
        rows(alloc, body)?
    } else {
        as_accepted(alloc, body)?
    };
    let number = format!(in alloc; "{status}")?;
    let mut text = Vec::new(alloc);
    text.extend_from_slice(number.as_bytes())?;
    text.extend_from_slice(b" ")?;
    text.extend_from_slice(same.as_slice())?;
    Ok(text)
}

/// The chain after an outcome, by the chain before.
///
/// # Errors
///
/// `AllocError` where memory was refused.
pub fn chained(
    alloc: Global,
    before: &[u8],
    route: &str,
    status: u16,
    body: &[u8],
) -> Result<HexDigest, AllocError>
    ensures { IfOk result (λ chain. chain ≡ chain_after before.now route.now status body.now) }
{
    let same = comparable(alloc, route, status, body)?;
    Ok(hash_of_both(before, same.as_slice()))
}
