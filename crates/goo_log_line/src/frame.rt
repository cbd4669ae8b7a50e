//! A text between its name and its keyed hash.
ghost use Rattle.std.specs.Prelude.{◌≡◌, ◌≢◌, ◌≤◌, ℕ, List, length, MatchOption, IfOk};
ghost use Rattle.std.specs.Str.{bytes_eq};
ghost use Rattle.goo_log_line.specs.Line.{framed as frame_of};

use goo_log_keyed::Key;
use std::alloc::{AllocError, Global};

/// What stands before the text of an entry.
pub(crate) const ENTRY: &[u8] = b"{\"entry\":";

/// What stands before the text of an outcome.
pub(crate) const OUTCOME: &[u8] = b"{\"outcome\":";

/// What stands before the hash.
pub(crate) const MIDDLE: &[u8] = b",\"mac\":\"";

/// What stands behind it.
pub(crate) const END: &[u8] = b"\"}";

/// The bytes behind a text.
const TAIL: usize = 74;

/// A text between its name and its keyed hash.
#[tactic(auto, unfolding(crate::specs::Line::framed))]
pub(crate) fn framed(
    alloc: Global,
    name: &[u8],
    key: &Key,
    text: &[u8],
) -> Result<Vec<u8>, AllocError>
    ensures { IfOk result (λ line. line.items ≡ frame_of name.now key.now text.now) }
{
    let mut line = Vec::new(alloc);
    line.extend_from_slice(name)?;
    line.extend_from_slice(text)?;
    line.extend_from_slice(MIDDLE)?;
    line.extend_from_slice(key.mac(text).as_slice())?;
    line.extend_from_slice(END)?;
    Ok(line)
}

/// Whether these are the same bytes.
fn is_same(again: &[u8], line: &[u8]) -> bool
    ensures { result ≡ bytes_eq again.now line.now }
{
    again == line
}

/// The text in a line of this name, whose keyed hash is right.
pub(crate) fn text_in<'a>(
    alloc: Global,
    name: &[u8],
    key: &Key,
    line: &'a [u8],
) -> Result<Option<&'a [u8]>, AllocError>
    requires { length name.now ≤ 16 }
    ensures { IfOk result
        (λ found. MatchOption found
        ((text : List ℕ) → line.now ≢ frame_of name.now key.now text)
        (λ text. line.now ≡ frame_of name.now key.now text.now)) }
{
    if line.len() < name.len() + TAIL {
        return Ok(None);
    }
    let text = &line[name.len()..line.len() - TAIL];
    let again = framed(alloc, name, key, text)?;
    if is_same(again.as_slice(), line) {
        Ok(Some(text))
    } else {
        Ok(None)
    }
}
