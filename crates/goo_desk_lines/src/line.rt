//! The request that a line states.
ghost use Rattle.std.specs.Prelude.{◌≡◌, ◌==◌, ◌<◌, length, position, option_map};
ghost use Rattle.goo_desk_lines.specs.Lines.{caller_and_body};
ghost use Rattle.goo_desk_lines.specs.Lines.{request_in};
ghost use Rattle.goo_desk_lines.specs.Reading.{Reads};

use crate::unread::Unread;
use goo_desk_body::read_command;
use goo_desk_outcome::Unreadable;
use goo_types::holder_code::HolderCode;
use goo_types::request::Request;
use std::alloc::Global;

/// The place of the first space.
fn space_at(line: &[u8]) -> Option<usize>
    ensures { result ≡ position (λ b. b == 32) line.now }
{
    line.iter().position(|byte| *byte == b' ')
}

/// The caller and the body of a line: what stands before its first space, and all after it.
fn cut_line(line: &[u8]) -> Option<(&[u8], &[u8])>
    ensures { option_map (λ parts. (parts.0.now, parts.1.now)) result ≡ caller_and_body line.now }
{
    let place = space_at(line)?;
    Some((&line[..place], &line[place + 1..]))
}

/// The request that a line states: a holder's code, one space and a body.
///
/// # Errors
///
/// `Unreadable`, where there is no space, the caller is no holder's code, or the body states no
/// request; `Memory`, where there is no room to read the body.
#[tactic(auto, unfolding(crate::specs::Lines::request_in))]
pub fn read_line(alloc: Global, line: &[u8]) -> Result<Request, Unread>
    ensures { Reads result (request_in line.now) }
{
    let Some((caller, body)) = cut_line(line) else {
        return Err(Unread::Unreadable(Unreadable::Caller));
    };
    match HolderCode::read(caller) {
        Ok(caller) => Ok(read_command(alloc, &caller, body)?),
        Err(_) => Err(Unread::Unreadable(Unreadable::Caller)),
    }
}
