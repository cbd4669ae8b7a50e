//! Reading a request until it is decided.
ghost use Rattle.std.specs.Prelude.{IfErr, IfOk};
ghost use Rattle.goo_desk_heads.specs.Heads.{Begins};
ghost use Rattle.goo_desk_server.specs.ConnectionFaults.{IsOfReader};
ghost use Rattle.goo_desk_server.specs.Reading.{StandsFor};

use goo_desk_heads::{Front, bytes_wanted, front_after};
use goo_desk_listener::Inlet;
use goo_files_streams::InputFault;
use std::alloc::Global;

/// The most bytes of one read.
const MOST_READ: usize = 4_096;

/// What was read of a request, once it is decided.
#[derive(Drop)]
pub struct Arrived {
    /// All of it.
    pub bytes: Vec<u8>,
    /// What it begins with.
    pub front: Front,
}

/// Reads until what was read is decided, whatever the reader still has, or to its end. What was
/// read comes to the same as all that the reader has.
///
/// A body that is short is waited for, also where the target is unknown or the caller has no code.
/// A head is parsed as its bytes come, and not again once it is there.
///
/// # Errors
///
/// `Read` where a read fails, `Memory` where there is no room. What was read up to then is lost.
pub fn read_decided<R: Inlet>(alloc: Global, reader: &mut R) -> Result<Arrived, InputFault>
    ensures stands { IfOk result
        (λ arrived. StandsFor (R.remaining reader.old) arrived.bytes.items) }
    ensures front { IfOk result (λ arrived. Begins arrived.bytes.items arrived.front) }
    ensures failed { IfErr result (λ fault. IsOfReader fault (R.failed reader.new)) }
{
    let mut bytes = Vec::new(alloc);
    let mut front = Front::Unfinished;
    let mut chunk = [0u8; MOST_READ];
    while let Some(wanted) = bytes_wanted(&bytes, &front) {
        // Room for all of it at once: a body is copied once.
        bytes.reserve(wanted - bytes.len() + MOST_READ)?;
        let count = reader.hear(&mut chunk)?;
        if count == 0 {
            return Ok(Arrived { bytes, front });
        }
        bytes.extend_from_slice(&chunk[..count])?;
        front = front_after(front, &bytes);
    }
    Ok(Arrived { bytes, front })
}
