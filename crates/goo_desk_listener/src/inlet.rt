//! What a client sends.
ghost use Rattle.std.specs.Prelude.{◌≡◌, ◌<◌, Bool, length, take, IfOk, IsTrue, OnErr};
ghost use Rattle.std.specs.Io.{ReadsAtMost};
ghost use Rattle.std.specs.Io.KnownBytes.{Consumes, IsAtEnd, Keeps};

use goo_files_streams::{InputFault, read_some};
use std::io::Read;

/// What a client sends: a reader that tells whether a call of it failed.
pub trait Inlet: Read + Drop {
    /// Whether a call has failed, as far as that is known: where it is not, `true`.
    ghost failed: { Self → Bool };

    /// One read, as `goo_files_streams::read_some` does it.
    ///
    /// # Errors
    ///
    /// `Read`, where a call failed. No byte is lost then.
    fn hear(&mut self, buffer: &mut [u8]) -> Result<usize, InputFault>
        ensures bound { ReadsAtMost result buffer.new }
        ensures bytes { IfOk result
            (λ count. Consumes (Self.remaining self.old) (Self.remaining self.new)
            (take count buffer.new)) }
        ensures end { IfOk result
            (λ count. count ≡ 0 → 0 < length buffer.old → IsAtEnd (Self.remaining self.new)) }
        ensures kept { OnErr result (Keeps (Self.remaining self.old) (Self.remaining self.new)) }
        ensures failed { OnErr result (IsTrue (failed self.new)) };
}

impl Inlet for &[u8] {
    ghost use Rattle.std.specs.Prelude.{true};

    ghost failed = { λ _. true };

    fn hear(&mut self, buffer: &mut [u8]) -> Result<usize, InputFault> {
        read_some(self, buffer)
    }
}
