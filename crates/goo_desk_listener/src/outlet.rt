//! What a client takes.
ghost use Rattle.std.specs.Prelude.{Bool, IsTrue, OnErr, OnOk};
ghost use Rattle.std.specs.Io.KnownBytes.{Appends};
ghost use Rattle.goo_files_streams.specs.Streams.{AppendsPrefix};

use goo_files_streams::{WriteFault, write_whole};
use std::io::Write;

/// What a client takes: a writer that tells whether a call of it failed.
pub trait Outlet: Write + Drop {
    /// Whether a call has failed, as far as that is known: where it is not, `true`.
    ghost failed: { Self → Bool };

    /// Sends the whole text, as `goo_files_streams::write_whole` writes it.
    ///
    /// # Errors
    ///
    /// Where a call failed. A beginning of the text was sent then.
    fn send(&mut self, text: &[u8]) -> Result<(), WriteFault>
        ensures written { OnOk result
            (Appends (Self.contents self.old) (Self.contents self.new) text.now) }
        ensures prefix { OnErr result
            (AppendsPrefix (Self.contents self.old) (Self.contents self.new) text.now) }
        ensures failed { OnErr result (IsTrue (failed self.new)) };
}

impl Outlet for Vec<u8> {
    ghost use Rattle.std.specs.Prelude.{true};

    ghost failed = { λ _. true };

    fn send(&mut self, text: &[u8]) -> Result<(), WriteFault> {
        write_whole(self, text)
    }
}
