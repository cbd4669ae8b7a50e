//! What connections come from in the system.
ghost use Rattle.std.specs.Prelude.{◌≡◌, ◌||◌, IfOk, OnErr, OnOk};
ghost use Rattle.goo_desk_listener.specs.Clients.{Accepts, Clients, GivesBack, KeepsClients};
ghost use Rattle.goo_desk_listener.specs.Clients.{listening_at};

use crate::wire::Wire;
use std::io::Result;

/// What connections come from in the system, at an address. Each has two handles: one to read from,
/// and one to write to.
pub trait Socket {
    /// A handle of a connection.
    type Stream: Wire;

    /// What is known of its clients.
    ghost clients: { Self → Clients };

    /// Listens at this address and port from now on.
    ///
    /// # Errors
    ///
    /// Where they can't be had.
    fn bind(&mut self, host: u32, port: u16) -> Result<()>
        ensures at { OnOk result
            (clients self.new ≡ listening_at host port (clients self.old)) }
        ensures kept { KeepsClients (clients self.old) (clients self.new) };

    /// Accepts the next connection: the handle to read from, and the one to write to.
    ///
    /// # Errors
    ///
    /// Where none can be accepted. None is counted then.
    fn accept(&mut self) -> Result<(Self::Stream, Self::Stream)>
        ensures accepted { IfOk result
            (λ one. Accepts (clients self.old) (clients self.new) (Self.Stream.remaining one.0)
            (Self.Stream.contents one.1)) }
        ensures none { OnErr result (clients self.new ≡ clients self.old) };

    /// Takes a connection back, and closes it.
    fn close(&mut self, input: Self::Stream, output: Self::Stream)
        ensures { GivesBack (record {
          held = Self.Stream.contents output;
          failed = Self.Stream.failed input || Self.Stream.failed output;
        }) (clients self.old) (clients self.new) };
}
