//! What a server's connections come from.
ghost use Rattle.std.specs.Prelude.{◌≡◌, ◌||◌, IfOk, OnErr, OnOk};
ghost use Rattle.goo_desk_listener.specs.Clients.{Accepts, Clients, GivesBack, KeepsClients};
ghost use Rattle.goo_desk_listener.specs.Clients.{listening_at, loopback};

use crate::inlet::Inlet;
use crate::outlet::Outlet;
use std::io::Result;

/// What a server's connections come from, one after another, on this machine alone. Each is given
/// back once it was served, and is closed then.
pub trait Listener {
    /// What a client sends.
    type Input: Inlet;

    /// What a client takes.
    type Output: Outlet;

    /// What is known of its clients.
    ghost clients: { Self → Clients };

    /// Listens at a port of 127.0.0.1 from now on.
    ///
    /// # Errors
    ///
    /// Where the port can't be had.
    fn listen(&mut self, port: u16) -> Result<()>
        ensures at { OnOk result
            (clients self.new ≡ listening_at loopback port (clients self.old)) }
        ensures kept { KeepsClients (clients self.old) (clients self.new) };

    /// Accepts the next connection, and counts it.
    ///
    /// # Errors
    ///
    /// Where none can be accepted. None is counted then.
    fn accept(&mut self) -> Result<(Self::Input, Self::Output)>
        ensures accepted { IfOk result
            (λ one. Accepts (clients self.old) (clients self.new) (Self.Input.remaining one.0)
            (Self.Output.contents one.1)) }
        ensures none { OnErr result (clients self.new ≡ clients self.old) };

    /// Takes a connection back, and closes it.
    fn close(&mut self, input: Self::Input, output: Self::Output)
        ensures { GivesBack (record {
          held = Self.Output.contents output;
          failed = Self.Input.failed input || Self.Output.failed output;
        }) (clients self.old) (clients self.new) };
}
