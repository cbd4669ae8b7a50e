//! The listener of the program.
use goo_desk_listener::{Listener, LocalListener, Receiver, Sender, SystemSocket};
use std::io::Result;
use std::net::TcpStream;
use std::time::Clock;

/// A listener on this machine, by the system's socket and clock. It has one lifetime, since the
/// borrow checker takes no type of two in a call.
#[derive(Drop)]
pub(crate) struct HostListener<'a, C: Clock> {
    inner: LocalListener<'a, C, SystemSocket<'a>>,
}

impl<'a> HostListener<'a, HostRuntime> {
    /// A listener that listens at no port yet.
    pub(crate) fn new(rt: &'a HostRuntime) -> Self {
        HostListener {
            inner: LocalListener::new(rt, SystemSocket::new(rt)),
        }
    }
}

impl<'a, C: Clock> Listener for HostListener<'a, C> {
    ghost use Rattle.std.specs.Prelude.{None};
    ghost use Rattle.goo_desk_listener.specs.Clients.{address_of, unseen, untold};

    type Input = Receiver<'a, C, TcpStream>;

    type Output = Sender<'a, C, TcpStream>;

    ghost clients = { λ listener. record {
      accepted = listener.inner.socket.accepted;
      sends = untold;
      fresh = None;
      closed = λ _. unseen;
      at = address_of listener.inner.socket.at;
    } };

    fn listen(&mut self, port: u16) -> Result<()> {
        self.inner.listen(port)
    }

    fn accept(&mut self) -> Result<(Receiver<'a, C, TcpStream>, Sender<'a, C, TcpStream>)> {
        self.inner.accept()
    }

    fn close(&mut self, input: Receiver<'a, C, TcpStream>, output: Sender<'a, C, TcpStream>) {
        self.inner.close(input, output)
    }
}
