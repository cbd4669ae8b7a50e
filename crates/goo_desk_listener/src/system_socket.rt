//! The system's own sockets: each call of theirs is one of `std`.

use crate::socket::Socket;
use std::io::{Error, ErrorKind, Result};
use std::net::{Ipv4Addr, TcpListener, TcpStream};

/// A socket of the system. No contract can say what it gives and takes, so of no connection it
/// tells what its client sends or is sent. Nothing but its numbers is proved of it.
#[derive(Drop)]
pub struct SystemSocket<'a> {
    rt: &'a HostRuntime,
    socket: Option<TcpListener>,
    at: Option<(u32, u16)>,
    accepted: u64,
}

impl<'a> SystemSocket<'a> {
    /// A socket that listens at no port yet.
    pub fn new(rt: &'a HostRuntime) -> Self {
        SystemSocket {
            rt,
            socket: None,
            at: None,
            accepted: 0,
        }
    }

    /// A socket that listens by this one.
    pub fn over(rt: &'a HostRuntime, socket: TcpListener) -> Self {
        SystemSocket {
            rt,
            socket: Some(socket),
            at: None,
            accepted: 0,
        }
    }
}

impl<'a> Socket for SystemSocket<'a> {
    ghost use Rattle.std.specs.Prelude.{None};
    ghost use Rattle.goo_desk_listener.specs.Clients.{address_of, unseen, untold};

    type Stream = TcpStream;

    ghost clients = { λ socket. record {
      accepted = socket.accepted;
      sends = untold;
      fresh = None;
      closed = λ _. unseen;
      at = address_of socket.at;
    } };

    fn bind(&mut self, host: u32, port: u16) -> Result<()> {
        self.socket = Some(TcpListener::bind(self.rt, (Ipv4Addr::from_bits(host), port))?);
        self.at = Some((host, port));
        Ok(())
    }

    fn accept(&mut self) -> Result<(TcpStream, TcpStream)> {
        let Some(socket) = &self.socket else {
            return Err(Error::from(ErrorKind::NotConnected));
        };
        let Some(accepted) = self.accepted.checked_add(1) else {
            return Err(Error::from(ErrorKind::OutOfMemory));
        };
        let (stream, _) = socket.accept()?;
        let input = stream.try_clone()?;
        self.accepted = accepted;
        Ok((input, stream))
    }

    fn close(&mut self, _input: TcpStream, _output: TcpStream) {}
}
