//! Clients without sockets.
use crate::failing::Lost;
use goo_desk_server::Listener;
use std::alloc::Global;
use std::io::{Error, ErrorKind, Result};

/// Clients that each send this text. What a client takes is lost.
#[derive(Drop)]
pub struct Clients<'a> {
    /// What its texts are kept in.
    pub alloc: Global,
    /// What each client sends.
    pub text: &'a [u8],
    /// How many were accepted.
    pub accepted: u64,
    /// At which port they find it, if any.
    pub port: Option<u16>,
}

impl<'a> Listener for Clients<'a> {
    ghost use Rattle.std.specs.Prelude.{None};
    ghost use Rattle.goo_tests_desk.specs.Clients.{at_port, each_sends, lost};

    type Input = &'a [u8];

    type Output = Lost;

    ghost clients = { λ clients. record {
      accepted = clients.accepted;
      sends = each_sends clients.text.now;
      fresh = None;
      closed = λ _. lost;
      at = at_port clients.port;
    } };

    fn listen(&mut self, port: u16) -> Result<()> {
        self.port = Some(port);
        Ok(())
    }

    fn accept(&mut self) -> Result<(&'a [u8], Lost)> {
        let Some(accepted) = self.accepted.checked_add(1) else {
            return Err(Error::from(ErrorKind::OutOfMemory));
        };
        self.accepted = accepted;
        Ok((self.text, Lost))
    }

    fn close(&mut self, _input: &'a [u8], _output: Lost) {}
}
