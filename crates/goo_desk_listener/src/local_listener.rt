//! Connections on 127.0.0.1.
ghost use Rattle.std.specs.Prelude.{◌≡◌};
ghost use Rattle.goo_desk_listener.specs.Clients.{loopback};

use crate::deadline::Deadline;
use crate::listener::Listener;
use crate::receiver::Receiver;
use crate::sender::Sender;
use crate::socket::Socket;
use std::io::Result;
use std::time::Clock;

/// The number of 127.0.0.1, which this machine alone reaches.
const LOOPBACK: u32 = 0x7f00_0001;

/// A listener on 127.0.0.1 by any socket. Each client has ten seconds to send a request and ten to
/// take the answer, in all and not for each call. What is known of its clients is what the socket
/// tells: it forges, keeps back, repeats and drops nothing.
#[derive(Drop)]
pub struct LocalListener<'a, C: Clock, P: Socket + Drop> {
    clock: &'a C,
    socket: P,
}

impl<'a, C: Clock, P: Socket + Drop> LocalListener<'a, C, P> {
    /// A listener by this socket.
    pub fn new(clock: &'a C, socket: P) -> Self
        ensures { result.socket ≡ socket }
    {
        LocalListener { clock, socket }
    }
}

impl<'a, C: Clock, P: Socket + Drop> Listener for LocalListener<'a, C, P> {
    type Input = Receiver<'a, C, P::Stream>;

    type Output = Sender<'a, C, P::Stream>;

    ghost clients = { λ listener. P.clients listener.socket };

    fn listen(&mut self, port: u16) -> Result<()> {
        self.socket.bind(LOOPBACK, port)
    }

    fn accept(&mut self) -> Result<(Receiver<'a, C, P::Stream>, Sender<'a, C, P::Stream>)> {
        let (input, output) = self.socket.accept()?;
        Ok((
            Receiver {
                deadline: Deadline::new(self.clock),
                stream: input,
            },
            Sender {
                deadline: Deadline::new(self.clock),
                stream: output,
            },
        ))
    }

    fn close(&mut self, input: Receiver<'a, C, P::Stream>, output: Sender<'a, C, P::Stream>) {
        self.socket.close(input.stream, output.stream)
    }
}
