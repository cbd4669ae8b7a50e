//! What a server's connections come from: streams that tell whether a call of them failed, and a
//! listener that takes each connection back. [`LocalListener`] is one over any socket, stream and
//! clock, and [`SystemSocket`] the system's own.
#![tactic(auto)]

mod deadline;
mod inlet;
mod listener;
mod local_listener;
mod outlet;
mod receiver;
mod sender;
mod socket;
mod system_socket;
mod wire;

pub use deadline::TimeUp;
pub use inlet::Inlet;
pub use listener::Listener;
pub use local_listener::LocalListener;
pub use outlet::Outlet;
pub use receiver::Receiver;
pub use sender::Sender;
pub use socket::Socket;
pub use system_socket::SystemSocket;
pub use wire::Wire;
