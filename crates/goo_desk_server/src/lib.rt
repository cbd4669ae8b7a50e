//! The HTTP desk on a listener: one connection after another, each with a deadline to send its
//! request and one to take its answer. What a connection sends is read until it is decided, and
//! answered.
#![tactic(auto)]

mod apology;
mod connection;
mod reading;
mod serve_fault;
mod server;
mod server_fault;

pub use connection::{Served, serve_by_routes, serve_one};
pub use goo_desk_listener::{Inlet, Listener, LocalListener, Outlet, SystemSocket};
pub use reading::read_decided;
pub use serve_fault::ServeFault;
pub use server::serve;
pub use server_fault::ServerFault;
