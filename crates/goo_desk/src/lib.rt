//! The desk: what an issuing body's registry answers over HTTP and over lines of text.
//!
//! [`answer`] is the response to all the bytes of a stream; [`serve_one`] reads a request from a
//! stream until it is decided, and answers it; [`serve`] does so for a listener's connections, one
//! after another. [`run_lines`] answers an input line by line, and [`read_command`] reads the body
//! of one request. Each goes by any desk (`goo_desk_backend::Backend`, `goo_core_shelf::desk::Desk`),
//! which a registry over any shelf is.
#![tactic(auto)]

mod law;

pub use goo_desk_answers::answer;
pub use goo_desk_backend::Backend;
pub use goo_desk_body::{BodyFault, read_command};
pub use goo_desk_lines::{LinesFault, Tally, lines_are_a_run, run_lines};
pub use goo_desk_responses::Status;
pub use goo_desk_routes::Routes;
pub use goo_desk_server::{
    Inlet, Listener, LocalListener, Outlet, ServeFault, Served, ServerFault, SystemSocket, serve,
    serve_one,
};
pub use law::{connections_are_a_run, denied_see_nothing, one_response, own_alone_is_sent};
