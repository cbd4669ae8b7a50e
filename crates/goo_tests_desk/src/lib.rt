//! Requests over HTTP and their responses, byte for byte as they were worked out by hand; streams,
//! records and clients that fail.
//!
//! It has tests alone. `wire` has what goes over the wire, `asking` what a backend is asked, `deeds`
//! asks a registry over lists, `cases` has requests with the first line that each must get,
//! `clients` those without sockets, `failing` streams and records that fail, and `tests` the tests.
#![tactic(auto)]

#[cfg(test)]
mod asking;
#[cfg(test)]
mod cases;
#[cfg(test)]
mod claims;
#[cfg(test)]
mod clients;
#[cfg(test)]
mod failing;
#[cfg(test)]
mod tests;
#[cfg(test)]
mod trials;
#[cfg(test)]
mod wire;
