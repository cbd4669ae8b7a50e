//! Lines of the log and their hashes, against those that another program wrote, and against the
//! vectors of RFC 4231.
//!
//! It has tests alone.
#![tactic(auto)]

#[cfg(test)]
mod claims;
#[cfg(test)]
mod entries;
#[cfg(test)]
mod hashes;
#[cfg(test)]
mod journals;
