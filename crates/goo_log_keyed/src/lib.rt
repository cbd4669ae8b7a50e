//! Hashes of a log's lines: SHA-256, and HMAC-SHA-256 (RFC 2104) by the key of the log, each as 64
//! lower-case hex digits.
#![tactic(auto)]

mod digest;
mod key;

pub use digest::{HexDigest, hash_of, hash_of_both};
pub use key::Key;
