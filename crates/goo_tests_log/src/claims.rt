//! What a test claims.

use std::process::Abort;

/// What is claimed holds. Each assertion that is written out costs a check three times as much as a
/// call of this.
pub fn holds(rt: &impl Abort, is_so: bool, what: &str) {
    assert!(rt; is_so, "{what}");
}
