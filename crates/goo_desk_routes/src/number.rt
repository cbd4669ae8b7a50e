//! Numbers in a path.
ghost use Rattle.std.specs.Prelude.{◌≡◌, ◌≤◌, IfSome};
ghost use Rattle.goo_desk_routes.specs.Tasks.{number_in as number_stated};

use goo_types::digits::{are_digits, value_of};
use goo_types::limits::LAST_ACT;

/// The number of one to nine digits.
pub(crate) fn number_in(text: &[u8]) -> Option<u32>
    ensures value { result ≡ number_stated text.now }
    ensures small { IfSome result (λ number. number ≤ 999_999_999) }
{
    if text.is_empty() || text.len() > 9 || !are_digits(text) {
        return None;
    }
    let value = value_of(text);
    if value > u64::from(LAST_ACT) {
        return None;
    }
    Some(value as u32)
}
