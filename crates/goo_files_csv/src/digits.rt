//! Amounts of energy in decimal digits.
ghost use Rattle.std.specs.Prelude.{◌≡◌};
ghost use Rattle.goo_files_csv.specs.Rows.{wh_in};

use goo_types::digits::{are_digits, value_of};
use goo_types::wh::Wh;

/// The amount of energy that a field of 1 to 16 digits states.
pub(crate) fn wh_in(text: &[u8]) -> Option<Wh>
    ensures { result ≡ wh_in text.now }
{
    if text.is_empty() || text.len() > 16 || !are_digits(text) {
        return None;
    }
    Wh::new(value_of(text))
}
