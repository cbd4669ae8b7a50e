//! The check digit of GS1.
ghost use Rattle.std.specs.Prelude.{◌≡◌, length, IsTrue};
ghost use Rattle.std.specs.List.{list_all};
ghost use Rattle.std.specs.Char.{is_ascii_digit};
ghost use Rattle.goo_types_forms.specs.CheckDigit.{check_sum};

/// The sum of seventeen digits, from the right with weights 3, 1, 3 and so on, and the check digit
/// (GS1 General Specifications). From the left these are the weights 3, 1, 3, 1 and so on of all
/// eighteen.
pub fn sum(text: &[u8]) -> u32
    requires whole { length text.now ≡ 18 }
    requires digits { IsTrue (list_all is_ascii_digit text.now) }
    ensures { result ≡ check_sum text.now }
{
    let mut sum: u32 = 0;
    let mut weight: u32 = 3;
    for digit in text {
        sum += weight * (*digit - b'0') as u32;
        weight = 4 - weight;
    }
    sum
}
