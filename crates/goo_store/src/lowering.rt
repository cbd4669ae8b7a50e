//! What can still be taken off a declaration.

ghost use Rattle.std.specs.Prelude.{◌≡◌, ◌-◌};
ghost use Rattle.goo_spec.specs.Energy.{net, lowered_by as lowered_for};

use goo_core_shelf::correct_record::CorrectRecord;
use goo_types::command::Declare;
use goo_types::wh::Wh;

/// What corrections took off a declaration, in Wh.
fn lowered_by(corrections: &[CorrectRecord], declaration: &Declare) -> u128
    ensures { result ≡ lowered_for corrections.now declaration.now }
{
    let mut sum: u128 = 0;
    for correction in corrections {
        if declaration.device == correction.device
            && declaration.first_day == correction.first_day
        {
            sum += u128::from(correction.less.get());
        }
    }
    sum
}

/// What these corrections leave of a declaration's net energy.
pub fn left_off(corrections: &[CorrectRecord], declaration: &Declare) -> Wh
    ensures { result ≡ net declaration.now - lowered_for corrections.now declaration.now }
{
    let aux = declaration.aux.get();
    let net = declaration.gross.get().saturating_sub(aux);
    let left = u128::from(net).saturating_sub(lowered_by(corrections, declaration));
    Wh::new(u64::try_from(left).unwrap()).unwrap()
}
