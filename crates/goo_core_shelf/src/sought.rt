//! Which rows the look-ups of the next row are for.

ghost use Rattle.std.specs.Prelude.{◌≡◌};
ghost use Rattle.goo_spec.specs.Advance.{expires};
ghost use Rattle.goo_core_shelf.specs.Sought.{is_sought};

use goo_types::account_no::AccountNo;
use goo_types::day::Day;
use goo_types::piece::Piece;
use goo_types::place::Place;

/// Which rows a look-up is for.
#[derive(Clone, Copy)]
pub enum Sought {
    /// Those whose place names an account.
    Naming(AccountNo),
    /// The held ones whose lot is over on a day (Directive (EU) 2018/2001, Article 19(3)).
    Expiring(Day),
}

/// Whether a row is held, and its lot is over on a day.
#[tactic(auto, unfolding(goo_spec::specs::Days::is_over))]
fn is_expiring(row: &Piece, day: Day) -> bool
    ensures { result ≡ expires day row.now.lot row.now.place }
{
    match row.place {
        Place::Held(_) => match row.lot.expires_on() {
            Some(last) => last.number() < day.number(),
            None => false,
        },
        _ => false,
    }
}

/// Whether a look-up is for a row.
pub fn is_sought(row: &Piece, sought: &Sought) -> bool
    ensures { result ≡ is_sought sought.now row.now }
{
    match sought {
        Sought::Naming(account) => row.place.account() == *account,
        Sought::Expiring(day) => is_expiring(row, *day),
    }
}
