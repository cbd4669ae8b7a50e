//! How far the runs of an account's certificates were read.

ghost use Rattle.std.specs.Prelude.{◌≡◌, ◌+◌, Some, None, IfSome};
ghost use Rattle.std.specs.Option.{ForSome};
ghost use Rattle.goo_spec_runs.specs.NextRun.{from_of};
ghost use Rattle.goo_core_shelf.specs.Rows.{EndsFrom};

use goo_types::number::Number;
use goo_types::piece::Piece;

/// How far the runs of an account were read, and the row that showed where the last of them ends:
/// the next run begins with it, so that no row is looked up twice.
#[derive(Drop)]
pub struct RunPlace {
    /// The last number that was read, if any was.
    pub after: Option<Number>,
    /// The first row that ends after it, if one was seen.
    pub ahead: Option<Piece>,
    ghost ends: { ForSome ahead (EndsFrom (from_of after)) },
}

impl RunPlace {
    /// After a number, or before all, with nothing seen of what comes.
    pub fn after(number: Option<Number>) -> RunPlace
        ensures { (result.after ≡ number) × (result.ahead ≡ None) }
    {
        RunPlace {
            after: number,
            ahead: None,
        }
    }

    /// After a number, before the first row that ends after it, if there is one.
    pub fn before(number: Number, row: Option<Piece>) -> RunPlace
        requires { IfSome row (EndsFrom (number + 1)) }
        ensures { (result.after ≡ Some number) × (result.ahead ≡ row) }
    {
        RunPlace {
            after: Some(number),
            ahead: row,
        }
    }
}
