//! The rows of a page near a range.
ghost use Rattle.std.specs.Prelude.{◌≡◌};
ghost use Rattle.goo_types.specs.Piece.{IsRising};
ghost use Rattle.goo_ranges_rows.specs.Rows.{meeting};

use goo_types::piece::Piece;
use goo_types::range::Range;

/// Those of the rows with a number of the range or next to one.
pub fn near(rows: &[Piece], range: Range) -> &[Piece]
    requires { IsRising rows.now }
    ensures { result.now ≡ meeting range rows.now }
{
    let first = range.first().get();
    let last = range.last().get();
    let start = rows.partition_point(|row| row.last.get() + 1 < first);
    let later = &rows[start..];
    let count = later.partition_point(|row| row.first.get() <= last + 1);
    &later[..count]
}
