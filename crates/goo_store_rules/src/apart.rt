//! Pieces that have no number in common.

ghost use Rattle.std.specs.Prelude.{◌≡◌, None};
ghost use Rattle.goo_store_rules.specs.WellKept.{are_apart as have_none_in_common};

use goo_tables_rows::piece::PieceRow;

/// Whether each piece begins above the last number of the piece before it.
pub fn are_apart(rows: &[PieceRow]) -> bool
    ensures { result ≡ have_none_in_common None rows.now }
{
    let mut last = None;
    for row in rows {
        if let Some(last) = last
            && row.first <= last
        {
            return false;
        }
        last = Some(row.last);
    }
    true
}
