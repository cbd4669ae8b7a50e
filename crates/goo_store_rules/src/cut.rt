//! Pieces of which one goes on where another ends.

ghost use Rattle.std.specs.Prelude.{◌≡◌, ◌+◌, ◌==◌, None};
ghost use Rattle.goo_spec_tables.specs.Renewed.{goes_on};
ghost use Rattle.goo_store_rules.specs.WellKept.{are_joined as have_none_to_join};

use goo_tables_rows::piece::PieceRow;

/// Whether a row begins right after another one's end, with the same lot, kind, account and act, so
/// that the two can be one.
pub fn joins(before: &PieceRow, row: &PieceRow) -> bool
    ensures { result ≡ goes_on before.now row.now }
{
    is_next(before.last, row.first)
        && before.lot == row.lot
        && before.kind == row.kind
        && before.account == row.account
        && before.act == row.act
}

/// Whether a number is the one after another.
#[tactic(auto, using(crate::proofs::Cutting::next_is))]
fn is_next(last: u64, first: u64) -> bool
    ensures { result ≡ (last + 1 == first) }
{
    last < first && first - last == 1
}

/// Whether no row goes on where the row before it ends.
pub fn are_joined(rows: &[PieceRow]) -> bool
    ensures { result ≡ have_none_to_join None rows.now }
{
    let mut last: Option<PieceRow> = None;
    for row in rows {
        if let Some(last) = last
            && joins(&last, row)
        {
            return false;
        }
        last = Some(*row);
    }
    true
}
