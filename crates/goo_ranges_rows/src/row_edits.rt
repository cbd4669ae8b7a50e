//! Rows by rising first numbers: taking some out, and putting others in.
ghost use Rattle.std.specs.Prelude.{◌≡◌, ◌+◌, ◌<◌, ◌≤◌, IsOk, OnOk};
ghost use Rattle.std.specs.List.Sorted.{IsNonDecreasingBy};
ghost use Rattle.std.specs.Vec.{vec_len, vec_capacity};
ghost use Rattle.goo_ranges_rows.specs.Rows.{without, without_each, with};

use goo_types::number::Number;
use goo_types::piece::Piece;
use std::alloc::AllocError;

/// Takes out the row that begins at a number, if there is one.
pub fn take_out(rows: &mut Vec<Piece>, first: Number)
    requires sorted { IsNonDecreasingBy (λ p. p.first) rows.old.items }
    ensures rows { rows.new.items ≡ without first rows.old.items }
    ensures sorted { IsNonDecreasingBy (λ p. p.first) rows.new.items }
    ensures len { vec_len rows.new ≤ vec_len rows.old }
    ensures capacity { vec_capacity rows.old ≤ vec_capacity rows.new }
{
    let index = rows.partition_point(|row| row.first.get() < first.get());
    if index < rows.len() && rows[index].first == first {
        rows.remove(index);
    }
}

/// Takes out the rows that begin at some numbers.
pub fn take_out_each(rows: &mut Vec<Piece>, firsts: &[Number])
    requires sorted { IsNonDecreasingBy (λ p. p.first) rows.old.items }
    ensures rows { rows.new.items ≡ without_each firsts.now rows.old.items }
    ensures sorted { IsNonDecreasingBy (λ p. p.first) rows.new.items }
{
    for first in firsts {
        take_out(rows, *first);
    }
}

/// Puts a row before the first one that begins after it.
///
/// # Errors
///
/// `AllocError` where the list is full and memory for more was refused.
pub fn put_in(rows: &mut Vec<Piece>, row: Piece) -> Result<(), AllocError>
    requires sorted { IsNonDecreasingBy (λ p. p.first) rows.old.items }
    ensures rows { OnOk result (rows.new.items ≡ with row rows.old.items) }
    ensures sorted { OnOk result (IsNonDecreasingBy (λ p. p.first) rows.new.items) }
    ensures len { OnOk result (vec_len rows.new ≡ vec_len rows.old + 1) }
    ensures capacity { vec_capacity rows.old ≤ vec_capacity rows.new }
    ensures room { vec_len rows.old < vec_capacity rows.old → IsOk result }
{
    let index = rows.partition_point(|other| other.first.get() <= row.first.get());
    rows.insert(index, row)?;
    Ok(())
}
