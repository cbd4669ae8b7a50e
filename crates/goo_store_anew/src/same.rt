//! Whether rows are the same.

ghost use Rattle.std.specs.Prelude.{◌≡◌, IsTrue};
ghost use Rattle.sqlite.specs.Order.{column};
ghost use Rattle.sqlite.specs.Value.{owned};

use sqlite::Row;
use sqlite::types::ValueRef;

/// Whether both are the same value; a float is like no other, since no column of ours has one.
fn is_same(one: ValueRef<'_>, other: ValueRef<'_>) -> bool
    ensures { IsTrue result → owned one.entry ≡ owned other.entry }
{
    match (one, other) {
        (ValueRef::Null, ValueRef::Null) => true,
        (ValueRef::Int(one), ValueRef::Int(other)) => one == other,
        (ValueRef::Text(one), ValueRef::Text(other)) => one == other,
        (ValueRef::Blob(one), ValueRef::Blob(other)) => one == other,
        _ => false,
    }
}

/// Whether both rows have the same value in a column.
fn is_same_at(one: &Row, other: &Row, at: usize) -> bool
    ensures { IsTrue result → column one.now at ≡ column other.now at }
{
    match (one.get_ref(at), other.get_ref(at)) {
        (Ok(one), Ok(other)) => is_same(one, other),
        _ => false,
    }
}

/// Whether both are the same row.
pub fn is_same_row(one: &Row, other: &Row) -> bool
    ensures { IsTrue result → one.now ≡ other.now }
{
    if one.column_count() != other.column_count() {
        return false;
    }
    for at in 0..one.column_count() {
        if !is_same_at(one, other, at) {
            return false;
        }
    }
    true
}

/// Whether both are the same rows, in one order.
pub fn are_same(ones: &[Row], others: &[Row]) -> bool
    ensures { IsTrue result → ones.now ≡ others.now }
{
    if ones.len() != others.len() {
        return false;
    }
    for at in 0..ones.len() {
        if !is_same_row(&ones[at], &others[at]) {
            return false;
        }
    }
    true
}
