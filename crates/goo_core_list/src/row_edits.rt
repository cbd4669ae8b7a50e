//! Edits of rows by rising first numbers.
ghost use Rattle.std.specs.Prelude.{◌≡◌, ◌+◌, ◌<◌, ◌≤◌, ◌^◌, length, IsSome, IfSome};
ghost use Rattle.goo_ranges_rows.specs.Rows.{without_each, with_each, edited, edited_all};
ghost use Rattle.goo_core_pages.specs.Paging.{InOrder};
ghost use Rattle.goo_core_list.specs.Rows.{inserts};

use goo_core_pages::paged::Pages;
use goo_ranges::Edit;
use goo_types::number::Number;
use goo_types::piece::Piece;

/// Takes out the rows that begin at some numbers.
fn take_out_each(rows: &mut Pages, firsts: &[Number])
    requires { InOrder 0 rows.old.rows }
    ensures rows { rows.new.rows ≡ without_each firsts.now rows.old.rows }
    ensures order { InOrder 0 rows.new.rows }
    ensures room { rows.old.room ≤ rows.new.room }
{
    for first in firsts {
        rows.take_out(*first);
    }
}

/// Puts in some rows, within the room that there is.
fn put_in_each(rows: &mut Pages, more: &[Piece])
    requires order { InOrder 0 rows.old.rows }
    requires room { length more.now ≤ rows.old.room }
    ensures rows { rows.new.rows ≡ with_each more.now rows.old.rows }
    ensures order { InOrder 0 rows.new.rows }
    ensures room { rows.old.room ≤ rows.new.room + length more.now }
{
    for row in more {
        rows.put_in(*row);
    }
}

/// Carries out one edit.
#[tactic(auto, unfolding(goo_ranges_rows::specs::Rows::edited))]
fn edit_one(rows: &mut Pages, edit: &Edit)
    requires order { InOrder 0 rows.old.rows }
    requires room { length edit.now.insert.items ≤ rows.old.room }
    ensures rows { rows.new.rows ≡ edited edit.now rows.old.rows }
    ensures order { InOrder 0 rows.new.rows }
    ensures room { rows.old.room ≤ rows.new.room + length edit.now.insert.items }
{
    take_out_each(rows, &edit.delete);
    put_in_each(rows, &edit.insert);
}

/// Carries out some edits, one after another.
pub fn edit_each(rows: &mut Pages, edits: &[Edit])
    requires order { InOrder 0 rows.old.rows }
    requires room { inserts edits.now ≤ rows.old.room }
    ensures rows { rows.new.rows ≡ edited_all edits.now rows.old.rows }
{
    for edit in edits {
        edit_one(rows, edit);
    }
}

/// How many rows some edits insert; None where no `usize` counts them.
pub fn count_inserts(edits: &[Edit]) -> Option<usize>
    ensures count { IfSome result (λ count. count ≡ inserts edits.now) }
    ensures fits { inserts edits.now < 2 ^ 64 → IsSome result }
{
    let mut count: usize = 0;
    for edit in edits {
        count = count.checked_add(edit.insert.len())?;
    }
    Some(count)
}
