//! The rows of a registry's certificates, as they are found.

ghost use Rattle.std.specs.Prelude.{◌≡◌, ◌+◌, ◌<◌, ◌^◌, ◌&&◌, IfOk, IfSome, IsTrue, Some, find};
ghost use Rattle.std.specs.Prelude.{reverse};
ghost use Rattle.std.specs.Prelude.{nat_le, nat_lt};
ghost use Rattle.std.specs.List.{filter};
ghost use Rattle.goo_spec_runs.specs.NextRun.{ending_from, first_of, from_of};
ghost use Rattle.goo_core_shelf.specs.Rows.{next_row as next_of, EndsFrom};
ghost use Rattle.goo_core_shelf.specs.Shelf.{Looks};
ghost use Rattle.goo_core_shelf.specs.Sought.{is_sought};
ghost use Rattle.goo_spec_tables.specs.Places.{rows_of};
ghost use Rattle.goo_store_judge.specs.Moments.{tables_in};
ghost use Rattle.goo_store_pieces.specs.Ahead.{IsAhead};
ghost use Rattle.goo_store_plans.specs.Found.{IsEdge};
ghost use Rattle.goo_tables_rows.specs.Stands.{defects};
ghost use Rattle.goo_store.specs.Seen.{Blames, database_of, seen_by};

use crate::next_rows::{
    ask_next, ask_pieces, ask_rows, edges_after, ends_clear, is_clear, reaching_row,
};
use crate::sql_shelf::SqlShelf;
use goo_core_shelf::sought::Sought;
use goo_store_pieces::ahead::{
    Ahead, pieces_share_lots, read_pieces, read_rows, rows_share_lots, told_ahead,
};
use goo_store_pieces::pieces::{alone, read_beyond, read_maybe, read_rising};
use goo_store_values::noting::note_fault;
use goo_tables_accounts::joined::{piece_before, pieces_beginning};
use goo_types::account_no::AccountNo;
use goo_types::fault::Fault;
use goo_types::number::Number;
use goo_types::piece::Piece;
use sqlite::Alter;
use std::alloc::Global;

impl<S: Alter> SqlShelf<S> {
    /// The last row that begins below a number.
    pub(crate) fn row_before(&mut self, alloc: Global, low: u64) -> Result<Option<Piece>, Fault>
        requires { low < 2 ^ 63 }
        ensures looks { Looks (seen_by self.old) (seen_by self.new) result
            (λ row. row ≡ find (λ p. nat_lt p.first low) (reverse (seen_by self.old).rows)) }
        ensures store { Blames self.old self.new result }
    {
        if self.refused {
            return Err(Fault::Store);
        }
        let found = piece_before(alloc, &mut self.conn, low);
        self.cache.answered = found.is_ok();
        let row = read_maybe(found, &mut self.known_rows.lots.found);
        note_fault(row, &mut self.refused)
    }

    /// The rows that begin between two numbers, both counted.
    pub(crate) fn rows_beginning(
        &mut self,
        alloc: Global,
        low: u64,
        high: u64,
    ) -> Result<Vec<Piece>, Fault>
        requires { (low < 2 ^ 63) × (high < 2 ^ 63) }
        ensures looks { Looks (seen_by self.old) (seen_by self.new) result
            (λ rows. rows.items ≡ filter
            (λ p. nat_le low p.first && nat_le p.first high) (seen_by self.old).rows) }
        ensures store { Blames self.old self.new result }
    {
        if self.refused {
            return Err(Fault::Store);
        }
        let found = pieces_beginning(alloc, &mut self.conn, low, high);
        self.cache.answered = found.is_ok();
        let rows = read_rising(alloc, found, &mut self.known_rows.lots.found);
        note_fault(rows, &mut self.refused)
    }

    /// The first row that is looked for and begins above a number.
    fn first_beyond(&mut self, sought: &Sought, after: u64) -> Result<Option<Piece>, Fault>
        requires { after < 2 ^ 63 }
        ensures looks { Looks (seen_by self.old) (seen_by self.new) result
            (λ row. row ≡ find
            (λ p. is_sought sought.now p && nat_lt after p.first) (seen_by self.old).rows) }
        ensures store { Blames self.old self.new result }
        ensures ahead { IfOk result (λ row. IfSome row (EndsFrom (after + 1))) }
    {
        if self.refused {
            return Err(Fault::Store);
        }
        let found = ask_next(self.alloc, &mut self.conn, sought, after);
        self.cache.answered = found.is_ok();
        let row = read_beyond(found, after, &mut self.known_rows.lots.found);
        self.known_rows.edges = edges_after(&self.known_rows.edges, after, &row);
        note_fault(row, &mut self.refused)
    }

    /// The first row that is looked for and ends after a number, or the first of all such rows.
    ///
    /// That is the last row that begins at the number or before it, or else the first that begins
    /// after it: two statements that each show one row, whatever lies between. Where the row that
    /// was found last ends at the number, as in a walk, the second alone is asked.
    pub(crate) fn next_row(
        &mut self,
        sought: &Sought,
        after: Option<Number>,
    ) -> Result<Option<Piece>, Fault>
        ensures looks { Looks (seen_by self.old) (seen_by self.new) result
            (λ row. row
            ≡ first_of (ending_from (from_of after)
            (filter (is_sought sought.now) (seen_by self.old).rows))) }
        ensures store { Blames self.old self.new result }
        ensures ahead { IfOk result (λ row. IfSome row (EndsFrom (from_of after))) }
    {
        let Some(after) = after else {
            return self.first_beyond(sought, 0);
        };
        let after = after.get();
        if is_clear(&self.known_rows.edges, after) {
            return self.first_beyond(sought, after);
        }
        let before = self.row_before(self.alloc, after + 1)?;
        match reaching_row(before, sought, after) {
            Some(row) => Ok(Some(row)),
            None => self.first_beyond(sought, after),
        }
    }

    /// A row of an account that was found, once the rows that follow it were read ahead and kept,
    /// without their lots.
    fn follow_by_rows(&mut self, account: AccountNo, row: Piece) -> Result<Option<Piece>, Fault>
        requires { defects (database_of self.now) ≡ 0
            → IsEdge (Some row.last) (rows_of (tables_in (database_of self.now))) }
        ensures looks { Looks (seen_by self.old) (seen_by self.new) result
            (λ found. found ≡ Some row) }
        ensures store { Blames self.old self.new result }
        ensures row { IfOk result (λ found. found ≡ Some row) }
    {
        if self.refused {
            return Err(Fault::Store);
        }
        let found = ask_rows(self.alloc, &mut self.conn, account, &row);
        self.cache.answered = found.is_ok();
        self.sharing_lots = rows_share_lots(&found).then_some(account);
        let shown = read_rows(found, account, row, &mut self.cache.ahead);
        note_fault(shown, &mut self.refused)
    }

    /// The same with their lots.
    fn follow_by_pieces(&mut self, account: AccountNo, row: Piece) -> Result<Option<Piece>, Fault>
        requires { defects (database_of self.now) ≡ 0
            → IsEdge (Some row.last) (rows_of (tables_in (database_of self.now))) }
        ensures looks { Looks (seen_by self.old) (seen_by self.new) result
            (λ found. found ≡ Some row) }
        ensures store { Blames self.old self.new result }
        ensures row { IfOk result (λ found. found ≡ Some row) }
    {
        if self.refused {
            return Err(Fault::Store);
        }
        let found = ask_pieces(self.alloc, &mut self.conn, account, &row);
        self.cache.answered = found.is_ok();
        self.sharing_lots = pieces_share_lots(&found).then_some(account);
        let shown = read_pieces(
            self.alloc,
            found,
            account,
            row,
            &mut self.known_rows.lots.found,
            &mut self.cache.ahead,
        );
        note_fault(shown, &mut self.refused)
    }

    /// A row of an account that was found, once the rows that follow it were read ahead and kept.
    /// Their lots are not read where most rows of the account's page before, a full one, shared
    /// theirs: one that isn't kept then takes a statement of its own.
    fn follow(&mut self, account: AccountNo, row: Piece) -> Result<Option<Piece>, Fault>
        requires { defects (database_of self.now) ≡ 0
            → IsEdge (Some row.last) (rows_of (tables_in (database_of self.now))) }
        ensures looks { Looks (seen_by self.old) (seen_by self.new) result
            (λ found. found ≡ Some row) }
        ensures store { Blames self.old self.new result }
        ensures row { IfOk result (λ found. found ≡ Some row) }
    {
        if self.sharing_lots == Some(account) {
            self.follow_by_rows(account, row)
        } else {
            self.follow_by_pieces(account, row)
        }
    }

    /// The next row of an account after a number at which one of its rows ends.
    fn next_behind(&mut self, account: AccountNo, after: Number) -> Result<Option<Piece>, Fault>
        requires { defects (database_of self.now) ≡ 0
            → IsEdge (Some after) (rows_of (tables_in (database_of self.now))) }
        ensures looks { Looks (seen_by self.old) (seen_by self.new) result
            (λ found. found ≡ next_of account (Some after) (seen_by self.old).rows) }
        ensures store { Blames self.old self.new result }
        ensures ahead { IfOk result (λ found. IfSome found (EndsFrom (after + 1))) }
    {
        self.first_beyond(&Sought::Naming(account), after.get())
    }

    /// The next row of an account after a number, once it was read ahead: as it is kept, where its
    /// lot is kept too, or else as the tables have it.
    pub(crate) fn next_ahead(
        &mut self,
        account: AccountNo,
        after: Number,
        row: &Option<Ahead>,
    ) -> Result<Option<Piece>, Fault>
        requires answered { IsTrue self.now.cache.answered }
        requires ahead { defects (database_of self.now) ≡ 0
            → IsAhead (tables_in (database_of self.now)) account after row.now }
        ensures looks { Looks (seen_by self.old) (seen_by self.new) result
            (λ found. found ≡ next_of account (Some after) (seen_by self.old).rows) }
        ensures store { Blames self.old self.new result }
        ensures ahead { IfOk result (λ found. IfSome found (EndsFrom (after + 1))) }
    {
        if self.refused {
            return Err(Fault::Store);
        }
        if let Some(found) = told_ahead(row, after.get(), &self.known_rows.lots.found) {
            return Ok(found);
        }
        self.next_behind(account, after)
    }

    /// The first row that names an account and ends after a number, as the tables have it. The rows
    /// that follow it are read ahead, where it is known that none reaches above its end.
    pub(crate) fn next_in_tables(
        &mut self,
        account: AccountNo,
        after: Option<Number>,
    ) -> Result<Option<Piece>, Fault>
        ensures looks { Looks (seen_by self.old) (seen_by self.new) result
            (λ found. found ≡ next_of account after (seen_by self.old).rows) }
        ensures store { Blames self.old self.new result }
        ensures ahead { IfOk result (λ found. IfSome found (EndsFrom (from_of after))) }
    {
        let found = self.next_row(&Sought::Naming(account), after)?;
        match found {
            Some(row) if ends_clear(&self.known_rows.edges, &row) => self.follow(account, row),
            _ => Ok(found),
        }
    }
}
