//! A book: rising pieces with no number in common, seen as the map that they give.

ghost use Rattle.std.specs.Prelude.{◌≡◌, ◌≤◌, List, length, find, is_some, Bool, IfOk, IfErr};
ghost use Rattle.goo_types.specs.declared.lot_fields.LotFields.{LotFields};
ghost use Rattle.goo_types.specs.declared.piece.Piece.{Piece};
ghost use Rattle.goo_types.specs.declared.place.Place.{Place};
ghost use Rattle.goo_ranges.specs.Accounts.{AreAccountRuns};
ghost use Rattle.goo_ranges.specs.BookFault.{IsLeastFault};
ghost use Rattle.goo_spec.specs.Maps.{each, least_absent, least_failing};
ghost use Rattle.goo_types.specs.Piece.{at_of, IsRising};
ghost use Rattle.goo_spec.specs.Runs.{AreRunsOf, Gives};

use crate::faults::BookFault;
use crate::page::Page;
use crate::pages::{at_in, joined_page, least_missing_in, least_not_in, least_present_in};
use goo_types::fault::Fault;
use goo_types::lot::Lot;
use goo_types::number::Number;
use goo_types::piece::Piece;
use goo_types::place::Place;
use goo_types::range::Range;
use std::marker::Model;

mod changes;

/// The pieces of a book: in the list that it was handed, or in pages, from the first edit of a long
/// list on.
#[derive(Drop)]
enum BookRows {
    /// In one list.
    Whole(Page),
    /// In pages of few pieces each.
    Paged(Vec<Page>),
}

/// Pieces that rise and have no number in common, seen as the map that they give: from certificate
/// numbers to lots and places. Look-ups search the pieces by halves; an edit moves the pieces of
/// the pages that it meets, and the list of pages.
#[derive(Drop)]
pub struct Book {
    kept: BookRows,
}

impl Model for Book {
    ghost use Rattle.std.specs.Prelude.{List};
    ghost use Rattle.goo_types.specs.declared.piece.Piece.{Piece};
    ghost use Rattle.goo_ranges.specs.BookRows.{pieces_of, IsInOrder};

    ghost Value = { List Piece };

    ghost view = { λ b. pieces_of b.kept };

    ghost invariant = { λ b. IsInOrder b.kept };
}

impl Book {
    /// The book of these pieces.
    ///
    /// # Errors
    ///
    /// At the least index at fault: `Backwards` where that piece runs backwards or has two codes,
    /// else `Overlap` where it begins at or before the end of the piece before it. The pieces are
    /// dropped.
    pub fn new(pieces: Vec<Piece>) -> Result<Self, BookFault>
        ensures ok { IfOk result (λ book. book ≡ pieces.items) }
        ensures sound { IfOk result IsRising }
        ensures err { IfErr result (IsLeastFault pieces.items) }
    {
        let page = Page::new(pieces)?;
        Ok(Book {
            kept: BookRows::Whole(page),
        })
    }

    /// The book of pieces that are known to make one, as the rows of a shelf do.
    pub fn of_rows(rows: Vec<Piece>) -> Self
        requires { IsRising rows.items }
        ensures { result ≡ rows.items }
    {
        Book {
            kept: BookRows::Whole(Page::of_rows(rows)),
        }
    }

    /// A copy of its pieces, rising.
    ///
    /// # Errors
    ///
    /// `Memory` where an allocation was refused.
    pub fn to_pieces(&self) -> Result<Vec<Piece>, Fault>
        ensures value { IfOk result (λ pieces. pieces.items ≡ self.now) }
        ensures rising { IfOk result (λ pieces. IsRising self.now) }
        ensures memory { IfErr result (λ fault. fault ≡ Fault.Memory) }
    {
        match &self.kept {
            BookRows::Whole(page) => page.to_pieces(),
            BookRows::Paged(pages) => joined_page(*pages.allocator(), pages)?.to_pieces(),
        }
    }

    /// The lot and the place of a number; None where the book lacks it.
    pub fn at(&self, number: Number) -> Option<(Lot, Place)>
        ensures { result ≡ at_of self.now number }
    {
        match &self.kept {
            BookRows::Whole(page) => page.at(number),
            BookRows::Paged(pages) => at_in(pages, number),
        }
    }

    /// The least number of the range that the book lacks; None where it has them all.
    pub fn least_missing(&self, range: Range) -> Option<Number>
        ensures { result ≡ least_absent (at_of self.now) (each range) }
    {
        let (first, last) = (range.first(), range.last());
        match &self.kept {
            BookRows::Whole(page) => page.least_missing_between(first, last),
            BookRows::Paged(pages) => least_missing_in(pages, first, last),
        }
    }

    /// The least number of the range that the book has; None where it has none.
    pub fn least_present(&self, range: Range) -> Option<Number>
        ensures { result ≡ find (λ n. is_some (at_of self.now n)) (each range) }
    {
        let (first, last) = (range.first(), range.last());
        match &self.kept {
            BookRows::Whole(page) => page.least_present_between(first, last),
            BookRows::Paged(pages) => least_present_in(pages, first, last),
        }
    }

    /// The least number of the range whose lot and place fail the test; None where none fails.
    /// Numbers that the book lacks are passed over. The test is called at most once a piece.
    pub fn least_not<F: Fn(Lot, Place) -> bool + Drop>(
        &self,
        range: Range,
        test: F,
    ) -> Option<Number>
        requires { F.IsAlwaysCallable test }
        ensures { (passes : LotFields → Place → Bool)
            → ((lot : LotFields) (place : Place) (answer : Bool) → F.post test lot place answer
            → answer ≡ passes lot place)
            → result ≡ least_failing passes (at_of self.now) (each range) }
    {
        let (first, last) = (range.first(), range.last());
        match &self.kept {
            BookRows::Whole(page) => page.least_not_between(first, last, test),
            BookRows::Paged(pages) => least_not_in(pages, first, last, test),
        }
    }

    /// The maximal ranges of consecutive numbers with one lot and one place, rising: no list of
    /// ranges that gives the same map is shorter.
    ///
    /// # Errors
    ///
    /// `Memory` where an allocation was refused.
    pub fn runs(&self) -> Result<Vec<Piece>, Fault>
        ensures runs { IfOk result (λ runs. AreRunsOf (at_of self.now) runs.items) }
        ensures fewest { IfOk result
            (λ runs. (ranges : List Piece) → Gives ranges (at_of self.now)
            → length runs.items ≤ length ranges) }
        ensures err { IfErr result (λ fault. fault ≡ Fault.Memory) }
    {
        match &self.kept {
            BookRows::Whole(page) => page.runs(),
            BookRows::Paged(pages) => joined_page(*pages.allocator(), pages)?.runs(),
        }
    }

    /// The maximal ranges of consecutive numbers whose places name one account, whatever their
    /// lots, rising: each as a piece that this account holds. All have one lot, which says nothing.
    ///
    /// # Errors
    ///
    /// `Memory` where an allocation was refused.
    pub fn account_runs(&self) -> Result<Vec<Piece>, Fault>
        ensures runs { IfOk result (λ runs. AreAccountRuns self.now runs.items) }
        ensures memory { IfErr result (λ fault. fault ≡ Fault.Memory) }
    {
        match &self.kept {
            BookRows::Whole(page) => page.account_runs(),
            BookRows::Paged(pages) => joined_page(*pages.allocator(), pages)?.account_runs(),
        }
    }
}
