//! Changes of a book.

ghost use Rattle.std.specs.Prelude.{◌≡◌, ℕ, count_by, ◌+◌, ◌≤◌, length, OnOk, OnErr, IfOk, IfErr};
ghost use Rattle.goo_ranges_pieces.specs.Change.{moved, meets, set_to};
ghost use Rattle.goo_types.specs.Number.{code_of};
ghost use Rattle.goo_types.specs.Piece.{at_of, IsRising};
ghost use Rattle.goo_ranges.specs.Edit.{IsExact};
ghost use Rattle.goo_ranges.specs.Sparing.{IsSparing};
ghost use Rattle.goo_spec.specs.Runs.{IsApart};

use super::{Book, BookRows};
use crate::edits::Edit;
use crate::pages::{add_in, pages_of, reassign_in};
use goo_types::fault::Fault;
use goo_types::lot::Lot;
use goo_types::number::Number;
use goo_types::place::Place;
use goo_types::range::Range;
use std::alloc::AllocError;

/// The most pieces of a list that stays one list: to move some of them costs no more than a page
/// does.
const FEW: usize = 128;

impl Book {
    /// Puts a long list into pages. An error where an allocation was refused.
    fn make_pages(&mut self) -> Result<(), AllocError>
        ensures { self.new ≡ self.old }
    {
        let BookRows::Whole(page) = &self.kept else {
            return Ok(());
        };
        let pieces = page.pieces();
        if pieces.len() <= FEW {
            return Ok(());
        }
        let pages = pages_of(page.allocator(), pieces)?;
        self.kept = BookRows::Paged(pages);
        Ok(())
    }

    /// Sets the place of each number of the range that the book has, and tells which rows this
    /// deletes and inserts: those that the range meets, joined with equal ones next to them.
    ///
    /// # Errors
    ///
    /// `Memory` where an allocation was refused; the book is then unchanged.
    ///
    /// # Example
    ///
    /// ```rust,ignore
    /// // One piece: the numbers of the serials 1 to 20 of registry 7, held by `sun`.
    /// let mut rows = Vec::new(alloc);
    /// rows.push(Piece { first, last, lot, place: Place::Held(sun) })?;
    /// let mut book = Book::new(rows)?;
    /// // The range of the serials 5 to 15 goes to `volt`.
    /// let edit = book.reassign(range, Place::Held(volt))?;
    /// // `edit.delete` has the number of serial 1, with which the one row began; `edit.insert` has
    /// // three rows: 1 to 4 of `sun`, 5 to 15 of `volt`, 16 to 20 of `sun`. `book.runs()` gives
    /// // these three, too.
    /// ```
    pub fn reassign(&mut self, range: Range, place: Place) -> Result<Edit, Fault>
        ensures map { OnOk result
            ((n : ℕ) → at_of self.new n ≡ moved range.first range.last place n (at_of self.old n)) }
        ensures disjoint { OnOk result (IsRising self.new) }
        ensures exact { IfOk result (IsExact self.old self.new) }
        ensures maximal { OnOk result (IsApart self.old → IsApart self.new) }
        ensures few { IfOk result
            (λ edit. let most = count_by (meets range.first range.last) self.old + 2 in
            (length edit.delete.items ≤ most) × (length edit.insert.items ≤ most)) }
        ensures spares { IfOk result (IsSparing range.first range.last self.old) }
        ensures err { OnErr result (self.new ≡ self.old) }
        ensures memory { IfErr result (λ fault. fault ≡ Fault.Memory) }
    {
        self.make_pages()?;
        self.reassign_between(range.first(), range.last(), place)
    }

    /// Sets the place of each number from `first` to `last` that the book has. After an `Err` the
    /// book is unchanged.
    fn reassign_between(&mut self, first: Number, last: Number, place: Place) -> Result<Edit, Fault>
        requires forward { first ≤ last }
        requires one_code { code_of first ≡ code_of last }
        ensures map { OnOk result
            ((n : ℕ) → at_of self.new n ≡ moved first last place n (at_of self.old n)) }
        ensures disjoint { OnOk result (IsRising self.new) }
        ensures exact { IfOk result (IsExact self.old self.new) }
        ensures maximal { OnOk result (IsApart self.old → IsApart self.new) }
        ensures few { IfOk result
            (λ edit. let most = count_by (meets first last) self.old + 2 in
            (length edit.delete.items ≤ most) × (length edit.insert.items ≤ most)) }
        ensures spares { IfOk result (IsSparing first last self.old) }
        ensures err { OnErr result (self.new ≡ self.old) }
        ensures memory { IfErr result (λ fault. fault ≡ Fault.Memory) }
    {
        match &mut self.kept {
            BookRows::Whole(page) => page.reassign_between(first, last, place),
            BookRows::Paged(pages) => reassign_in(pages, first, last, place),
        }
    }

    /// Sets the lot and the place of each number of the range, and tells which rows this deletes
    /// and inserts: those that the range meets, and the new one, joined with equal ones next to it.
    ///
    /// # Errors
    ///
    /// `Memory` where an allocation was refused; the book is then unchanged.
    pub fn add(&mut self, range: Range, lot: Lot, place: Place) -> Result<Edit, Fault>
        ensures map { OnOk result
            ((n : ℕ)
            → at_of self.new n ≡ set_to range.first range.last (lot, place) n (at_of self.old n)) }
        ensures disjoint { OnOk result (IsRising self.new) }
        ensures exact { IfOk result (IsExact self.old self.new) }
        ensures maximal { OnOk result (IsApart self.old → IsApart self.new) }
        ensures few { IfOk result
            (λ edit. let most = count_by (meets range.first range.last) self.old + 2 in
            (length edit.delete.items ≤ most) × (length edit.insert.items ≤ most)) }
        ensures spares { IfOk result (IsSparing range.first range.last self.old) }
        ensures err { OnErr result (self.new ≡ self.old) }
        ensures memory { IfErr result (λ fault. fault ≡ Fault.Memory) }
    {
        self.make_pages()?;
        self.add_between(range.first(), range.last(), lot, place)
    }

    /// Sets the lot and the place of each number from `first` to `last`. After an `Err` the book is
    /// unchanged.
    fn add_between(
        &mut self,
        first: Number,
        last: Number,
        lot: Lot,
        place: Place,
    ) -> Result<Edit, Fault>
        requires forward { first ≤ last }
        requires one_code { code_of first ≡ code_of last }
        ensures map { OnOk result
            ((n : ℕ) → at_of self.new n ≡ set_to first last (lot, place) n (at_of self.old n)) }
        ensures disjoint { OnOk result (IsRising self.new) }
        ensures exact { IfOk result (IsExact self.old self.new) }
        ensures maximal { OnOk result (IsApart self.old → IsApart self.new) }
        ensures few { IfOk result
            (λ edit. let most = count_by (meets first last) self.old + 2 in
            (length edit.delete.items ≤ most) × (length edit.insert.items ≤ most)) }
        ensures spares { IfOk result (IsSparing first last self.old) }
        ensures err { OnErr result (self.new ≡ self.old) }
        ensures memory { IfErr result (λ fault. fault ≡ Fault.Memory) }
    {
        match &mut self.kept {
            BookRows::Whole(page) => page.add_between(first, last, lot, place),
            BookRows::Paged(pages) => add_in(pages, first, last, lot, place),
        }
    }
}
