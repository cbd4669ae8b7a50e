//! A page: rising pieces with no number in common in one list, seen as the map that they give.

ghost use Rattle.std.specs.declared.alloc.Global.{Global as Memory};
ghost use Rattle.std.specs.Prelude.{◌≡◌, List, ◌≤◌, length, nat_le, nat_lt, find, is_some, suc};
ghost use Rattle.std.specs.Prelude.{Bool, IfOk, IfErr};
ghost use Rattle.goo_types.specs.declared.lot_fields.LotFields.{LotFields};
ghost use Rattle.goo_types.specs.declared.piece.Piece.{Piece};
ghost use Rattle.goo_types.specs.declared.place.Place.{Place};
ghost use Rattle.goo_ranges.specs.BookFault.{IsLeastFault};
ghost use Rattle.goo_types.specs.Number.{code_of};
ghost use Rattle.goo_spec.specs.Maps.{least_absent, least_failing};
ghost use Rattle.goo_ranges.specs.Paging.{begin_of};
ghost use Rattle.goo_ranges_pieces.specs.Walk.{end_of, span, IsRest};
ghost use Rattle.goo_types.specs.Piece.{at_of, IsRising};
ghost use Rattle.goo_spec.specs.Runs.{AreRunsOf, Gives};

use crate::faults::BookFault;
use goo_ranges_pieces::joined::push_joined;
use goo_ranges_pieces::lookups::{least_missing, reaching};
use goo_types::fault::Fault;
use goo_types::lot::Lot;
use goo_types::number::Number;
use goo_types::piece::Piece;
use goo_types::place::Place;
use std::alloc::Global;
use std::marker::Model;

mod accounts;
mod changes;

/// Pieces that rise and have no number in common, in one list. Look-ups search the pieces by
/// halves; an edit moves the pieces behind it.
#[derive(Drop)]
pub struct Page {
    pieces: Vec<Piece>,
}

impl Model for Page {
    ghost use Rattle.std.specs.Prelude.{List};
    ghost use Rattle.goo_types.specs.declared.piece.Piece.{Piece};
    ghost use Rattle.goo_types.specs.Piece.{IsRising};

    ghost Value = { List Piece };

    ghost view = { λ b. b.pieces.items };

    ghost invariant = { λ b. IsRising b.pieces.items };
}

impl Page {
    /// The page of these pieces.
    ///
    /// # Errors
    ///
    /// At the least index at fault: `Backwards` where that piece runs backwards or has two codes,
    /// else `Overlap` where it begins at or before the end of the piece before it. The pieces are
    /// dropped.
    pub fn new(pieces: Vec<Piece>) -> Result<Self, BookFault>
        ensures ok { IfOk result (λ book. book ≡ pieces.items) }
        ensures sound { IfOk result IsRising }
        ensures err { IfErr result (IsLeastFault pieces.items) }
    {
        for (i, piece) in pieces.iter().enumerate() {
            if !piece.is_forward() {
                return Err(BookFault::Backwards(i));
            }
            if i > 0 && piece.first <= pieces[i - 1].last {
                return Err(BookFault::Overlap(i));
            }
        }
        Ok(Page { pieces })
    }

    /// The page of pieces that are known to make one, as the rows of a shelf do.
    pub fn of_rows(rows: Vec<Piece>) -> Self
        requires { IsRising rows.items }
        ensures { result ≡ rows.items }
    {
        Page { pieces: rows }
    }

    /// Its pieces, rising.
    pub fn pieces(&self) -> &[Piece]
        ensures value { result.now ≡ self.now }
        ensures rising { IsRising self.now }
    {
        self.pieces.as_slice()
    }

    /// A copy of its pieces.
    ///
    /// # Errors
    ///
    /// `Memory` where an allocation was refused.
    pub fn to_pieces(&self) -> Result<Vec<Piece>, Fault>
        ensures value { IfOk result (λ pieces. pieces.items ≡ self.now) }
        ensures rising { IsRising self.now }
        ensures memory { IfErr result (λ fault. fault ≡ Fault.Memory) }
    {
        let pieces = Vec::from_slice(*self.pieces.allocator(), &self.pieces)?;
        Ok(pieces)
    }

    /// The allocator of its list.
    pub fn allocator(&self) -> Global
        ensures { (other : Memory) → result ≡ other }
    {
        *self.pieces.allocator()
    }

    /// Whether its last number and the one behind that are below a number. Where it has no piece,
    /// whether the number is above 0.
    pub fn ends_before(&self, number: u64) -> bool
        ensures { result ≡ nat_lt (end_of 0 self.now) number }
    {
        match self.pieces.last() {
            Some(piece) => piece.last.get() + 1 < number,
            None => 0 < number,
        }
    }

    /// Whether it begins at a number or before it, or has no piece.
    pub fn begins_by(&self, number: u64) -> bool
        ensures { result ≡ nat_le (begin_of self.now) number }
    {
        match self.pieces.first() {
            Some(piece) => piece.first.get() <= number,
            None => true,
        }
    }

    /// The pieces from the first one on that ends at the number or after it.
    fn reaching(&self, number: u64) -> &[Piece]
        ensures { IsRest self.now result.now number }
    {
        reaching(&self.pieces, number)
    }

    /// The lot and the place of a number; None where the page lacks it.
    pub fn at(&self, number: Number) -> Option<(Lot, Place)>
        ensures { result ≡ at_of self.now number }
    {
        let piece = self.reaching(number.get()).first()?;
        if number < piece.first {
            return None;
        }
        Some((piece.lot, piece.place))
    }

    /// The least number from `first` to `last` that the page lacks.
    pub fn least_missing_between(&self, first: Number, last: Number) -> Option<Number>
        requires forward { first ≤ last }
        requires one_code { code_of first ≡ code_of last }
        ensures { result ≡ least_absent (at_of self.now) (span first (suc last)) }
    {
        least_missing(&self.pieces, first, last)
    }

    /// The least number from `first` to `last` that the page has.
    pub fn least_present_between(&self, first: Number, last: Number) -> Option<Number>
        requires forward { first ≤ last }
        requires one_code { code_of first ≡ code_of last }
        ensures { result ≡ find (λ n. is_some (at_of self.now n)) (span first (suc last)) }
    {
        let piece = self.reaching(first.get()).first()?;
        if last < piece.first {
            return None;
        }
        Some(first.max(piece.first))
    }

    /// The least number from `first` to `last` whose lot and place fail the test.
    pub fn least_not_between<F: Fn(Lot, Place) -> bool + Drop>(
        &self,
        first: Number,
        last: Number,
        test: F,
    ) -> Option<Number>
        requires forward { first ≤ last }
        requires callable { F.IsAlwaysCallable test }
        ensures { (passes : LotFields → Place → Bool)
            → ((lot : LotFields) (place : Place) (answer : Bool) → F.post test lot place answer
            → answer ≡ passes lot place)
            → result ≡ least_failing passes (at_of self.now) (span first (suc last)) }
    {
        for piece in self.reaching(first.get()) {
            if last < piece.first {
                return None;
            }
            if !test(piece.lot, piece.place) {
                return Some(first.max(piece.first));
            }
        }
        None
    }

    /// The maximal ranges of consecutive numbers with one lot and one place, rising: no list of
    /// ranges that gives the same map is shorter.
    ///
    /// # Errors
    ///
    /// `Memory` where an allocation was refused.
    pub fn runs(&self) -> Result<Vec<Piece>, Fault>
        ensures runs { IfOk result (λ runs. AreRunsOf (at_of self.now) runs.items) }
        ensures fewest { IfOk result
            (λ runs. (ranges : List Piece) → Gives ranges (at_of self.now)
            → length runs.items ≤ length ranges) }
        ensures err { IfErr result (λ fault. fault ≡ Fault.Memory) }
    {
        let mut runs = Vec::new(*self.pieces.allocator());
        for piece in &self.pieces {
            push_joined(&mut runs, *piece)?;
        }
        Ok(runs)
    }
}
