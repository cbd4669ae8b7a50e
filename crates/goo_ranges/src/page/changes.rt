//! Changes of a page.

ghost use Rattle.std.specs.Prelude.{◌≡◌, ℕ, count_by, ◌+◌, ◌-◌, ◌<◌, ◌≤◌, ◌++◌, length, take, drop};
ghost use Rattle.std.specs.Prelude.{map, OnOk, OnErr, IfOk, IfErr};
ghost use Rattle.goo_ranges_pieces.specs.Change.{IsChanged, IsSet, moved, cuts, meets, set_to};
ghost use Rattle.goo_types.specs.Number.{IsNumber, code_of};
ghost use Rattle.goo_types.specs.Piece.{label_of, at_of, IsRising};
ghost use Rattle.goo_ranges.specs.Edit.{IsExact};
ghost use Rattle.goo_ranges.specs.Sparing.{IsFirstLeftOut, IsLastLeftOut, IsSparing};
ghost use Rattle.goo_ranges_pieces.specs.Touching.{IsTouched, IsMeeting, IsBegin, IsEnd, IsWidened};
ghost use Rattle.goo_ranges_pieces.specs.Touching.{IsTrimmed};
ghost use Rattle.goo_spec.specs.Runs.{IsApart};

use super::Page;
use crate::cutting::{put_between, set_pieces};
use crate::edits::Edit;
use goo_ranges_pieces::joined::{joined_pieces, moved_pieces};
use goo_ranges_pieces::lookups::touched;
use goo_ranges_pieces::parts::is_same;
use goo_types::fault::Fault;
use goo_types::lot::Lot;
use goo_types::number::Number;
use goo_types::piece::Piece;
use goo_types::place::Place;
use std::alloc::AllocError;

impl Page {
    /// The indices between which the pieces meet the range or are next to it.
    fn touched(&self, first: Number, last: Number) -> (usize, usize)
        requires { first ≤ last }
        ensures { IsTouched self.now first last result.0 result.1 }
    {
        touched(&self.pieces, first, last)
    }

    /// The pieces from the index `from` on and below `to`, with their numbers of the range at the
    /// place.
    fn moved_between(
        &self,
        from: usize,
        to: usize,
        first: Number,
        last: Number,
        place: Place,
    ) -> Result<Vec<Piece>, AllocError>
        requires forward { first ≤ last }
        requires order { from ≤ to }
        requires bound { to ≤ length self.now }
        ensures moved { IfOk result
            (λ out. IsChanged (moved first last place) (cuts first last)
            (take (to - from) (drop from self.now)) out.items) }
        ensures apart { IfOk result (λ out. IsApart out.items) }
        ensures rising { IsRising self.now }
    {
        let touched = &self.pieces[from..to];
        moved_pieces(*self.pieces.allocator(), touched, first, last, &place)
    }

    /// Leaves out the first of the new pieces, where it is already there at the index `from`, and
    /// tells from which index on the others go.
    fn trim_first(&self, from: usize, to: usize, insert: &mut Vec<Piece>) -> usize
        requires order { from ≤ to }
        requires bound { to ≤ length self.now }
        ensures trimmed { IsTrimmed self.now from to insert.old.items result to insert.new.items }
        ensures left { IsFirstLeftOut (take (to - from) (drop from self.now)) insert.old.items
            (take (to - result) (drop result self.now)) insert.new.items }
    {
        if from < to && !insert.is_empty() && is_same(&insert[0], &self.pieces[from]) {
            insert.remove(0);
            return from + 1;
        }
        from
    }

    /// Leaves out the last of the new pieces, where it is already there before the index `to`, and
    /// tells below which index the others go.
    fn trim_last(&self, from: usize, to: usize, insert: &mut Vec<Piece>) -> usize
        requires order { from ≤ to }
        requires bound { to ≤ length self.now }
        ensures trimmed { IsTrimmed self.now from to insert.old.items from result insert.new.items }
        ensures left { IsLastLeftOut (take (to - from) (drop from self.now)) insert.old.items
            (take (result - from) (drop from self.now)) insert.new.items }
    {
        let count = insert.len();
        if from < to && count > 0 && is_same(&insert[count - 1], &self.pieces[to - 1]) {
            insert.truncate(count - 1);
            return to - 1;
        }
        to
    }

    /// Puts other pieces in the place of those from the index `from` on and below `to`.
    fn replace(&mut self, from: usize, to: usize, insert: Vec<Piece>) -> Result<Edit, Fault>
        requires order { from ≤ to }
        requires bound { to ≤ length self.old }
        requires rising { IsRising (take from self.old ++ (insert.items ++ drop to self.old)) }
        ensures ok { OnOk result
            (self.new ≡ take from self.old ++ (insert.items ++ drop to self.old)) }
        ensures inserted { IfOk result (λ edit. edit.insert.items ≡ insert.items) }
        ensures deleted { IfOk result
            (λ edit. edit.delete.items
            ≡ map (λ p. p.first) (take (to - from) (drop from self.old))) }
        ensures err { OnErr result (self.new ≡ self.old) }
        ensures memory { IfErr result (λ fault. fault ≡ Fault.Memory) }
    {
        let alloc = *self.pieces.allocator();
        let delete = self.pieces[from..to]
            .iter()
            .map(|piece| piece.first)
            .collect(alloc)?;
        let more = Vec::from_slice(alloc, &insert)?;
        put_between(&mut self.pieces, from, to, more)?;
        Ok(Edit { delete, insert })
    }

    /// Sets the place of each number from `first` to `last` that the page has, and tells which rows
    /// this deletes and inserts.
    ///
    /// # Errors
    ///
    /// `Memory` where an allocation was refused; the page is then unchanged.
    pub fn reassign_between(
        &mut self,
        first: Number,
        last: Number,
        place: Place,
    ) -> Result<Edit, Fault>
        requires forward { first ≤ last }
        requires one_code { code_of first ≡ code_of last }
        ensures map { OnOk result
            ((n : ℕ) → at_of self.new n ≡ moved first last place n (at_of self.old n)) }
        ensures disjoint { OnOk result (IsRising self.new) }
        ensures exact { IfOk result (IsExact self.old self.new) }
        ensures maximal { OnOk result (IsApart self.old → IsApart self.new) }
        ensures few { IfOk result
            (λ edit. let most = count_by (meets first last) self.old + 2 in
            (length edit.delete.items ≤ most) × (length edit.insert.items ≤ most)) }
        ensures spares { IfOk result (IsSparing first last self.old) }
        ensures err { OnErr result (self.new ≡ self.old) }
        ensures memory { IfErr result (λ fault. fault ≡ Fault.Memory) }
    {
        let (from, to) = self.touched(first, last);
        let mut insert = self.moved_between(from, to, first, last, place)?;
        let begin = self.trim_first(from, to, &mut insert);
        let end = self.trim_last(begin, to, &mut insert);
        self.replace(begin, end, insert)
    }

    /// The pieces from the index `from` on and below `to`, with one more in the place of its
    /// numbers.
    fn set_between(&self, from: usize, to: usize, new: &Piece) -> Result<Vec<Piece>, AllocError>
        requires order { from ≤ to }
        requires bound { to ≤ length self.now }
        ensures set { IfOk result
            (λ out. IsSet new.now.first new.now.last (label_of new.now)
            (take (to - from) (drop from self.now)) out.items) }
        ensures rising { IsRising self.now }
    {
        let replaced = &self.pieces[from..to];
        set_pieces(*self.pieces.allocator(), replaced, new)
    }

    /// The indices between which the pieces have a number of the range.
    fn met(&self, first: Number, last: Number) -> (usize, usize)
        requires { first ≤ last }
        ensures { IsMeeting self.now first last result.0 result.1 }
    {
        let first = first.get();
        let last = last.get();
        let from = self
            .pieces
            .partition_point(|piece| piece.last.get() < first);
        let to = self
            .pieces
            .partition_point(|piece| piece.first.get() <= last);
        (from, to)
    }

    /// Where a new piece begins, at the index `from`, once it is joined with the one before.
    fn begin(&self, from: usize, new: &Piece) -> (usize, Number)
        requires { from ≤ length self.now }
        ensures reached { IsBegin self.now from new.now result.0 result.1 }
        ensures valid { IsNumber result.1 }
    {
        if from > 0 && self.pieces[from - 1].is_followed_by(new) {
            let first = self.pieces[from - 1].first;
            let _valid = first.get();
            return (from - 1, first);
        }
        let _valid = new.first.get();
        (from, new.first)
    }

    /// Where a new piece ends, at the index `to`, once it is joined with the one there.
    fn end(&self, to: usize, new: &Piece) -> (usize, Number)
        requires { to ≤ length self.now }
        ensures { IsEnd self.now to new.now result.0 result.1 }
    {
        if to < self.pieces.len() && new.is_followed_by(&self.pieces[to]) {
            return (to + 1, self.pieces[to].last);
        }
        (to, new.last)
    }

    /// A new piece, joined with the equal ones next to it, and the indices between which it takes
    /// the place of the pieces.
    fn widened(&self, new: &Piece) -> (usize, usize, Piece)
        requires { new.now.first ≤ new.now.last }
        ensures { IsWidened self.now new.now result.0 result.1 result.2 }
    {
        let (from, to) = self.met(new.first, new.last);
        let (begin, first) = self.begin(from, new);
        let (end, last) = self.end(to, new);
        let wide = Piece {
            first,
            last,
            ..*new
        };
        (begin, end, wide)
    }

    /// Sets the lot and the place of each number from `first` to `last`, and tells which rows this
    /// deletes and inserts.
    ///
    /// # Errors
    ///
    /// `Memory` where an allocation was refused; the page is then unchanged.
    pub fn add_between(
        &mut self,
        first: Number,
        last: Number,
        lot: Lot,
        place: Place,
    ) -> Result<Edit, Fault>
        requires forward { first ≤ last }
        requires one_code { code_of first ≡ code_of last }
        ensures map { OnOk result
            ((n : ℕ) → at_of self.new n ≡ set_to first last (lot, place) n (at_of self.old n)) }
        ensures disjoint { OnOk result (IsRising self.new) }
        ensures exact { IfOk result (IsExact self.old self.new) }
        ensures maximal { OnOk result (IsApart self.old → IsApart self.new) }
        ensures few { IfOk result
            (λ edit. let most = count_by (meets first last) self.old + 2 in
            (length edit.delete.items ≤ most) × (length edit.insert.items ≤ most)) }
        ensures spares { IfOk result (IsSparing first last self.old) }
        ensures err { OnErr result (self.new ≡ self.old) }
        ensures memory { IfErr result (λ fault. fault ≡ Fault.Memory) }
    {
        let new = Piece {
            first,
            last,
            lot,
            place,
        };
        let (begin, end, wide) = self.widened(&new);
        let cut = self.set_between(begin, end, &wide)?;
        let insert = joined_pieces(*self.pieces.allocator(), &cut)?;
        self.replace(begin, end, insert)
    }
}
