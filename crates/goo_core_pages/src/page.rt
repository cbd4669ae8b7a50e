//! A page of rows.
ghost use Rattle.std.specs.Prelude.{◌≡◌, ◌↔◌, ◌==◌, ◌<◌, ◌≤◌, nat_lt, length, take, drop, [], IfOk};
ghost use Rattle.std.specs.Prelude.{IsTrue, ◌∷◌};
ghost use Rattle.goo_ranges_rows.specs.Rows.{without, with};
ghost use Rattle.goo_core_pages.specs.Paging.{InOrder, last_begin, BeginAfter};

use goo_ranges_rows::row_edits::{put_in, take_out};
use goo_types::number::Number;
use goo_types::piece::Piece;
use std::alloc::{AllocError, Global};
use std::marker::Model;

/// Rows by rising first numbers, at most 64: there is room for as many, so that no edit of a page
/// asks for memory.
#[derive(Drop)]
pub struct RowPage {
    rows: Vec<Piece>,
}

impl Model for RowPage {
    ghost use Rattle.std.specs.Prelude.{List, ◌≤◌};
    ghost use Rattle.std.specs.Vec.{vec_len, vec_capacity};
    ghost use Rattle.goo_types.specs.declared.piece.Piece.{Piece};

    ghost Value = { List Piece };

    ghost view = { λ p. p.rows.items };

    ghost invariant = { λ p. (vec_len p.rows ≤ 64) × (64 ≤ vec_capacity p.rows) };
}

impl RowPage {
    /// A page without rows.
    ///
    /// # Errors
    ///
    /// `AllocError` where memory was refused.
    pub fn new(alloc: Global) -> Result<RowPage, AllocError>
        ensures { IfOk result (λ page. page ≡ []) }
    {
        let rows = Vec::with_capacity(alloc, 64)?;
        Ok(RowPage { rows })
    }

    /// Its rows.
    pub fn rows(&self) -> &[Piece]
        ensures { result.now ≡ self.now }
    {
        self.rows.as_slice()
    }

    /// Whether it has no rows.
    pub fn is_empty(&self) -> bool
        ensures { result ≡ (length self.now == 0) }
    {
        self.rows.is_empty()
    }

    /// Whether it has 64 rows.
    pub fn is_full(&self) -> bool
        ensures full { result ≡ (length self.now == 64) }
        ensures limit { length self.now ≤ 64 }
    {
        self.rows.len() == 64
    }

    /// Whether its last row begins before a number. Where there is none, whether the number is
    /// above 0.
    pub fn ends_before(&self, number: u64) -> bool
        ensures { result ≡ nat_lt (last_begin 0 self.now) number }
    {
        match self.rows.last() {
            Some(row) => row.first.get() < number,
            None => 0 < number,
        }
    }

    /// Whether it has a row and the first one begins after a number.
    pub fn begins_after(&self, number: u64) -> bool
        ensures { IsTrue result ↔ BeginAfter number self.now }
    {
        match self.rows.first() {
            Some(row) => number < row.first.get(),
            None => false,
        }
    }

    /// Takes out the row that begins at a number, if there is one.
    pub fn take_out(&mut self, first: Number)
        requires { InOrder 0 self.old }
        ensures { self.new ≡ without first self.old }
    {
        take_out(&mut self.rows, first);
    }

    /// Puts a row before the first one that begins after it.
    pub fn put_in(&mut self, row: Piece)
        requires order { InOrder 0 self.old }
        requires room { length self.old < 64 }
        ensures { self.new ≡ with row self.old }
    {
        let put: Result<(), _> = put_in(&mut self.rows, row);
        put.unwrap();
    }

    /// Leaves the lower half of its rows, where it is full, and puts the upper one into another
    /// page, in the place of that page's rows.
    pub fn halve(&mut self, other: &mut RowPage)
        requires { length self.old ≡ 64 }
        ensures lower { self.new ≡ take 32 self.old }
        ensures upper { other.new ≡ drop 32 self.old }
    {
        other.rows.clear();
        let put: Result<(), _> = other.rows.extend_from_slice(&self.rows[32..]);
        put.unwrap();
        self.rows.truncate(32);
    }

    /// Leaves one row, in the place of all.
    pub fn begin(&mut self, row: Piece)
        ensures { self.new ≡ row ∷ [] }
    {
        self.rows.clear();
        let put: Result<(), _> = self.rows.extend_from_slice(&[row]);
        put.unwrap();
    }
}
