//! Rows in pages.
ghost use Rattle.std.specs.Prelude.{◌≡◌, ◌+◌, ◌*◌, ◌<◌, ◌≤◌, [], ◌∷◌, length, take, set, get_or};
ghost use Rattle.std.specs.Prelude.{IfOk, OnOk};
ghost use Rattle.std.specs.List.{remove};
ghost use Rattle.std.specs.Vec.{vec_len, vec_capacity};
ghost use Rattle.goo_types.specs.Piece.{IsRising};
ghost use Rattle.goo_ranges_rows.specs.Rows.{without, with, meeting};
ghost use Rattle.goo_core_pages.specs.Paging.{joined, AreFit, Below, InOrder, IsHome};
ghost use Rattle.goo_core_pages.specs.Paging.{beyond_halves, cut_at, last_begin, room_in};

use crate::near::near;
use crate::page::RowPage;
use goo_types::number::Number;
use goo_types::piece::Piece;
use goo_types::range::Range;
use std::alloc::{AllocError, Global};
use std::marker::Model;

/// How many pages end before a number, that is, have no row that begins at it or after it.
fn count_before(pages: &[RowPage], number: u64) -> usize
    requires fit { AreFit pages.now }
    requires order { InOrder 0 (joined pages.now) }
    ensures bound { result ≤ length pages.now }
    ensures below { Below number (joined (take result pages.now)) }
    ensures reaches { result < length pages.now
        → number ≤ last_begin 0 (get_or pages.now result []) }
{
    pages.partition_point(|page| page.ends_before(number))
}

/// The page that a row belongs into which begins at a number.
fn home(pages: &[RowPage], number: Number) -> usize
    requires some { 1 ≤ length pages.now }
    requires fit { AreFit pages.now }
    requires order { InOrder 0 (joined pages.now) }
    ensures { IsHome number pages.now result }
{
    count_before(pages, number.get() + 1).min(pages.len() - 1)
}

/// Takes out of a page the row that begins at a number, if there is one.
fn take_out_at(pages: &mut Vec<RowPage>, at: usize, first: Number)
    requires bound { at < length pages.old.items }
    requires order { InOrder 0 (get_or pages.old.items at []) }
    ensures pages { pages.new.items
        ≡ set pages.old.items at (without first (get_or pages.old.items at [])) }
    ensures capacity { vec_capacity pages.new ≡ vec_capacity pages.old }
{
    let page = &mut pages[at];
    page.take_out(first);
}

/// Puts a row into a page that isn't full.
fn put_in_at(pages: &mut Vec<RowPage>, at: usize, row: Piece)
    requires bound { at < length pages.old.items }
    requires order { InOrder 0 (get_or pages.old.items at []) }
    requires room { length (get_or pages.old.items at []) < 64 }
    ensures pages { pages.new.items
        ≡ set pages.old.items at (with row (get_or pages.old.items at [])) }
    ensures capacity { vec_capacity pages.new ≡ vec_capacity pages.old }
{
    let page = &mut pages[at];
    page.put_in(row);
}

/// Lays a page aside that has no rows.
fn lay_aside(pages: &mut Vec<RowPage>, spare: &mut Vec<RowPage>, at: usize)
    requires bound { at < length pages.old.items }
    requires room { vec_len spare.old < vec_capacity spare.old }
    ensures pages { pages.new.items ≡ remove pages.old.items at }
    ensures capacity { vec_capacity pages.new ≡ vec_capacity pages.old }
    ensures spare { vec_len spare.new ≡ vec_len spare.old + 1 }
    ensures spare_capacity { vec_capacity spare.old ≤ vec_capacity spare.new }
{
    let page = pages.remove(at);
    let put: Result<(), _> = spare.push(page);
    put.unwrap();
}

/// Cuts a full page in halves, the upper one in a spare page.
fn cut(pages: &mut Vec<RowPage>, spare: &mut Vec<RowPage>, at: usize)
    requires bound { at < length pages.old.items }
    requires full { length (get_or pages.old.items at []) ≡ 64 }
    requires some { 1 ≤ vec_len spare.old }
    requires room { vec_len pages.old < vec_capacity pages.old }
    ensures pages { pages.new.items ≡ cut_at at pages.old.items }
    ensures capacity { vec_capacity pages.old ≤ vec_capacity pages.new }
    ensures spare { vec_len spare.new + 1 ≡ vec_len spare.old }
    ensures spare_capacity { vec_capacity spare.new ≡ vec_capacity spare.old }
{
    let mut upper = spare.pop().unwrap();
    let page = &mut pages[at];
    page.halve(&mut upper);
    let put: Result<(), _> = pages.insert(at + 1, upper);
    put.unwrap();
}

/// Makes a spare page the first one, with a row.
fn begin(pages: &mut Vec<RowPage>, spare: &mut Vec<RowPage>, row: Piece)
    requires none { vec_len pages.old ≡ 0 }
    requires some { 1 ≤ vec_len spare.old }
    requires room { vec_len pages.old < vec_capacity pages.old }
    ensures pages { pages.new.items ≡ (row ∷ []) ∷ [] }
    ensures capacity { vec_capacity pages.old ≤ vec_capacity pages.new }
    ensures spare { vec_len spare.new + 1 ≡ vec_len spare.old }
    ensures spare_capacity { vec_capacity spare.new ≡ vec_capacity spare.old }
{
    let mut page = spare.pop().unwrap();
    page.begin(row);
    let put: Result<(), _> = pages.push(page);
    put.unwrap();
}

/// Lays the page at an index aside where it has no rows, the others being fit.
fn lay_aside_empty(pages: &mut Vec<RowPage>, spare: &mut Vec<RowPage>, at: usize)
    requires bound { at < length pages.old.items }
    requires others { AreFit (remove pages.old.items at) }
    requires less { length (get_or pages.old.items at []) < 64 }
    requires room { vec_len pages.old + vec_len spare.old ≤ vec_capacity spare.old }
    ensures fit { AreFit pages.new.items }
    ensures rows { joined pages.new.items ≡ joined pages.old.items }
    ensures room { room_in pages.old.items (vec_len spare.old)
        ≤ room_in pages.new.items (vec_len spare.new) }
    ensures count { vec_len pages.new + vec_len spare.new ≡ vec_len pages.old + vec_len spare.old }
    ensures capacity { vec_capacity pages.new ≡ vec_capacity pages.old }
    ensures spare_capacity { vec_capacity spare.old ≤ vec_capacity spare.new }
{
    if pages[at].is_empty() {
        lay_aside(pages, spare, at);
    }
}

/// Cuts the page at an index in halves where it is full, the others being fit.
fn cut_full(pages: &mut Vec<RowPage>, spare: &mut Vec<RowPage>, at: usize)
    requires bound { at < length pages.old.items }
    requires others { AreFit (remove pages.old.items at) }
    requires some { 1 ≤ length (get_or pages.old.items at []) }
    requires one { 1 ≤ vec_len spare.old }
    requires room { vec_len pages.old + vec_len spare.old ≤ vec_capacity pages.old }
    ensures fit { AreFit pages.new.items }
    ensures rows { joined pages.new.items ≡ joined pages.old.items }
    ensures paid { 32 * vec_len spare.old + beyond_halves pages.new.items
        ≡ 32 * vec_len spare.new + beyond_halves pages.old.items }
    ensures spare { vec_len spare.old ≤ vec_len spare.new + 1 }
    ensures count { vec_len pages.new + vec_len spare.new ≡ vec_len pages.old + vec_len spare.old }
    ensures many { 1 ≤ length pages.new.items }
    ensures capacity { vec_capacity pages.old ≤ vec_capacity pages.new }
    ensures spare_capacity { vec_capacity spare.new ≡ vec_capacity spare.old }
{
    if pages[at].is_full() {
        cut(pages, spare, at);
    }
}

/// Adds pages without rows, for which there is room in the list. Where memory is refused, some may
/// be there.
fn add_pages(spare: &mut Vec<RowPage>, alloc: Global, count: usize) -> Result<(), AllocError>
    requires { vec_len spare.old + count ≤ vec_capacity spare.old }
    ensures some { vec_len spare.old ≤ vec_len spare.new }
    ensures limit { vec_len spare.new ≤ vec_len spare.old + count }
    ensures all { OnOk result (vec_len spare.new ≡ vec_len spare.old + count) }
    ensures capacity { vec_capacity spare.old ≤ vec_capacity spare.new }
{
    for _ in 0..count {
        spare.push(RowPage::new(alloc)?)?;
    }
    Ok(())
}

/// A copy of those of the pages' rows that have a number of the range or next to one.
fn near_in(alloc: Global, pages: &[RowPage], range: Range) -> Result<Vec<Piece>, AllocError>
    requires { IsRising (joined pages.now) }
    ensures { IfOk result (λ met. met.items ≡ meeting range (joined pages.now)) }
{
    let last = range.last().get();
    let mut met = Vec::new(alloc);
    for page in pages {
        if page.begins_after(last + 1) {
            break;
        }
        met.extend_from_slice(near(page.rows(), range))?;
    }
    Ok(met)
}

/// Rows by rising first numbers, in pages. What it is seen as is the list of the rows, and for how
/// many more there is room wherever they go. Taking a row out or putting one in moves the rows of
/// one page at most, and, where a page is cut or gets empty, the list of pages.
#[derive(Drop)]
pub struct Pages {
    pages: Vec<RowPage>,
    spare: Vec<RowPage>,
}

impl Model for Pages {
    ghost use Rattle.std.specs.Prelude.{◌+◌, ◌≤◌};
    ghost use Rattle.std.specs.Vec.{vec_len, vec_capacity};
    ghost use Rattle.goo_core_pages.specs.Paging.{PagedRows, joined, room_in, paged_rows, AreFit};

    ghost Value = { PagedRows };

    ghost view = { λ p. paged_rows (joined p.pages.items) (room_in p.pages.items (vec_len p.spare)) };

    ghost invariant = { λ p. AreFit p.pages.items × (vec_len p.pages + vec_len p.spare ≤ vec_capacity p.pages) × (vec_len p.pages + vec_len p.spare ≤ vec_capacity p.spare) };
}

impl Pages {
    /// No rows.
    pub fn new(alloc: Global) -> Pages
        ensures { result.rows ≡ [] }
    {
        Pages {
            pages: Vec::new(alloc),
            spare: Vec::new(alloc),
        }
    }

    /// The pages, whose rows one after another are all rows.
    pub fn pages(&self) -> &[RowPage]
        ensures { joined result.now ≡ self.now.rows }
    {
        self.pages.as_slice()
    }

    /// Takes out the row that begins at a number, if there is one.
    pub fn take_out(&mut self, first: Number)
        requires { InOrder 0 self.old.rows }
        ensures rows { self.new.rows ≡ without first self.old.rows }
        ensures order { InOrder 0 self.new.rows }
        ensures room { self.old.room ≤ self.new.room }
    {
        let at = count_before(&self.pages, first.get());
        if at == self.pages.len() {
            return;
        }
        take_out_at(&mut self.pages, at, first);
        lay_aside_empty(&mut self.pages, &mut self.spare, at);
    }

    /// Puts a row before the first one that begins after it.
    pub fn put_in(&mut self, row: Piece)
        requires order { InOrder 0 self.old.rows }
        requires room { 1 ≤ self.old.room }
        ensures rows { self.new.rows ≡ with row self.old.rows }
        ensures order { InOrder 0 self.new.rows }
        ensures room { self.old.room ≤ self.new.room + 1 }
    {
        if self.pages.is_empty() {
            begin(&mut self.pages, &mut self.spare, row);
            return;
        }
        let at = home(&self.pages, row.first);
        put_in_at(&mut self.pages, at, row);
        cut_full(&mut self.pages, &mut self.spare, at);
    }

    /// Makes room for `count` rows.
    ///
    /// # Errors
    ///
    /// `AllocError` where memory was refused. The rows stay as they are.
    pub fn make_room(&mut self, count: usize) -> Result<(), AllocError>
        ensures rows { self.new.rows ≡ self.old.rows }
        ensures room { OnOk result (count ≤ self.new.room) }
    {
        let wanted = count.min(self.pages.len().saturating_add(count / 32 + 2));
        let spare = self.spare.len();
        if wanted <= spare {
            return Ok(());
        }
        let Some(total) = self.pages.len().checked_add(wanted) else {
            return Err(AllocError);
        };
        let alloc = *self.pages.allocator();
        self.pages.reserve(wanted)?;
        self.spare.reserve(total)?;
        add_pages(&mut self.spare, alloc, wanted - spare)
    }

    /// A copy of the rows with a number of the range or next to one.
    ///
    /// # Errors
    ///
    /// `AllocError` where memory was refused.
    pub fn meeting(&self, alloc: Global, range: Range) -> Result<Vec<Piece>, AllocError>
        requires { IsRising self.now.rows }
        ensures { IfOk result (λ met. met.items ≡ meeting range self.now.rows) }
    {
        let begin = count_before(&self.pages, range.first().get()).saturating_sub(1);
        near_in(alloc, &self.pages[begin..], range)
    }
}
