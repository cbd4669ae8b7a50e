//! Changes of pieces that are kept in pages.

ghost use Rattle.std.specs.Prelude.{◌≡◌, ℕ, count_by, ◌+◌, ◌++◌, ◌≤◌, length, take, drop, OnOk};
ghost use Rattle.std.specs.Prelude.{OnErr, IfOk, IfErr};
ghost use Rattle.goo_ranges_pieces.specs.Change.{moved, meets, set_to};
ghost use Rattle.goo_types.specs.Number.{code_of};
ghost use Rattle.goo_types.specs.Piece.{at_of, IsRising};
ghost use Rattle.goo_ranges.specs.Edit.{IsExact};
ghost use Rattle.goo_ranges.specs.Sparing.{IsSparing};
ghost use Rattle.goo_ranges.specs.Paging.{joined, between, AreFilled, IsWindow};
ghost use Rattle.goo_spec.specs.Runs.{IsApart};

use super::{count_before, count_begun, joined_page};
use crate::edits::Edit;
use crate::page::Page;
use goo_types::fault::Fault;
use goo_types::lot::Lot;
use goo_types::number::Number;
use goo_types::piece::Piece;
use goo_types::place::Place;
use std::alloc::{AllocError, Global};

/// The most pieces that are put into a page.
const PAGE: usize = 32;

/// How many pieces are put into each page of a long list, which leaves room for edits.
const LOOSE: usize = 24;

/// How many of `count` pieces the first page takes.
fn share(count: usize) -> usize
    requires { 1 ≤ count }
    ensures some { 1 ≤ result }
    ensures most { result ≤ count }
{
    if count <= PAGE {
        return count;
    }
    if count <= 2 * PAGE {
        return count / 2;
    }
    LOOSE
}

/// The pieces in pages.
///
/// # Errors
///
/// `AllocError` where memory was refused.
pub fn pages_of(alloc: Global, pieces: &[Piece]) -> Result<Vec<Page>, AllocError>
    requires { IsRising pieces.now }
    ensures pieces { IfOk result (λ pages. joined pages.items ≡ pieces.now) }
    ensures filled { IfOk result (λ pages. AreFilled pages.items) }
{
    let mut pages = Vec::new(alloc);
    let mut start = 0;
    while start < pieces.len() {
        let end = start + share(pieces.len() - start);
        let rows = Vec::from_slice(alloc, &pieces[start..end])?;
        pages.push(Page::of_rows(rows))?;
        start = end;
    }
    Ok(pages)
}

/// The indices between which the pages have all pieces that meet the range or are next to it.
fn window(pages: &[Page], first: Number, last: Number) -> (usize, usize)
    requires filled { AreFilled pages.now }
    requires rising { IsRising (joined pages.now) }
    ensures { IsWindow pages.now first last result.0 result.1 }
{
    let from = count_before(pages, first.get());
    let begun = count_begun(pages, last.get() + 1);
    if from < begun {
        return (from, begun);
    }
    if from > 0 {
        return (from - 1, from);
    }
    if pages.is_empty() {
        return (0, 0);
    }
    (0, 1)
}

/// Puts pages in the place of those from the index `from` on and below `to`. After an error they
/// are unchanged.
fn put_pages(
    pages: &mut Vec<Page>,
    from: usize,
    to: usize,
    more: Vec<Page>,
) -> Result<(), AllocError>
    requires order { from ≤ to }
    requires bound { to ≤ length pages.old.items }
    ensures ok { OnOk result
        (pages.new.items ≡ take from pages.old.items ++ (more.items ++ drop to pages.old.items)) }
    ensures err { OnErr result (pages.new.items ≡ pages.old.items) }
{
    pages.splice(from..to, more)?;
    Ok(())
}

/// Puts other pieces in the place of those of the pages from the index `from` on and below `to`.
/// After an error the pages are unchanged.
fn put_pieces(
    pages: &mut Vec<Page>,
    from: usize,
    to: usize,
    pieces: &[Piece],
) -> Result<(), AllocError>
    requires order { from ≤ to }
    requires bound { to ≤ length pages.old.items }
    requires filled { AreFilled pages.old.items }
    requires rising { IsRising pieces.now }
    ensures ok { OnOk result
        (joined pages.new.items
        ≡ joined (take from pages.old.items) ++ (pieces.now ++ joined (drop to pages.old.items))) }
    ensures err { OnErr result (pages.new.items ≡ pages.old.items) }
    ensures filled { AreFilled pages.new.items }
{
    let more = pages_of(*pages.allocator(), pieces)?;
    put_pages(pages, from, to, more)
}

/// The pieces of the pages from the index `from` on and below `to`, in one page.
fn page_between(pages: &Vec<Page>, from: usize, to: usize) -> Result<Page, AllocError>
    requires order { from ≤ to }
    requires bound { to ≤ length pages.now.items }
    requires rising { IsRising (joined pages.now.items) }
    ensures { IfOk result (λ page. page ≡ between pages.now.items from to) }
{
    joined_page(*pages.allocator(), &pages[from..to])
}

/// Sets the place of each number from `first` to `last` that the pages have, and tells which rows
/// this deletes and inserts.
///
/// # Errors
///
/// `Memory` where an allocation was refused; the pages then have the same pieces as before.
pub fn reassign_in(
    pages: &mut Vec<Page>,
    first: Number,
    last: Number,
    place: Place,
) -> Result<Edit, Fault>
    requires rising { IsRising (joined pages.old.items) }
    requires filled { AreFilled pages.old.items }
    requires forward { first ≤ last }
    requires one_code { code_of first ≡ code_of last }
    ensures map { OnOk result
        ((n : ℕ)
        → at_of (joined pages.new.items) n
        ≡ moved first last place n (at_of (joined pages.old.items) n)) }
    ensures exact { IfOk result (IsExact (joined pages.old.items) (joined pages.new.items)) }
    ensures maximal { OnOk result
        (IsApart (joined pages.old.items) → IsApart (joined pages.new.items)) }
    ensures few { IfOk result
        (λ edit. let most = count_by (meets first last) (joined pages.old.items) + 2 in
        (length edit.delete.items ≤ most) × (length edit.insert.items ≤ most)) }
    ensures spares { IfOk result (IsSparing first last (joined pages.old.items)) }
    ensures err { OnErr result (joined pages.new.items ≡ joined pages.old.items) }
    ensures memory { IfErr result (λ fault. fault ≡ Fault.Memory) }
    ensures rising { IsRising (joined pages.new.items) }
    ensures filled { AreFilled pages.new.items }
{
    let (from, to) = window(pages, first, last);
    let mut page = page_between(pages, from, to)?;
    let edit = page.reassign_between(first, last, place)?;
    put_pieces(pages, from, to, page.pieces())?;
    Ok(edit)
}

/// Sets the lot and the place of each number from `first` to `last`, and tells which rows this
/// deletes and inserts.
///
/// # Errors
///
/// `Memory` where an allocation was refused; the pages then have the same pieces as before.
pub fn add_in(
    pages: &mut Vec<Page>,
    first: Number,
    last: Number,
    lot: Lot,
    place: Place,
) -> Result<Edit, Fault>
    requires rising { IsRising (joined pages.old.items) }
    requires filled { AreFilled pages.old.items }
    requires forward { first ≤ last }
    requires one_code { code_of first ≡ code_of last }
    ensures map { OnOk result
        ((n : ℕ)
        → at_of (joined pages.new.items) n
        ≡ set_to first last (lot, place) n (at_of (joined pages.old.items) n)) }
    ensures exact { IfOk result (IsExact (joined pages.old.items) (joined pages.new.items)) }
    ensures maximal { OnOk result
        (IsApart (joined pages.old.items) → IsApart (joined pages.new.items)) }
    ensures few { IfOk result
        (λ edit. let most = count_by (meets first last) (joined pages.old.items) + 2 in
        (length edit.delete.items ≤ most) × (length edit.insert.items ≤ most)) }
    ensures spares { IfOk result (IsSparing first last (joined pages.old.items)) }
    ensures err { OnErr result (joined pages.new.items ≡ joined pages.old.items) }
    ensures memory { IfErr result (λ fault. fault ≡ Fault.Memory) }
    ensures rising { IsRising (joined pages.new.items) }
    ensures filled { AreFilled pages.new.items }
{
    let (from, to) = window(pages, first, last);
    let mut page = page_between(pages, from, to)?;
    let edit = page.add_between(first, last, lot, place)?;
    put_pieces(pages, from, to, page.pieces())?;
    Ok(edit)
}
