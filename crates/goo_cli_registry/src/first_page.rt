//! The page that a new registry's database begins with, in a file and in memory.
ghost use Rattle.std.specs.Prelude.{◌≡◌, length, IfOk};

use std::alloc::{AllocError, Global};

/// How many bytes a page of a new registry has. A request changes few rows, so a small page is less
/// to read, to check and to write.
const PAGE: usize = 1_024;

/// What the page of a database without tables begins with (SQLite, database file format): the
/// hundred bytes of the head, and a leaf without cells. All else on the page is 0.
const HEAD: [u8; 108] = [
    b'S', b'Q', b'L', b'i', b't', b'e', b' ', b'f', b'o', b'r', b'm', b'a', b't', b' ', b'3', 0,
    // the bytes of a page; how it is written and read; none kept free; the shares of a page that a
    // cell may take
    4, 0, 1, 1, 0, 64, 32, 32,
    // how often the file was changed; its pages; the first free one, and how many; the schema's
    // version; its form
    0, 0, 0, 1, 0, 0, 0, 1, 0, 0, 0, 0, 0, 0, 0, 0, 0, 0, 0, 1, 0, 0, 0, 4,
    // no pages kept in memory, no pages moved, texts of UTF-8, no number of a user's, and
    // twenty-four bytes for later
    0, 0, 0, 0, 0, 0, 0, 0, 0, 0, 0, 1, 0, 0, 0, 0, 0, 0, 0, 0, 0, 0, 0, 0, 0, 0, 0, 0, 0, 0, 0, 0,
    0, 0, 0, 0, 0, 0, 0, 0, 0, 0, 0, 0,
    // the change for which the count of pages holds, and the version of SQLite that is known to
    // read this file
    0, 0, 0, 1, 0, 46, 99, 1,
    // a leaf of a table: no free block, no cell, and the place where cells would begin
    13, 0, 0, 0, 0, 4, 0, 0,
];

/// The one page of a database without tables.
///
/// # Errors
///
/// `AllocError` where memory for it was refused.
pub fn make_first_page(alloc: Global) -> Result<Vec<u8>, AllocError>
    ensures len { IfOk result (λ page. length page.items ≡ 1_024) }
{
    let mut page = Vec::from_slice(alloc, &HEAD)?;
    page.resize(PAGE, 0)?;
    Ok(page)
}
