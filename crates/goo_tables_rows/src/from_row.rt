//! Values that are read from the rows of an answer.

ghost use Rattle.std.specs.Prelude.{IfOk, IfErr};
ghost use Rattle.goo_tables_rows.specs.Readable.{IsUnread};

use sqlite::{Error, Row};
use std::alloc::Global;

/// What a row of an answer can be read as.
pub trait FromRow: Sized {
    ghost use Rattle.std.specs.Prelude.{List};
    ghost use Rattle.sqlite_value.specs.declared.value.Value.{Value as SqlValue};

    /// Whether a row with these columns reads as the value.
    ghost reads: { List SqlValue → Self → Type 0 };

    /// Whether a row with these columns reads as any value.
    ghost readable: { List SqlValue → Type 0 };

    /// The value.
    ///
    /// # Errors
    ///
    /// `OutOfMemory` where memory was refused, or else an error of `Row::get`, which comes only
    /// where a column is missing or keeps something else.
    fn from_row(alloc: Global, row: &Row) -> Result<Self, Error>
        ensures reads { IfOk result (reads row.now) }
        ensures refused { IfErr result (IsUnread (readable row.now)) };
}
