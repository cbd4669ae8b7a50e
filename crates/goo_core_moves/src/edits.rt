//! Edits of the rows that a range meets.

ghost use Rattle.std.specs.Prelude.{◌≡◌, [], ◌∷◌, ◌++◌, OnOk};

use goo_ranges::Edit;
use std::alloc::AllocError;

/// Adds an edit at the end.
///
/// # Errors
///
/// `AllocError` where memory was refused.
pub fn push_edit(edits: &mut Vec<Edit>, edit: Edit) -> Result<(), AllocError>
    ensures { OnOk result (edits.new.items ≡ edits.old.items ++ edit ∷ []) }
{
    edits.push(edit)?;
    Ok(())
}
