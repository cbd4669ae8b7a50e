//! Which version of a registry the row of `meta` tells.

ghost use Rattle.std.specs.Prelude.{◌≡◌, IfOk, IfErr};
ghost use Rattle.goo_store_open.specs.Layout.{number_of};
ghost use Rattle.goo_tables_rows.specs.declared.meta.MetaRow.{MetaRow as Row};
ghost use Rattle.goo_store_adoption.specs.Judged.{IsOnlyRow};

use goo_store_open::fault::OpenFault;
use goo_store_open::layout::Layout;
use goo_tables_rows::meta::MetaRow;
use goo_tables_rows::numbered_meta::NumberedMeta;

/// The only row of `meta`, under the number 1.
///
/// # Errors
///
/// `NotARegistry` where there is none, or another.
pub fn only_row(rows: Vec<NumberedMeta>) -> Result<MetaRow, OpenFault>
    ensures only { IfOk result (IsOnlyRow rows.items) }
    ensures none { IfErr result
        (λ f. (f ≡ OpenFault.NotARegistry) × ((m : Row) → ¬ IsOnlyRow rows.items m)) }
{
    let mut rows = rows;
    match rows.pop() {
        Some(row) if rows.is_empty() && row.id == 1 => Ok(row.meta),
        _ => Err(OpenFault::NotARegistry),
    }
}

/// The tables of the version that the row tells.
///
/// # Errors
///
/// `Version` where it is neither of the two that are read here.
pub fn layout_of(version: u32) -> Result<Layout, OpenFault>
    ensures read { IfOk result (λ layout. version ≡ number_of layout) }
    ensures other { IfErr result
        (λ f. (f ≡ OpenFault.Version version) × (¬ (version ≡ 1)) × (¬ (version ≡ 2))) }
{
    match version {
        1 => Ok(Layout::First),
        2 => Ok(Layout::Ours),
        _ => Err(OpenFault::Version(version)),
    }
}
