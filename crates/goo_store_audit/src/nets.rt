//! The net energy that each device declared, added up row by row.

ghost use Rattle.std.specs.Prelude.{◌≡◌, ◌+◌, ◌≤◌, ◌<◌, ◌^◌, List, [], ◌∷◌, map, IfOk, IsOk, OnOk};
ghost use Rattle.std.specs.Prelude.{IsOkUnless};
ghost use Rattle.goo_store_audit.specs.NetCounting.{number_after, end_of_nets, AreNets};
ghost use Rattle.goo_store_audit.specs.NetCounting.{AreNetsAdded, IsNet, IsSumBelow};
ghost use Rattle.goo_store_values.specs.Passing.{Accepts, Passes};
ghost use Rattle.goo_store_values.specs.declared.statement_fault.StatementFault.TheVariants.{Memory};
ghost use Rattle.goo_tables_pages.specs.NetRows.{net_in};

use goo_store_rules::sums::add_to;
use goo_store_values::statement_fault::StatementFault;
use goo_store_values::texts;
use goo_tables_pages::net::NetRow;
use goo_types::gsrn::Gsrn;
use sqlite::Error;
use std::collections::BTreeMap;

/// The number of a row, which must be `low` or a later one.
fn number_beyond(row: &NetRow, low: u64) -> Result<u64, StatementFault>
    ensures value { IfOk result
        (λ n. (number_after row.now.id ≡ n + 1) × (low ≤ n) × (n < 2 ^ 63)) }
    ensures accepts { low + 1 ≤ number_after row.now.id → IsOk result }
{
    if row.id < 0 || (row.id as u64) < low {
        return Err(StatementFault::Refused);
    }
    Ok(row.id as u64)
}

/// Adds the net energy of a row, whose number must be `low` or a later one; the number after its
/// own.
fn add_row(row: &NetRow, low: u64, sums: &mut BTreeMap<Gsrn, u128>) -> Result<u64, StatementFault>
    requires { IsSumBelow low sums.old }
    ensures next { IfOk result
        (λ next. (next ≡ number_after row.now.id) × (low + 1 ≤ next) × IsSumBelow next sums.new) }
    ensures added { OnOk result (AreNetsAdded (net_in row.now ∷ []) sums.old sums.new) }
    ensures accepts { IsNet low (net_in row.now) → IsOkUnless result Memory }
{
    let number = number_beyond(row, low)?;
    let device = texts::gsrn(&row.device)?;
    let net = row.gross.saturating_sub(row.aux);
    add_to(sums, device, u128::from(net))?;
    Ok(number + 1)
}

/// Adds the net energy of rows, whose numbers must rise from `low` on; the number after the last of
/// them.
fn add_rows(
    rows: &[NetRow],
    low: u64,
    sums: &mut BTreeMap<Gsrn, u128>,
) -> Result<u64, StatementFault>
    requires { IsSumBelow low sums.old }
    ensures next { IfOk result (λ next. next ≡ end_of_nets low (map net_in rows.now)) }
    ensures added { OnOk result (AreNetsAdded (map net_in rows.now) sums.old sums.new) }
    ensures below { IfOk result (λ next. (low ≤ next) × IsSumBelow next sums.new) }
    ensures accepts { AreNets low (map net_in rows.now) → IsOkUnless result Memory }
{
    let mut next = low;
    for row in rows {
        next = add_row(row, next, sums)?;
    }
    Ok(next)
}

/// Adds the net energy of the rows that were found, whose numbers must rise from `low` on; the
/// number after the last of them.
///
/// # Errors
///
/// `Refused` where the rows could not be read or break the rules of the tables, `Memory` where
/// memory was refused.
pub fn add_found(
    found: Result<Vec<NetRow>, Error>,
    low: u64,
    sums: &mut BTreeMap<Gsrn, u128>,
) -> Result<u64, StatementFault>
    requires { IsSumBelow low sums.old }
    ensures value { Passes found result
        (λ rows next. (next ≡ end_of_nets low (map net_in rows.items))
        × AreNetsAdded (map net_in rows.items) sums.old sums.new) }
    ensures below { IfOk result (λ next. (low ≤ next) × IsSumBelow next sums.new) }
    ensures accepts { Accepts found result (λ rows. AreNets low (map net_in rows.items)) }
{
    add_rows(&found?, low, sums)
}
