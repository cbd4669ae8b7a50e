//! What rows name with a quality: the sets of what is there and has it.

ghost use Rattle.std.specs.Prelude.{◌≡◌, ℕ, map, option_map, string_bytes, IfOk};
ghost use Rattle.std.specs.Ordering.{nat_cmp};
ghost use Rattle.std.specs.BTreeSet.{contains};
ghost use Rattle.goo_tables_rows.specs.Rows.{account_in, lot_in};
ghost use Rattle.goo_store_rules.specs.WellKept.{has_closed, has_over, has_lot_of, is_over_at};
ghost use Rattle.goo_store_rules.specs.WellKept.{pair_cmp};

use goo_tables_rows::account::AccountRow;
use goo_tables_rows::lot::LotRow;
use std::alloc::{AllocError, Global};
use std::collections::BTreeSet;

/// The numbers of the closed accounts.
///
/// # Errors
///
/// Where an allocation is refused.
pub fn closed_accounts(alloc: Global, rows: &[AccountRow]) -> Result<BTreeSet<u32>, AllocError>
    ensures { IfOk result
        (λ set. (n : ℕ) → contains nat_cmp set n ≡ has_closed (map account_in rows.now) n) }
{
    let mut set = BTreeSet::new(alloc);
    for row in rows {
        if row.closed == 1 {
            set.insert(row.number)?;
        }
    }
    Ok(set)
}

/// Whether the day comes before today. Both are written as `dddd-dd-dd`.
fn is_past(day: &Option<String>, today: &str) -> bool
    ensures { result ≡ is_over_at today.now (option_map string_bytes day.now) }
{
    match day {
        Some(day) => day.as_bytes().cmp(today.as_bytes()).is_lt(),
        None => false,
    }
}

/// The numbers of the lots that are over.
///
/// # Errors
///
/// Where an allocation is refused.
pub fn lots_over(alloc: Global, today: &str, rows: &[LotRow]) -> Result<BTreeSet<u64>, AllocError>
    ensures { IfOk result
        (λ set. (n : ℕ) → contains nat_cmp set n ≡ has_over today.now (map lot_in rows.now) n) }
{
    let mut set = BTreeSet::new(alloc);
    for row in rows {
        if is_past(&row.expires_on, today) {
            set.insert(row.id)?;
        }
    }
    Ok(set)
}

/// The numbers of the lots, each with its origin.
///
/// # Errors
///
/// Where an allocation is refused.
pub fn lot_origins(alloc: Global, rows: &[LotRow]) -> Result<BTreeSet<(u64, u64)>, AllocError>
    ensures { IfOk result
        (λ set. (n origin : ℕ)
        → contains pair_cmp set (n, origin) ≡ has_lot_of origin (map lot_in rows.now) n) }
{
    let mut set = BTreeSet::new(alloc);
    for row in rows {
        set.insert((row.id, u64::from(row.origin)))?;
    }
    Ok(set)
}
