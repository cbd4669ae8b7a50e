//! What rows name: the sets of what is there.

ghost use Rattle.std.specs.Prelude.{◌≡◌, ℕ, List, map, IfOk};
ghost use Rattle.std.specs.Ordering.{nat_cmp};
ghost use Rattle.std.specs.BTreeSet.{contains};
ghost use Rattle.goo_tables_rows.specs.Rows.{account_in, lot_in, withdrawal_in};
ghost use Rattle.goo_tables_rows.specs.Rows.{notice_out_in};
ghost use Rattle.goo_store_rules.specs.WellKept.{has_account, has_lot, has_cancellation};
ghost use Rattle.goo_store_rules.specs.WellKept.{has_withdrawal, has_sent};

use goo_store_receipts::cancellations::JudgedCancellation;
use goo_tables_rows::account::AccountRow;
use goo_tables_rows::lot::LotRow;
use goo_tables_rows::notice_out::NoticeOutRow;
use goo_tables_rows::withdrawal::WithdrawalRow;
use std::alloc::{AllocError, Global};
use std::collections::BTreeSet;

/// The numbers of the accounts.
///
/// # Errors
///
/// Where an allocation is refused.
pub fn account_numbers(alloc: Global, rows: &[AccountRow]) -> Result<BTreeSet<u32>, AllocError>
    ensures { IfOk result
        (λ set. (n : ℕ) → contains nat_cmp set n ≡ has_account (map account_in rows.now) n) }
{
    let mut set = BTreeSet::new(alloc);
    for account in rows {
        set.insert(account.number)?;
    }
    Ok(set)
}

/// The numbers of the lots.
///
/// # Errors
///
/// Where an allocation is refused.
pub fn lot_numbers(alloc: Global, rows: &[LotRow]) -> Result<BTreeSet<u64>, AllocError>
    ensures { IfOk result
        (λ set. (n : ℕ) → contains nat_cmp set n ≡ has_lot (map lot_in rows.now) n) }
{
    let mut set = BTreeSet::new(alloc);
    for lot in rows {
        set.insert(lot.id)?;
    }
    Ok(set)
}

/// The numbers of the cancellations.
///
/// # Errors
///
/// Where an allocation is refused.
pub fn cancellation_numbers(
    alloc: Global,
    rows: &[JudgedCancellation],
) -> Result<BTreeSet<u32>, AllocError>
    ensures { IfOk result
        (λ set. (n : ℕ) → contains nat_cmp set n ≡ has_cancellation rows.now n) }
{
    let mut set = BTreeSet::new(alloc);
    for cancellation in rows {
        set.insert(cancellation.number)?;
    }
    Ok(set)
}

/// The numbers of the withdrawals.
///
/// # Errors
///
/// Where an allocation is refused.
pub fn withdrawal_numbers(
    alloc: Global,
    rows: &[WithdrawalRow],
) -> Result<BTreeSet<u32>, AllocError>
    ensures { IfOk result
        (λ set. (n : ℕ) → contains nat_cmp set n ≡ has_withdrawal (map withdrawal_in rows.now) n) }
{
    let mut set = BTreeSet::new(alloc);
    for withdrawal in rows {
        set.insert(withdrawal.number)?;
    }
    Ok(set)
}

/// The numbers of the notices that were sent.
///
/// # Errors
///
/// Where an allocation is refused.
pub fn sent_numbers(alloc: Global, rows: &[NoticeOutRow]) -> Result<BTreeSet<u32>, AllocError>
    ensures { IfOk result
        (λ set. (n : ℕ) → contains nat_cmp set n ≡ has_sent (map notice_out_in rows.now) n) }
{
    let mut set = BTreeSet::new(alloc);
    for notice in rows {
        set.insert(notice.number)?;
    }
    Ok(set)
}
