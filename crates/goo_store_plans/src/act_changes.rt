//! What commands change that leave records of acts, and the one that sets the date.

ghost use Rattle.std.specs.Prelude.{◌≡◌, All, IfOk, IsOkUnless, IsTrue};
ghost use Rattle.goo_spec.specs.Export.{notice_of};
ghost use Rattle.goo_types.specs.declared.command.Command.TheVariants as command;
ghost use Rattle.goo_tables_rows.specs.Rows.{Tables, meta_in};
ghost use Rattle.goo_spec_tables.specs.Readable.{is_act, is_meta};
ghost use Rattle.goo_spec_tables.specs.States.{state_of};
ghost use Rattle.goo_store_plans.specs.Carried.{Does};
ghost use Rattle.goo_store_plans.specs.Correcting.{LeavesThese};
ghost use Rattle.goo_store_changes.specs.Changes.{made_all, ChangeFits};
ghost use Rattle.goo_store_values.specs.declared.statement_fault.StatementFault.TheVariants.{Memory};

use crate::new_notices::notice_out_row;
use crate::new_rows::{cancellation_row, day_string, withdrawal_row};
use crate::next_numbers::next_numbers;
use goo_store_changes::table_change::TableChange;
use goo_store_values::statement_fault::StatementFault;
use goo_store_values::{numbers, texts};
use goo_tables_accounts::counters::CountersRow;
use goo_tables_rows::meta::MetaRow;
use goo_types::command::{Advance, Cancel, Export, Withdraw};
use goo_types::notice::Notice;
use std::alloc::Global;

/// The record of a cancellation, under the next number.
pub fn cancel(
    alloc: Global,
    meta: &MetaRow,
    accepted: &Cancel,
) -> Result<Vec<TableChange>, StatementFault>
    ensures does { IfOk result
        (λ changes. (t : Tables) → t.meta ≡ meta_in meta.now
        → Does t (command.Cancel accepted.now) changes.items) }
    ensures fits { IfOk result (λ changes. All ChangeFits changes.items) }
    ensures memory { IsTrue (is_meta (meta_in meta.now))
        → IsTrue (is_act meta.now.next_cancellation) → IsOkUnless result Memory }
{
    let number = numbers::act_no(meta.next_cancellation)?;
    let day = texts::day(&meta.today)?;
    let record = cancellation_row(alloc, number, accepted, day)?;
    let counters = CountersRow {
        next_cancellation: number.get() + 1,
        ..next_numbers(meta)?
    };
    Ok(vec![in alloc;
        TableChange::AddCancellation(record),
        TableChange::SetCounters(counters),
    ]?)
}

/// The record of a withdrawal, under the next number.
pub fn withdraw(
    alloc: Global,
    meta: &MetaRow,
    accepted: &Withdraw,
) -> Result<Vec<TableChange>, StatementFault>
    ensures does { IfOk result
        (λ changes. (t : Tables) → t.meta ≡ meta_in meta.now
        → Does t (command.Withdraw accepted.now) changes.items) }
    ensures these { IfOk result
        (λ changes. (t : Tables) → LeavesThese t (made_all t changes.items)) }
    ensures fits { IfOk result (λ changes. All ChangeFits changes.items) }
    ensures memory { IsTrue (is_meta (meta_in meta.now)) → IsTrue (is_act meta.now.next_withdrawal)
        → IsOkUnless result Memory }
{
    let number = numbers::act_no(meta.next_withdrawal)?;
    let day = texts::day(&meta.today)?;
    let record = withdrawal_row(alloc, number, accepted, day)?;
    let counters = CountersRow {
        next_withdrawal: number.get() + 1,
        ..next_numbers(meta)?
    };
    Ok(vec![in alloc;
        TableChange::AddWithdrawal(record),
        TableChange::SetCounters(counters),
    ]?)
}

/// The notice that an export sends, under the next number.
pub fn export(
    alloc: Global,
    meta: &MetaRow,
    accepted: &Export,
    notice: &Notice,
) -> Result<Vec<TableChange>, StatementFault>
    ensures does { IfOk result
        (λ changes. (t : Tables) → t.meta ≡ meta_in meta.now
        → notice.now ≡ notice_of (state_of t) accepted.now
        → Does t (command.Export accepted.now) changes.items) }
    ensures fits { IfOk result (λ changes. All ChangeFits changes.items) }
    ensures memory { IsTrue (is_meta (meta_in meta.now)) → IsTrue (is_act meta.now.next_notice)
        → IsOkUnless result Memory }
{
    let number = numbers::act_no(meta.next_notice)?;
    let sent = notice_out_row(alloc, number, accepted.giver, notice)?;
    let counters = CountersRow {
        next_notice: number.get() + 1,
        ..next_numbers(meta)?
    };
    Ok(vec![in alloc;
        TableChange::AddNoticeOut(sent),
        TableChange::SetCounters(counters),
    ]?)
}

/// Another date.
pub fn advance(alloc: Global, accepted: &Advance) -> Result<Vec<TableChange>, StatementFault>
    ensures does { IfOk result
        (λ changes. (t : Tables) → Does t (command.Advance accepted.now) changes.items) }
    ensures fits { IfOk result (λ changes. All ChangeFits changes.items) }
    ensures memory { IsOkUnless result Memory }
{
    let today = day_string(alloc, accepted.day)?;
    Ok(vec![in alloc; TableChange::SetToday(today)]?)
}
