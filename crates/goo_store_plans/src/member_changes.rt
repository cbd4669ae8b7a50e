//! What commands change that make holders, accounts, devices and other registries known.

ghost use Rattle.std.specs.Prelude.{◌≡◌, All, IfOk, IsOkUnless, IsTrue};
ghost use Rattle.goo_types.specs.declared.command.Command.TheVariants as command;
ghost use Rattle.goo_tables_rows.specs.Rows.{Tables, meta_in};
ghost use Rattle.goo_spec_tables.specs.Readable.{is_act, is_meta};
ghost use Rattle.goo_store_plans.specs.Carried.{Does};
ghost use Rattle.goo_store_changes.specs.Changes.{ChangeFits};
ghost use Rattle.goo_store_values.specs.declared.statement_fault.StatementFault.TheVariants.{Memory};

use crate::new_devices::device_row;
use crate::new_rows::{account_row, holder_row, peer_row};
use crate::next_numbers::next_numbers;
use goo_store_changes::table_change::TableChange;
use goo_store_values::numbers;
use goo_store_values::statement_fault::StatementFault;
use goo_tables_accounts::counters::CountersRow;
use goo_tables_rows::meta::MetaRow;
use goo_types::command::{AddPeer, CloseAccount, OpenAccount, OpenHolder, RegisterDevice};
use std::alloc::Global;

/// A holder more.
pub fn open_holder(alloc: Global, opened: &OpenHolder) -> Result<Vec<TableChange>, StatementFault>
    ensures does { IfOk result
        (λ changes. (t : Tables) → Does t (command.OpenHolder opened.now) changes.items) }
    ensures fits { IfOk result (λ changes. All ChangeFits changes.items) }
    ensures memory { IsOkUnless result Memory }
{
    let holder = holder_row(alloc, opened)?;
    Ok(vec![in alloc; TableChange::AddHolder(holder)]?)
}

/// The next account.
pub fn open_account(
    alloc: Global,
    meta: &MetaRow,
    opened: &OpenAccount,
) -> Result<Vec<TableChange>, StatementFault>
    ensures does { IfOk result
        (λ changes. (t : Tables) → t.meta ≡ meta_in meta.now
        → Does t (command.OpenAccount opened.now) changes.items) }
    ensures fits { IfOk result (λ changes. All ChangeFits changes.items) }
    ensures memory { IsTrue (is_meta (meta_in meta.now)) → IsTrue (is_act meta.now.next_account)
        → IsOkUnless result Memory }
{
    let number = numbers::account_no(meta.next_account)?;
    let account = account_row(alloc, number, opened)?;
    let counters = CountersRow {
        next_account: number.get() + 1,
        ..next_numbers(meta)?
    };
    Ok(vec![in alloc;
        TableChange::AddAccount(account),
        TableChange::SetCounters(counters),
    ]?)
}

/// An account that is open no more.
pub fn close_account(
    alloc: Global,
    closed: &CloseAccount,
) -> Result<Vec<TableChange>, StatementFault>
    ensures does { IfOk result
        (λ changes. (t : Tables) → Does t (command.CloseAccount closed.now) changes.items) }
    ensures fits { IfOk result (λ changes. All ChangeFits changes.items) }
    ensures memory { IsOkUnless result Memory }
{
    let account = closed.account.get();
    Ok(vec![in alloc; TableChange::CloseAccount(account)]?)
}

/// A device more, which has declared nothing.
pub fn register_device(
    alloc: Global,
    registered: &RegisterDevice,
) -> Result<Vec<TableChange>, StatementFault>
    ensures does { IfOk result
        (λ changes. (t : Tables) → Does t (command.RegisterDevice registered.now) changes.items) }
    ensures fits { IfOk result (λ changes. All ChangeFits changes.items) }
    ensures memory { IsOkUnless result Memory }
{
    let device = device_row(alloc, registered)?;
    Ok(vec![in alloc; TableChange::AddDevice(device)]?)
}

/// Another registry more.
pub fn add_peer(alloc: Global, added: &AddPeer) -> Result<Vec<TableChange>, StatementFault>
    ensures does { IfOk result
        (λ changes. (t : Tables) → Does t (command.AddPeer added.now) changes.items) }
    ensures fits { IfOk result (λ changes. All ChangeFits changes.items) }
    ensures memory { IsOkUnless result Memory }
{
    let peer = peer_row(added.peer);
    Ok(vec![in alloc; TableChange::AddPeer(peer)]?)
}
