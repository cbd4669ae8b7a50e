//! What a command changes beside the certificates and the lots.

ghost use Rattle.std.specs.Prelude.{◌≡◌, [], All, IfOk, IsOkUnless, IsTrue};
ghost use Rattle.goo_core_shelf.specs.Plan.{notice_sent};
ghost use Rattle.goo_tables_rows.specs.Rows.{Tables, meta_in};
ghost use Rattle.goo_spec_tables.specs.Readable.{is_meta};
ghost use Rattle.goo_spec_tables.specs.States.{state_of};
ghost use Rattle.goo_store_plans.specs.Carried.{CanTakeNumber, Does, IsPlain};
ghost use Rattle.goo_store_changes.specs.Changes.{ChangeFits};
ghost use Rattle.goo_store_values.specs.declared.statement_fault.StatementFault.TheVariants.{Memory};

use crate::act_changes::{advance, cancel, export, withdraw};
use crate::member_changes::{add_peer, close_account, open_account, open_holder, register_device};
use goo_core_shelf::plan::Plan;
use goo_store_changes::table_change::TableChange;
use goo_store_values::statement_fault::StatementFault;
use goo_tables_rows::meta::MetaRow;
use goo_types::command::Command;
use std::alloc::Global;

/// What a transfer changes beside the certificates: nothing.
fn transfer(alloc: Global) -> Vec<TableChange>
    ensures { result.items ≡ [] }
{
    Vec::new(alloc)
}

/// The changes of an accepted command that needs nothing of the registry's row and puts no lot in.
/// Any other command is refused.
pub fn plain_changes(alloc: Global, plan: &Plan) -> Result<Vec<TableChange>, StatementFault>
    ensures does { IfOk result
        (λ changes. (t : Tables) → Does t plan.now.request.command changes.items) }
    ensures fits { IfOk result (λ changes. All ChangeFits changes.items) }
    ensures memory { IsPlain plan.now.request.command → IsOkUnless result Memory }
{
    match &plan.request.command {
        Command::OpenHolder(command) => open_holder(alloc, command),
        Command::CloseAccount(command) => close_account(alloc, command),
        Command::RegisterDevice(command) => register_device(alloc, command),
        Command::Transfer(_) => Ok(transfer(alloc)),
        Command::Advance(command) => advance(alloc, command),
        Command::AddPeer(command) => add_peer(alloc, command),
        Command::OpenAccount(_)
        | Command::Cancel(_)
        | Command::Withdraw(_)
        | Command::Export(_)
        | Command::Declare(_)
        | Command::Correct(_)
        | Command::Import(_) => Err(StatementFault::Refused),
    }
}

/// The changes of an accepted command that takes the next number of an account, a cancellation, a
/// withdrawal or a notice. Any other command is refused.
pub fn numbered_changes(
    alloc: Global,
    meta: &MetaRow,
    plan: &Plan,
) -> Result<Vec<TableChange>, StatementFault>
    ensures does { IfOk result
        (λ changes. (t : Tables) → t.meta ≡ meta_in meta.now
        → plan.now.notice ≡ notice_sent (state_of t) plan.now.request.command
        → Does t plan.now.request.command changes.items) }
    ensures fits { IfOk result (λ changes. All ChangeFits changes.items) }
    ensures memory { IsTrue (is_meta (meta_in meta.now))
        → CanTakeNumber meta.now plan.now.request.command plan.now.notice
        → IsOkUnless result Memory }
{
    match &plan.request.command {
        Command::OpenAccount(command) => open_account(alloc, meta, command),
        Command::Cancel(command) => cancel(alloc, meta, command),
        Command::Withdraw(command) => withdraw(alloc, meta, command),
        Command::Export(command) => match &plan.notice {
            Some(notice) => export(alloc, meta, command, notice),
            None => Err(StatementFault::Refused),
        },
        Command::OpenHolder(_)
        | Command::CloseAccount(_)
        | Command::RegisterDevice(_)
        | Command::Declare(_)
        | Command::Correct(_)
        | Command::Transfer(_)
        | Command::Advance(_)
        | Command::AddPeer(_)
        | Command::Import(_) => Err(StatementFault::Refused),
    }
}
