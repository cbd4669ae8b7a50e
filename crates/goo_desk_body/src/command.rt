//! The command that a body states.
ghost use Rattle.std.specs.Prelude.{◌≡◌};
ghost use Rattle.serde_json.specs.View.{view};
ghost use Rattle.goo_notice_json.specs.Faults.{Gives};
ghost use Rattle.goo_notice.specs.Command.{command_of};

use crate::add_peer::add_peer;
use crate::advance::advance;
use crate::cancel::cancel;
use crate::close_account::close_account;
use crate::correct::correct;
use crate::declare::declare;
use crate::export::export;
use crate::import::import;
use crate::open_account::open_account;
use crate::open_holder::open_holder;
use crate::register_device::register_device;
use crate::transfer::transfer;
use crate::withdraw::withdraw;
use goo_notice_json::members::string_at;
use goo_notice_json::value_fault::ValueFault;
use goo_types::command::Command;
use serde_json::Value;
use std::alloc::Global;

/// The command that a body states beside its key.
#[tactic(auto, unfolding(goo_notice::specs::Command::command_of, goo_notice::specs::Command::command_named))]
pub(crate) fn command(alloc: Global, body: &Value) -> Result<Command, ValueFault>
    ensures { Gives (λ c. c) result (command_of 1 (view body.now)) }
{
    Ok(match string_at(body, "command")? {
        "open_holder" => Command::OpenHolder(open_holder(body)?),
        "open_account" => Command::OpenAccount(open_account(body)?),
        "close_account" => Command::CloseAccount(close_account(body)?),
        "register_device" => Command::RegisterDevice(register_device(body)?),
        "declare" => Command::Declare(declare(body)?),
        "correct" => Command::Correct(correct(body)?),
        "transfer" => Command::Transfer(transfer(body)?),
        "cancel" => Command::Cancel(cancel(body)?),
        "withdraw" => Command::Withdraw(withdraw(body)?),
        "advance" => Command::Advance(advance(body)?),
        "add_peer" => Command::AddPeer(add_peer(body)?),
        "export" => Command::Export(export(body)?),
        "import" => Command::Import(import(alloc, body)?),
        _ => return Err(ValueFault::Shape),
    })
}
