//! What a command changes beside the certificates.
ghost use Rattle.std.specs.Prelude.{◌≡◌, None};
ghost use Rattle.goo_spec.specs.Step.{refusal, changed};
ghost use Rattle.goo_core_shelf.specs.Plan.{notice_sent};
ghost use Rattle.goo_core_list.specs.States.{state_of, Changes};
ghost use Rattle.goo_ranges_rows.specs.Certificates.{beside};

use crate::list_shelf::ListShelf;
use goo_core_shelf::plan::Plan;
use goo_types::command::Command;
use goo_types::fault::Fault;
use std::alloc::Global;

impl ListShelf {
    /// Keeps what an accepted command changes, but for the certificates and the receipt.
    #[tactic(auto, unfolding(crate::specs::States::state_of, goo_spec::specs::Transfer::with_transfer, goo_spec::specs::Advance::with_day))]
    pub(crate) fn change(&mut self, alloc: Global, plan: &Plan) -> Result<(), Fault>
        requires allowed { refusal (state_of self.old) plan.now.request.caller
            plan.now.request.command ≡ None }
        requires sent { plan.now.notice ≡ notice_sent (state_of self.old) plan.now.request.command }
        ensures { Changes self.old self.new result
            (beside (state_of self.old).at (changed (state_of self.old) plan.now.request.command)) }
    {
        match &plan.request.command {
            Command::OpenHolder(command) => self.add_holder(command),
            Command::OpenAccount(command) => self.add_account(command),
            Command::CloseAccount(command) => self.close_account(command),
            Command::RegisterDevice(command) => self.add_device(command),
            Command::Declare(command) => self.add_declaration(command),
            Command::Correct(command) => self.add_correction(command),
            Command::Transfer(_) => Ok(()),
            Command::Cancel(command) => self.add_cancellation(command),
            Command::Withdraw(command) => self.add_withdrawal(command),
            Command::Advance(command) => {
                self.today = command.day;
                Ok(())
            }
            Command::AddPeer(command) => self.add_peer(command),
            Command::Export(command) => {
                self.add_notice(alloc, command, plan.notice.as_ref().unwrap())
            }
            Command::Import(command) => self.add_import(alloc, command),
        }
    }
}
