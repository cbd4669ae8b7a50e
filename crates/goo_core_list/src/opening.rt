//! What is kept of holders, accounts, devices and peers.
ghost use Rattle.std.specs.Prelude.{◌≡◌, ◌≤◌};
ghost use Rattle.goo_spec.specs.State.{last_act};
ghost use Rattle.goo_spec.specs.OpenHolder.{with_holder};
ghost use Rattle.goo_spec.specs.OpenAccount.{with_account};
ghost use Rattle.goo_spec.specs.CloseAccount.{with_closed};
ghost use Rattle.goo_spec.specs.RegisterDevice.{with_device};
ghost use Rattle.goo_spec.specs.AddPeer.{with_peer};
ghost use Rattle.goo_core_list.specs.States.{state_of, Changes};

use crate::list_shelf::ListShelf;
use crate::maps::{find, put};
use crate::next_numbers::after_account;
use goo_core_shelf::account::Account;
use goo_core_shelf::device::Device;
use goo_types::account_no::AccountNo;
use goo_types::command::{AddPeer, CloseAccount, OpenAccount, OpenHolder, RegisterDevice};
use goo_types::fault::Fault;

impl ListShelf {
    /// Keeps a holder.
    #[tactic(auto, unfolding(crate::specs::States::state_of, goo_spec::specs::OpenHolder::with_holder))]
    pub(crate) fn add_holder(&mut self, opened: &OpenHolder) -> Result<(), Fault>
        ensures { Changes self.old self.new result (with_holder (state_of self.old) opened.now) }
    {
        put(&mut self.holders, opened.holder, opened.name)?;
        Ok(())
    }

    /// Keeps the next account.
    #[tactic(auto, unfolding(crate::specs::States::state_of, goo_spec::specs::OpenAccount::with_account))]
    pub(crate) fn add_account(&mut self, opened: &OpenAccount) -> Result<(), Fault>
        requires { (state_of self.old).next_account ≤ last_act }
        ensures { Changes self.old self.new result (with_account (state_of self.old) opened.now) }
    {
        let number = AccountNo::new(self.counters.account()).unwrap();
        put(
            &mut self.accounts,
            number,
            Account::new(opened.holder, false),
        )?;
        self.counters = after_account(self.counters);
        Ok(())
    }

    /// Keeps that an account is closed.
    #[tactic(auto, unfolding(crate::specs::States::state_of, goo_spec::specs::CloseAccount::with_closed))]
    pub(crate) fn close_account(&mut self, closed: &CloseAccount) -> Result<(), Fault>
        ensures { Changes self.old self.new result (with_closed (state_of self.old) closed.now) }
    {
        let Some(account) = find(&self.accounts, &closed.account) else {
            return Ok(());
        };
        let holder = account.holder();
        put(
            &mut self.accounts,
            closed.account,
            Account::new(holder, true),
        )?;
        Ok(())
    }

    /// Keeps a device.
    #[tactic(auto, unfolding(crate::specs::States::state_of, goo_spec::specs::RegisterDevice::with_device))]
    pub(crate) fn add_device(&mut self, registered: &RegisterDevice) -> Result<(), Fault>
        ensures { Changes self.old self.new result
            (with_device (state_of self.old) registered.now) }
    {
        put(&mut self.devices, registered.device, Device::of(registered))?;
        Ok(())
    }

    /// Keeps another registry.
    #[tactic(auto, unfolding(crate::specs::States::state_of, goo_spec::specs::AddPeer::with_peer))]
    pub(crate) fn add_peer(&mut self, added: &AddPeer) -> Result<(), Fault>
        ensures { Changes self.old self.new result (with_peer (state_of self.old) added.now) }
    {
        put(&mut self.peers, added.peer, ())?;
        Ok(())
    }
}
