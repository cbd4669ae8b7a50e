//! What is kept of cancellations, withdrawals and notices.
ghost use Rattle.std.specs.Prelude.{◌≡◌, ◌≤◌};
ghost use Rattle.goo_spec.specs.State.{last_act};
ghost use Rattle.goo_spec.specs.Cancel.{with_cancellation};
ghost use Rattle.goo_spec.specs.Withdraw.{with_withdrawal};
ghost use Rattle.goo_spec.specs.Export.{with_export, notice_of};
ghost use Rattle.goo_spec.specs.Import.{with_import};
ghost use Rattle.goo_core_list.specs.States.{state_of, Changes};
ghost use Rattle.goo_ranges_rows.specs.Certificates.{beside};

use crate::list_shelf::ListShelf;
use crate::lots::add_lots;
use crate::maps::{put, put_back};
use crate::next_numbers::{after_cancellation, after_notice, after_withdrawal};
use crate::withdraw_record::WithdrawRecord;
use goo_core_shelf::cancel_record::CancelRecord;
use goo_core_shelf::sent::Sent;
use goo_types::act_no::ActNo;
use goo_types::command::{Cancel, Export, Import, Withdraw};
use goo_types::fault::Fault;
use goo_types::notice::Notice;
use std::alloc::Global;

impl ListShelf {
    /// Keeps the record of a cancellation.
    #[tactic(auto, unfolding(crate::specs::States::state_of, goo_spec::specs::Cancel::with_cancellation))]
    pub(crate) fn add_cancellation(&mut self, accepted: &Cancel) -> Result<(), Fault>
        requires { (state_of self.old).next_cancellation ≤ last_act }
        ensures { Changes self.old self.new result
            (beside (state_of self.old).at (with_cancellation (state_of self.old) accepted.now)) }
    {
        let number = ActNo::new(self.counters.cancellation()).unwrap();
        let record = CancelRecord::of(accepted, self.today);
        put(&mut self.cancellations, number, record)?;
        self.counters = after_cancellation(self.counters);
        Ok(())
    }

    /// Keeps the record of a withdrawal.
    #[tactic(auto, unfolding(crate::specs::States::state_of, goo_spec::specs::Withdraw::with_withdrawal))]
    pub(crate) fn add_withdrawal(&mut self, accepted: &Withdraw) -> Result<(), Fault>
        requires { (state_of self.old).next_withdrawal ≤ last_act }
        ensures { Changes self.old self.new result
            (beside (state_of self.old).at (with_withdrawal (state_of self.old) accepted.now)) }
    {
        let number = ActNo::new(self.counters.withdrawal()).unwrap();
        let record = WithdrawRecord::of(accepted, self.today);
        put(&mut self.withdrawals, number, record)?;
        self.counters = after_withdrawal(self.counters);
        Ok(())
    }

    /// Keeps a copy of the notice that an export sends.
    #[tactic(auto, unfolding(crate::specs::States::state_of, goo_spec::specs::Export::with_export))]
    pub(crate) fn add_notice(
        &mut self,
        alloc: Global,
        accepted: &Export,
        notice: &Notice,
    ) -> Result<(), Fault>
        requires numbers_left { (state_of self.old).next_notice ≤ last_act }
        requires sent { notice.now ≡ notice_of (state_of self.old) accepted.now }
        ensures { Changes self.old self.new result
            (beside (state_of self.old).at (with_export (state_of self.old) accepted.now)) }
    {
        let number = ActNo::new(self.counters.notice()).unwrap();
        let copy = notice.copy(alloc)?;
        put(&mut self.sent, number, Sent::new(accepted.giver, copy))?;
        self.counters = after_notice(self.counters);
        Ok(())
    }

    /// Keeps a copy of an imported notice, and its lots.
    #[tactic(auto, unfolding(crate::specs::States::state_of, goo_spec::specs::Import::with_import))]
    pub(crate) fn add_import(&mut self, alloc: Global, accepted: &Import) -> Result<(), Fault>
        ensures { Changes self.old self.new result
            (beside (state_of self.old).at (with_import (state_of self.old) accepted.now)) }
    {
        let notice = &accepted.notice;
        let copy = notice.copy(alloc)?;
        let before = put(&mut self.arrived, (notice.sender(), notice.number()), copy)?;
        if let Err(fault) = add_lots(&mut self.lots, notice.parts()) {
            put_back(
                &mut self.arrived,
                (notice.sender(), notice.number()),
                before,
            );
            return Err(fault);
        }
        Ok(())
    }
}
