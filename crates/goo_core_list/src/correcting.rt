//! What is kept of corrections.
ghost use Rattle.std.specs.Prelude.{◌≡◌, ◌≤◌, Some};
ghost use Rattle.goo_types.specs.Range.{Numbers};
ghost use Rattle.goo_spec.specs.State.{last_act};
ghost use Rattle.goo_spec.specs.Correct.{with_correction};
ghost use Rattle.goo_core_list.specs.States.{state_of, Changes};
ghost use Rattle.goo_ranges_rows.specs.Certificates.{beside};

use crate::list_shelf::ListShelf;
use crate::maps::{put, put_back};
use crate::next_numbers::after_withdrawal;
use crate::withdraw_record::WithdrawRecord;
use goo_core_shelf::correct_record::CorrectRecord;
use goo_types::act_no::ActNo;
use goo_types::command::{Correct, Withdraw};
use goo_types::fault::Fault;

impl ListShelf {
    /// Keeps a correction, and the record of the withdrawal of the certificates in excess, if there
    /// are any.
    #[tactic(auto, unfolding(crate::specs::States::state_of, goo_spec::specs::Withdraw::with_withdrawal, goo_spec::specs::Correct::with_correction))]
    pub(crate) fn add_correction(&mut self, accepted: &Correct) -> Result<(), Fault>
        requires { (range : Numbers) → accepted.now.range ≡ Some range
            → (state_of self.old).next_withdrawal ≤ last_act }
        ensures { Changes self.old self.new result
            (beside (state_of self.old).at (with_correction (state_of self.old) accepted.now)) }
    {
        let Some(range) = accepted.range else {
            return self.corrections.add(CorrectRecord::of(accepted, None));
        };
        let number = ActNo::new(self.counters.withdrawal()).unwrap();
        let reason = accepted.reason;
        let record = WithdrawRecord::of(&Withdraw { range, reason }, self.today);
        let before = put(&mut self.withdrawals, number, record)?;
        if let Err(fault) = self
            .corrections
            .add(CorrectRecord::of(accepted, Some(number)))
        {
            put_back(&mut self.withdrawals, number, before);
            return Err(fault);
        }
        self.counters = after_withdrawal(self.counters);
        Ok(())
    }
}
