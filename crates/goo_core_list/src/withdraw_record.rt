//! Records of withdrawals.
ghost use Rattle.std.specs.Prelude.{◌≡◌};

use goo_types::command::Withdraw;
use goo_types::day::Day;
use goo_types::name::Name;
use goo_types::range::Range;
use std::marker::Model;

/// The record of a withdrawal.
#[derive(Clone, Copy)]
pub struct WithdrawRecord {
    range: Range,
    reason: Name,
    day: Day,
}

impl Model for WithdrawRecord {
    ghost use Rattle.goo_spec.specs.State.{Withdrawal};

    ghost Value = { Withdrawal };

    ghost view = { λ w. record { range = w.range; reason = w.reason; day = w.day } };

    ghost inverse = { λ w. record { range = w.range; reason = w.reason; day = w.day } };
}

impl WithdrawRecord {
    /// The record that a withdrawal leaves, accepted on a day.
    pub fn of(withdrawal: &Withdraw, day: Day) -> WithdrawRecord
        ensures { result
            ≡ record { range = withdrawal.now.range; reason = withdrawal.now.reason; day = day } }
    {
        WithdrawRecord {
            range: withdrawal.range,
            reason: withdrawal.reason,
            day,
        }
    }
}
