//! The next number of each kind.
ghost use Rattle.std.specs.Prelude.{◌≡◌, ◌↔◌, IsSome, IfSome};
ghost use Rattle.std.specs.Int.{IsInRange};
ghost use Rattle.goo_core_shelf.specs.Counters.{AreNumbers};

use goo_types::limits::{LAST_ACT, SERIALS};
use std::marker::Model;

/// The next number of each kind. One above the last number says that they are used up.
#[derive(Clone, Copy)]
pub struct Counters {
    serial: u64,
    account: u32,
    cancellation: u32,
    withdrawal: u32,
    notice: u32,
}

impl Model for Counters {
    ghost use Rattle.goo_core_shelf.specs.Counters.{NextNumbers, AreNumbers};

    ghost Value = { NextNumbers };

    ghost view = { λ c. record {
      serial = c.serial;
      account = c.account;
      cancellation = c.cancellation;
      withdrawal = c.withdrawal;
      notice = c.notice;
    } };

    ghost invariant = { λ c. AreNumbers (record {
      serial = c.serial;
      account = c.account;
      cancellation = c.cancellation;
      withdrawal = c.withdrawal;
      notice = c.notice;
    }) };

    ghost inverse = { λ c. record {
      serial = c.serial;
      account = c.account;
      cancellation = c.cancellation;
      withdrawal = c.withdrawal;
      notice = c.notice;
    } };
}

impl Counters {
    ghost use Rattle.goo_core_shelf.specs.Counters.{next_numbers};

    /// These next numbers: the serial 1 to 1,000,000,000,000, each other 1 to 1,000,000,000. None
    /// outside.
    pub fn new(
        serial: u64,
        account: u32,
        cancellation: u32,
        withdrawal: u32,
        notice: u32,
    ) -> Option<Counters>
        ensures valid { IsSome result
            ↔ AreNumbers (next_numbers serial account cancellation withdrawal notice) }
        ensures value { IfSome result
            (λ c. c ≡ next_numbers serial account cancellation withdrawal notice) }
    {
        if serial < 1 || serial > SERIALS {
            return None;
        }
        if account < 1
            || account > LAST_ACT + 1
            || cancellation < 1
            || cancellation > LAST_ACT + 1
        {
            return None;
        }
        if withdrawal < 1 || withdrawal > LAST_ACT + 1 || notice < 1 || notice > LAST_ACT + 1 {
            return None;
        }
        Some(Counters {
            serial,
            account,
            cancellation,
            withdrawal,
            notice,
        })
    }

    /// The next serial of a certificate.
    pub fn serial(self) -> u64
        ensures value { result ≡ self.serial }
        ensures limit { IsInRange 1 1_000_000_000_000 self.serial }
    {
        self.serial
    }

    /// The number of the next account.
    pub fn account(self) -> u32
        ensures value { result ≡ self.account }
        ensures limit { IsInRange 1 1_000_000_000 self.account }
    {
        self.account
    }

    /// The number of the next cancellation.
    pub fn cancellation(self) -> u32
        ensures value { result ≡ self.cancellation }
        ensures limit { IsInRange 1 1_000_000_000 self.cancellation }
    {
        self.cancellation
    }

    /// The number of the next withdrawal.
    pub fn withdrawal(self) -> u32
        ensures value { result ≡ self.withdrawal }
        ensures limit { IsInRange 1 1_000_000_000 self.withdrawal }
    {
        self.withdrawal
    }

    /// The number of the next outgoing notice.
    pub fn notice(self) -> u32
        ensures value { result ≡ self.notice }
        ensures limit { IsInRange 1 1_000_000_000 self.notice }
    {
        self.notice
    }
}
