//! Records of cancellations.
ghost use Rattle.std.specs.Prelude.{◌≡◌};

use goo_types::account_no::AccountNo;
use goo_types::command::Cancel;
use goo_types::day::Day;
use goo_types::name::Name;
use goo_types::range::Range;
use std::marker::Model;

/// The record of a cancellation.
#[derive(Clone, Copy)]
pub struct CancelRecord {
    account: AccountNo,
    range: Range,
    beneficiary: Name,
    use_first: Day,
    use_last: Day,
    day: Day,
}

impl Model for CancelRecord {
    ghost use Rattle.goo_spec.specs.State.{Cancellation};

    ghost Value = { Cancellation };

    ghost view = { λ c. record {
      account = c.account;
      range = c.range;
      beneficiary = c.beneficiary;
      use_first = c.use_first;
      use_last = c.use_last;
      day = c.day;
    } };

    ghost inverse = { λ c. record {
      account = c.account;
      range = c.range;
      beneficiary = c.beneficiary;
      use_first = c.use_first;
      use_last = c.use_last;
      day = c.day;
    } };
}

impl CancelRecord {
    ghost use Rattle.goo_core_shelf.specs.Shelf.{cancellation_on};

    /// The record that a cancellation leaves, accepted on a day.
    pub fn of(cancellation: &Cancel, day: Day) -> CancelRecord
        ensures { result ≡ cancellation_on day cancellation.now }
    {
        CancelRecord {
            account: cancellation.account,
            range: cancellation.range,
            beneficiary: cancellation.beneficiary,
            use_first: cancellation.use_first,
            use_last: cancellation.use_last,
            day,
        }
    }

    /// The account that held the certificates.
    pub fn account(&self) -> AccountNo
        ensures { result ≡ self.now.account }
    {
        self.account
    }

    /// The certificates.
    pub fn range(&self) -> Range
        ensures { result ≡ self.now.range }
    {
        self.range
    }

    /// Who used what they stand for.
    pub fn beneficiary(&self) -> Name
        ensures { result ≡ self.now.beneficiary }
    {
        self.beneficiary
    }

    /// The first day of the use.
    pub fn use_first(&self) -> Day
        ensures { result ≡ self.now.use_first }
    {
        self.use_first
    }

    /// The last day of the use.
    pub fn use_last(&self) -> Day
        ensures { result ≡ self.now.use_last }
    {
        self.use_last
    }

    /// The registry's date on which they were cancelled.
    pub fn day(&self) -> Day
        ensures { result ≡ self.now.day }
    {
        self.day
    }
}
