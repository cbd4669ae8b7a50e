//! Notices that were sent.
ghost use Rattle.std.specs.Prelude.{◌≡◌};

use goo_types::account_no::AccountNo;
use goo_types::notice::Notice;
use std::marker::Model;

/// A notice that was sent, and the account whose certificates it has.
#[derive(Drop)]
pub struct Sent {
    account: AccountNo,
    notice: Notice,
}

impl Model for Sent {
    ghost use Rattle.goo_spec.specs.State.{Sent as Known};

    ghost Value = { Known };

    ghost view = { λ s. record { account = s.account; notice = s.notice } };
}

impl Sent {
    /// A notice with the account whose certificates it has.
    pub fn new(account: AccountNo, notice: Notice) -> Sent
        ensures { result ≡ record { account = account; notice = notice } }
    {
        Sent { account, notice }
    }

    /// The account that held the certificates.
    pub fn account(&self) -> AccountNo
        ensures { result ≡ self.now.account }
    {
        self.account
    }

    /// The notice.
    pub fn notice(&self) -> &Notice
        ensures { result.now ≡ self.now.notice }
    {
        &self.notice
    }

    /// The notice alone.
    pub fn into_notice(self) -> Notice
        ensures { result ≡ self.notice }
    {
        self.notice
    }
}
