//! Accounts, as a shelf keeps them.
ghost use Rattle.std.specs.Prelude.{◌≡◌};

use goo_types::holder_code::HolderCode;
use std::marker::Model;

/// An account, as a shelf keeps it.
#[derive(Clone, Copy)]
pub struct Account {
    holder: HolderCode,
    closed: bool,
}

impl Model for Account {
    ghost use Rattle.goo_spec.specs.State.{Account as Known};

    ghost Value = { Known };

    ghost view = { λ a. record { holder = a.holder; closed = a.closed } };

    ghost inverse = { λ a. record { holder = a.holder; closed = a.closed } };
}

impl Account {
    /// The account of a holder.
    pub fn new(holder: HolderCode, closed: bool) -> Account
        ensures { result ≡ record { holder = holder; closed = closed } }
    {
        Account { holder, closed }
    }

    /// Who holds it.
    pub fn holder(&self) -> HolderCode
        ensures { result ≡ self.now.holder }
    {
        self.holder
    }

    /// Whether it was closed; nothing is held in it from then on.
    pub fn is_closed(&self) -> bool
        ensures { result ≡ self.now.closed }
    {
        self.closed
    }
}
