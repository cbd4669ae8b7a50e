//! Who may ask.

ghost use Rattle.std.specs.Prelude.{◌≡◌};
ghost use Rattle.goo_spec.specs.Checks.{is_issuer as issuer_test, is_holder as holder_test};

use goo_core_shelf::account::Account;
use goo_types::holder_code::HolderCode;
use goo_types::limits::ISSUER;

/// Whether the caller is the issuing body.
pub fn is_issuer(caller: &HolderCode) -> bool
    ensures { result ≡ issuer_test caller.now }
{
    caller.text() == ISSUER
}

/// Whether the caller holds the account.
pub fn is_holder(caller: &HolderCode, account: &Option<Account>) -> bool
    ensures { result ≡ holder_test caller.now account.now }
{
    match account {
        Some(account) => account.holder() == *caller,
        None => false,
    }
}
