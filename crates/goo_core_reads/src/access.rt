//! Who may see what.

ghost use Rattle.std.specs.Prelude.{◌≡◌};
ghost use Rattle.goo_core_reads.specs.Reads.{may_see as may_see_test, certificate_shown};

use crate::callers::{is_holder, is_issuer};
use crate::denial::Denial;
use goo_core_shelf::account::Account;
use goo_types::holder_code::HolderCode;
use goo_types::lot::Lot;
use goo_types::place::Place;

/// Whether the caller is the issuing body, or holds the account.
pub fn may_see(caller: &HolderCode, account: &Option<Account>) -> bool
    ensures { result ≡ may_see_test caller.now account.now }
{
    is_issuer(caller) || is_holder(caller, account)
}

/// A certificate as it is shown to a caller, by the account that its place names: one that he may
/// not see is unknown to him.
///
/// # Errors
///
/// `Unknown` to a caller who is neither the issuing body nor the holder of the account.
pub fn shown(
    caller: &HolderCode,
    account: &Option<Account>,
    known: (Lot, Place),
) -> Result<(Lot, Place), Denial>
    ensures { result ≡ certificate_shown caller.now account.now known }
{
    if may_see(caller, account) {
        Ok(known)
    } else {
        Err(Denial::Unknown)
    }
}
