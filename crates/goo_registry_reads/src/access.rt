//! Who may read what.

ghost use Rattle.std.specs.Prelude.{◌≡◌};
ghost use Rattle.goo_registry_reads.specs.Access.{absent_denial as absent_def};
ghost use Rattle.goo_registry_reads.specs.Access.{account_denial as denial_def};

use goo_core_reads::access::may_see;
use goo_core_reads::callers::is_issuer;
use goo_core_reads::denial::Denial;
use goo_core_shelf::account::Account;
use goo_types::holder_code::HolderCode;

/// Why something that isn't there isn't shown: only the issuing body learns that.
pub fn absent_denial(caller: &HolderCode) -> Denial
    ensures { result ≡ absent_def caller.now }
{
    if is_issuer(caller) {
        Denial::Unknown
    } else {
        Denial::NotAllowed
    }
}

/// Why an account isn't shown to the caller; None where it is.
pub fn account_denial(caller: &HolderCode, account: &Option<Account>) -> Option<Denial>
    ensures { result ≡ denial_def caller.now account.now }
{
    if account.is_none() {
        return Some(absent_denial(caller));
    }
    if may_see(caller, account) {
        None
    } else {
        Some(Denial::NotAllowed)
    }
}
