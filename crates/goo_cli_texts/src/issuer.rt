//! The caller that stands for the issuing body.
ghost use Rattle.std.specs.Prelude.{◌≡◌};
ghost use Rattle.goo_spec.specs.Checks.{issuer};

use goo_types::holder_code::HolderCode;
use goo_types::limits::ISSUER;

/// The issuing body, as a caller.
pub fn issuer() -> HolderCode
    ensures { result ≡ issuer }
{
    match HolderCode::read(ISSUER.as_bytes()) {
        Ok(code) => code,
        Err(_) => unreachable!(),
    }
}
