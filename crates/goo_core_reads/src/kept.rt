//! The answer of a key that is kept.

ghost use Rattle.std.specs.Prelude.{◌≡◌};
ghost use Rattle.goo_core_reads.specs.Requests.{decision_kept};

use goo_core_rules::decision::Decision;
use goo_core_shelf::found::Receipt;
use goo_types::refusal::Refusal;

/// The decision on a request by its key alone; None where nothing is kept under it.
pub fn kept_decision(receipt: Receipt) -> Option<Decision>
    ensures { result ≡ decision_kept receipt }
{
    match receipt {
        Receipt::Same(reply) => Some(Decision::Repeated(reply)),
        Receipt::Other => Some(Decision::Refused(Refusal::KeyReused)),
        Receipt::Absent => None,
    }
}
