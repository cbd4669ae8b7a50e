//! The decision on a request, by the ruling on its command.

ghost use Rattle.std.specs.Prelude.{◌≡◌, IfOk, IfErr};
ghost use Rattle.goo_types.specs.declared.fault.Fault.TheVariants.{Memory};
ghost use Rattle.goo_core_rules.specs.Decision.{IsDecisionBy};

use crate::ruling::Ruling;
use goo_core_shelf::plan::Plan;
use goo_types::fault::Fault;
use goo_types::refusal::Refusal;
use goo_types::reply::Reply;
use goo_types::request::Request;
use std::alloc::Global;

/// The decision on a request.
#[derive(Drop)]
pub enum Decision {
    /// It isn't carried out.
    Refused(Refusal),
    /// It was carried out before, with this reply.
    Repeated(Reply),
    /// It may be carried out by committing the plan, and is then answered with the reply.
    Accept(Plan, Reply),
}

/// The decision on a request, by the ruling on its command. One that passes may be carried out by
/// the plan of its change.
///
/// # Errors
///
/// `Memory` where an allocation was refused.
pub fn decision_by(alloc: Global, request: &Request, ruling: Ruling) -> Result<Decision, Fault>
    ensures decision { IfOk result (IsDecisionBy request.now ruling) }
    ensures memory { IfErr result (λ fault. fault ≡ Memory) }
{
    match ruling {
        Ruling::Refused(refusal) => Ok(Decision::Refused(refusal)),
        Ruling::Repeated(reply) => Ok(Decision::Repeated(reply)),
        Ruling::Passed(change) => {
            let reply = change.reply;
            let plan = Plan {
                request: request.copy(alloc)?,
                reply,
                edits: change.edits,
                notice: change.notice,
            };
            Ok(Decision::Accept(plan, reply))
        }
    }
}
