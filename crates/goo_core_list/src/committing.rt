//! The whole change of an accepted request.
ghost use Rattle.std.specs.Prelude.{◌≡◌, IfErr, OnOk, OnErr};
ghost use Rattle.goo_types.specs.declared.fault.Fault.TheVariants.{Memory};
ghost use Rattle.goo_types.specs.declared.outcome.Outcome.TheVariants.{Accepted};
ghost use Rattle.goo_spec.specs.Step.{outcome, accept};
ghost use Rattle.goo_ranges_rows.specs.Rows.{edited_all};
ghost use Rattle.goo_core_shelf.specs.Plan.{Fits, notice_sent};
ghost use Rattle.goo_core_list.specs.States.{state_of, Changes};
ghost use Rattle.goo_ranges_rows.specs.Certificates.{beside};

use crate::list_shelf::ListShelf;
use crate::listed_reply::ListedReply;
use crate::maps::{put, put_back};
use goo_core_shelf::plan::Plan;
use goo_types::fault::Fault;
use std::alloc::Global;

impl ListShelf {
    /// Keeps an accepted request's receipt, and what it changes beside the certificates.
    #[tactic(auto, unfolding(crate::specs::States::state_of))]
    fn keep(&mut self, alloc: Global, plan: &Plan) -> Result<(), Fault>
        requires accepted { outcome (state_of self.old) plan.now.request ≡ Accepted plan.now.reply }
        requires sent { plan.now.notice ≡ notice_sent (state_of self.old) plan.now.request.command }
        ensures { Changes self.old self.new result
            (beside (state_of self.old).at (accept (state_of self.old) plan.now.request)) }
    {
        let request = &plan.request;
        let kept = ListedReply::new(request.command.copy(alloc)?, plan.reply);
        let before = put(&mut self.receipts, (request.caller, request.key), kept)?;
        if let Err(fault) = self.change(alloc, plan) {
            put_back(&mut self.receipts, (request.caller, request.key), before);
            return Err(fault);
        }
        Ok(())
    }

    /// Carries out the whole change of a plan, or none for want of memory: room for the rows is
    /// made first, and the edits of the rows come last.
    pub(crate) fn carry_out(&mut self, alloc: Global, plan: &Plan) -> Result<(), Fault>
        requires { Fits (state_of self.old) self.old.rows.pieces plan.now }
        ensures done { OnOk result
            (state_of self.new ≡ accept (state_of self.old) plan.now.request) }
        ensures rows_done { OnOk result
            (self.new.rows.pieces ≡ edited_all plan.now.edits.items self.old.rows.pieces) }
        ensures undone { OnErr result (state_of self.new ≡ state_of self.old) }
        ensures rows_undone { OnErr result (self.new.rows.pieces ≡ self.old.rows.pieces) }
        ensures memory { IfErr result (λ fault. fault ≡ Memory) }
    {
        self.rows.make_room(&plan.edits)?;
        self.keep(alloc, plan)?;
        self.rows.edit(&plan.edits);
        Ok(())
    }
}
