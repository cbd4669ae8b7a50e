//! Carrying out plans: what a plan changes is gathered first, and then made in one transaction.

ghost use Rattle.std.specs.Prelude.{◌≡◌, All, IfErr, IfOk, OnErr, OnOk};
ghost use Rattle.goo_core_shelf.specs.Plan.{Fits};
ghost use Rattle.goo_store_changes.specs.Changes.{ChangeFits, made_all};
ghost use Rattle.goo_store_plans.specs.Found.{AreNone, IsBasisOf, IsNoBasis};
ghost use Rattle.goo_store_judge.specs.Moments.{tables_in};
ghost use Rattle.goo_store_plans.specs.Planned.{IsPlanned};
ghost use Rattle.goo_store.specs.Preparing.{Prepares};
ghost use Rattle.goo_store.specs.Gathering.{HaveWhatItNeeds};
ghost use Rattle.goo_store_values.specs.Passing.{IsStatementFaultOf};
ghost use Rattle.goo_store_values.specs.Telling.{PassesOn};
ghost use Rattle.goo_store.specs.Seen.{BlamesPlan, database_of, seen_by};

use crate::sql_shelf::SqlShelf;
use goo_core_shelf::plan::Plan;
use goo_store_plans::known_rows::{KnownBasis, KnownRows};
use goo_store_plans::plan_changes::{Planned, plan_changes};
use goo_store_values::noting::note_fault;
use goo_store_values::statement_fault::StatementFault;
use goo_types::fault::Fault;
use sqlite::{Alter, Error};
use std::alloc::Global;
use std::mem;

/// How a call of the database ended that shows no rows.
pub(crate) fn ending(made: Result<(), Error>) -> Result<(), StatementFault>
    ensures passes { PassesOn made result }
    ensures cause { IfErr made (λ error. IfErr result (IsStatementFaultOf error)) }
{
    match made {
        Ok(()) => Ok(()),
        Err(error) => Err(StatementFault::from(error)),
    }
}

/// What is known of the basis of a declaration once a commit has ended.
pub(crate) fn known_after(made: &Result<(), Error>, after: KnownBasis) -> KnownBasis
    ensures done { OnOk made.now (result ≡ after) }
    ensures undone { OnErr made.now (IsNoBasis result) }
{
    match made {
        Ok(()) => after,
        Err(_) => KnownBasis::none(),
    }
}

impl<S: Alter> SqlShelf<S> {
    /// The changes that carry out a plan. Nothing is changed yet, and nothing that was found is
    /// kept any more.
    pub(crate) fn changes_for(&mut self, alloc: Global, plan: &Plan) -> Result<Planned, Fault>
        ensures prepares { Prepares (seen_by self.old) (seen_by self.new) result }
        ensures planned { (seen_by self.new).defects ≡ 0 → IfOk result
            (λ planned. Fits (seen_by self.new).state (seen_by self.new).rows plan.now
            → IsPlanned (tables_in (database_of self.new)) planned.changes.items plan.now
            × IsBasisOf planned.after
            (made_all (tables_in (database_of self.new)) planned.changes.items)) }
        ensures fits { IfOk result (λ planned. All ChangeFits planned.changes.items) }
        ensures taken { IfOk result (λ _. AreNone self.new.known_rows) }
        ensures same { (seen_by self.new).defects ≡ 0
            → tables_in (database_of self.new) ≡ tables_in (database_of self.old) }
        ensures store { BlamesPlan self.old self.new result (λ t. HaveWhatItNeeds t plan.now) }
    {
        if self.refused {
            return Err(Fault::Store);
        }
        let known_rows = mem::replace(&mut self.known_rows, KnownRows::none(alloc));
        let planned = plan_changes(alloc, &mut self.conn, known_rows, plan);
        self.cache.answered = false;
        note_fault(planned, &mut self.refused)
    }
}
