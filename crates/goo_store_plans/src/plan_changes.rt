//! The changes that carry out a plan: those of its command, then those of its edits, and the
//! receipt.

ghost use Rattle.std.specs.Prelude.{◌≡◌, ◌++◌, [], ◌∷◌, false, All, IfOk, IsOkUnless, IsTrue};
ghost use Rattle.sqlite.specs.Held.{state};
ghost use Rattle.goo_types.specs.Obeys.{Obeys};
ghost use Rattle.goo_types.specs.declared.request.Request.{Request};
ghost use Rattle.goo_store_plans.specs.declared.gathered_lots.Gathered.{Gathered as Given};
ghost use Rattle.goo_core_shelf.specs.Plan.{Fits};
ghost use Rattle.goo_tables_rows.specs.Rows.{Tables, meta_in, receipt_in};
ghost use Rattle.goo_spec_tables.specs.Kept.{AreKept};
ghost use Rattle.goo_spec_tables.specs.Places.{rows_of};
ghost use Rattle.goo_spec_tables.specs.States.{state_of};
ghost use Rattle.goo_spec_tables.specs.Readable.{is_meta};
ghost use Rattle.goo_store_plans.specs.Acted.{HasKeptNumbers};
ghost use Rattle.goo_store_plans.specs.Carried.{AreInOrder, CanTakeNumber, IsPlain};
ghost use Rattle.goo_store_plans.specs.Carrying.{CarriesOut, IsAccepted};
ghost use Rattle.goo_store_changes.specs.Changes.{made_all, ChangeFits};
ghost use Rattle.goo_store_plans.specs.Correcting.{CanAnswerCorrection};
ghost use Rattle.goo_store_plans.specs.Declaring.{CanBeAnswered};
ghost use Rattle.goo_store_plans.specs.EditChanges.{AreForEdits};
ghost use Rattle.goo_store_plans.specs.LookingUp.{LooksUp};
ghost use Rattle.goo_store_plans.specs.Found.{AreInTables, AreLots, IsBasisOf, IsRowOf};
ghost use Rattle.goo_store_plans.specs.Needing.{CanGoByRow};
ghost use Rattle.goo_store_plans.specs.PlanNeeds.{CanBePlanned, CanGo};
ghost use Rattle.goo_store_plans.specs.Planned.{IsPlanned};
ghost use Rattle.goo_store_plans.specs.StoreFaults.{BlamesDisk};
ghost use Rattle.goo_store_values.specs.declared.statement_fault.StatementFault.TheVariants.{Memory};

use crate::command_changes::{numbered_changes, plain_changes};
use crate::edit_changes::changes_of_edits;
use crate::gathered_lots::Gathered;
use crate::importing::import_changes;
use crate::known_basis::{after_changes, with_numbers};
use crate::known_rows::{KnownBasis, KnownLots, KnownRows};
use crate::new_corrections::correct_changes;
use crate::new_declarations::declare_changes;
use crate::new_receipts::receipt_row;
use crate::registry_row::known_row;
use goo_core_shelf::plan::Plan;
use goo_store_changes::table_change::TableChange;
use goo_store_values::statement_fault::StatementFault;
use goo_tables_rows::meta::MetaRow;
use goo_types::command::{Command, Correct, Declare};
use goo_types::reply::Reply;
use sqlite::{Alter, Connection};
use std::alloc::Global;

/// Changes of the tables, and what is known of the basis of a declaration or of a correction once
/// they are made.
#[derive(Drop)]
pub struct Planned {
    /// The changes.
    pub changes: Vec<TableChange>,
    /// What is known then.
    pub after: KnownBasis,
}

/// Changes that put no lot in.
fn without_lots(alloc: Global, changes: Vec<TableChange>) -> Gathered
    ensures changes { result.changes ≡ changes }
    ensures added { result.added.items ≡ [] }
{
    let added = Vec::new(alloc);
    Gathered {
        changes,
        added,
        next: 0,
    }
}

/// The changes of an accepted command that needs nothing of the registry's row.
fn plain(alloc: Global, plan: &Plan) -> Result<Gathered, StatementFault>
    ensures does { IfOk result
        (λ gathered. (t : Tables) → AreKept t → AreInOrder t
        → Fits (state_of t) (rows_of t) plan.now → CarriesOut t plan.now.request.command gathered) }
    ensures fits { IfOk result (λ gathered. All ChangeFits gathered.changes.items) }
    ensures memory { IsPlain plan.now.request.command → IsOkUnless result Memory }
{
    let changes = plain_changes(alloc, plan)?;
    Ok(without_lots(alloc, changes))
}

/// The changes of an accepted command that takes the next number of a kind and puts no lot in.
fn numbered(alloc: Global, meta: &MetaRow, plan: &Plan) -> Result<Gathered, StatementFault>
    ensures does { IfOk result
        (λ gathered. (t : Tables) → t.meta ≡ meta_in meta.now → AreKept t → AreInOrder t
        → Fits (state_of t) (rows_of t) plan.now → CarriesOut t plan.now.request.command gathered) }
    ensures fits { IfOk result (λ gathered. All ChangeFits gathered.changes.items) }
    ensures memory { IsTrue (is_meta (meta_in meta.now))
        → CanTakeNumber meta.now plan.now.request.command plan.now.notice
        → IsOkUnless result Memory }
{
    let changes = numbered_changes(alloc, meta, plan)?;
    Ok(without_lots(alloc, changes))
}

/// The changes of an accepted declaration, by the reply that it gets.
fn declaration<S: Alter>(
    alloc: Global,
    conn: &mut Connection<S>,
    meta: &MetaRow,
    basis: KnownBasis,
    declared: &Declare,
    reply: Reply,
) -> Result<Gathered, StatementFault>
    ensures looks { LooksUp (state S.Store conn.old) (state S.Store conn.new) result
        (λ t gathered. (q : Request) → q.command ≡ Command.Declare declared.now
        → t.meta ≡ meta_in meta.now → IsBasisOf basis t → IsAccepted t q reply
        → CarriesOut t q.command gathered) }
    ensures fits { IfOk result (λ gathered. All ChangeFits gathered.changes.items) }
    ensures blames { BlamesDisk (state S.Store conn.old) (state S.Store conn.new) result
        (λ t. CanBeAnswered t basis meta.now declared.now reply) }
    ensures outside { conn.old.in_transaction ≡ false → conn.new.in_transaction ≡ false }
{
    match reply {
        Reply::Declared { carry, issued } => {
            declare_changes(alloc, conn, meta, basis, declared, carry, issued)
        }
        _ => Err(StatementFault::Refused),
    }
}

/// The changes of an accepted correction, by the reply that it gets.
fn correction<S: Alter>(
    alloc: Global,
    conn: &mut Connection<S>,
    meta: &MetaRow,
    basis: KnownBasis,
    accepted: &Correct,
    reply: Reply,
) -> Result<Gathered, StatementFault>
    ensures looks { LooksUp (state S.Store conn.old) (state S.Store conn.new) result
        (λ t gathered. (q : Request) → q.command ≡ Command.Correct accepted.now
        → t.meta ≡ meta_in meta.now → IsBasisOf basis t → AreInOrder t → IsAccepted t q reply
        → CarriesOut t q.command gathered) }
    ensures fits { IfOk result (λ gathered. All ChangeFits gathered.changes.items) }
    ensures blames { BlamesDisk (state S.Store conn.old) (state S.Store conn.new) result
        (λ t. CanAnswerCorrection t basis meta.now accepted.now reply) }
    ensures outside { conn.old.in_transaction ≡ false → conn.new.in_transaction ≡ false }
{
    match reply {
        Reply::Corrected {
            carry,
            count: _,
            withdrawal,
        } => {
            let changes = correct_changes(alloc, conn, meta, basis, accepted, carry, withdrawal)?;
            Ok(without_lots(alloc, changes))
        }
        _ => Err(StatementFault::Refused),
    }
}

/// The changes of an accepted command that needs the registry's row.
fn by_own_row<S: Alter>(
    alloc: Global,
    conn: &mut Connection<S>,
    own: Option<MetaRow>,
    basis: KnownBasis,
    plan: &Plan,
) -> Result<Gathered, StatementFault>
    ensures gathers { LooksUp (state S.Store conn.old) (state S.Store conn.new) result
        (λ t gathered. IsRowOf own t → IsBasisOf basis t → AreKept t → AreInOrder t
        → Fits (state_of t) (rows_of t) plan.now → CarriesOut t plan.now.request.command gathered) }
    ensures blames { BlamesDisk (state S.Store conn.old) (state S.Store conn.new) result
        (λ t. CanGoByRow t own basis plan.now) }
    ensures outside { conn.old.in_transaction ≡ false → conn.new.in_transaction ≡ false }
    ensures fits { IfOk result (λ gathered. All ChangeFits gathered.changes.items) }
{
    let meta = known_row(alloc, conn, own)?;
    match &plan.request.command {
        Command::Declare(command) => { declaration(alloc, conn, &meta, basis, command, plan.reply) }
        Command::Correct(command) => correction(alloc, conn, &meta, basis, command, plan.reply),
        _ => numbered(alloc, &meta, plan),
    }
}

/// What the plan's command changes beside the certificates. The registry's row, the basis of a
/// declaration and the lots are looked up for those commands alone that need them, where they
/// aren't known.
fn command_changes<S: Alter>(
    alloc: Global,
    conn: &mut Connection<S>,
    own: Option<MetaRow>,
    basis: KnownBasis,
    lots: &KnownLots,
    plan: &Plan,
) -> Result<Gathered, StatementFault>
    ensures gathers { LooksUp (state S.Store conn.old) (state S.Store conn.new) result
        (λ t gathered. IsRowOf own t → IsBasisOf basis t → AreLots t.lots lots.now → AreKept t
        → AreInOrder t → Fits (state_of t) (rows_of t) plan.now
        → CarriesOut t plan.now.request.command gathered) }
    ensures blames { BlamesDisk (state S.Store conn.old) (state S.Store conn.new) result
        (λ t. CanGo t own basis plan.now plan.now.request.command) }
    ensures outside { conn.old.in_transaction ≡ false → conn.new.in_transaction ≡ false }
    ensures fits { IfOk result (λ gathered. All ChangeFits gathered.changes.items) }
{
    match &plan.request.command {
        Command::Import(command) => import_changes(alloc, conn, basis.next_lot, lots, command),
        Command::OpenAccount(_)
        | Command::Declare(_)
        | Command::Correct(_)
        | Command::Cancel(_)
        | Command::Withdraw(_)
        | Command::Export(_) => by_own_row(alloc, conn, own, basis, plan),
        _ => plain(alloc, plan),
    }
}

/// All changes, of which the receipt comes last.
fn joined(
    alloc: Global,
    act: Vec<TableChange>,
    edits: Vec<TableChange>,
    plan: &Plan,
) -> Result<Vec<TableChange>, StatementFault>
    requires act { All ChangeFits act.items }
    requires edits { All ChangeFits edits.items }
    ensures planned { IfOk result
        (λ changes. (t : Tables) → AreKept t → AreInOrder t → Fits (state_of t) (rows_of t) plan.now
        → (gathered : Given) → gathered.changes.items ≡ act.items
        → CarriesOut t plan.now.request.command gathered
        → AreForEdits (made_all t act.items).lots plan.now.edits.items edits.items
        → IsPlanned t changes.items plan.now) }
    ensures fits { IfOk result (λ changes. All ChangeFits changes.items) }
    ensures memory { (Obeys plan.now.request.command → HasKeptNumbers plan.now.reply)
        → IsOkUnless result Memory }
{
    // A request in hand has a command within its limits: it comes with that fact.
    let _ = plan.request.command();
    let receipt = receipt_row(alloc, &plan.request, plan.reply)?;
    let mut changes = act;
    let mut rest = edits;
    rest.push(TableChange::AddReceipt(receipt))?;
    changes.append(&mut rest)?;
    Ok(changes)
}

/// The changes of the tables that carry out a plan. What was found before isn't looked up again.
fn changes_by<S: Alter>(
    alloc: Global,
    conn: &mut Connection<S>,
    known_rows: KnownRows,
    plan: &Plan,
) -> Result<Vec<TableChange>, StatementFault>
    ensures gathers { LooksUp (state S.Store conn.old) (state S.Store conn.new) result
        (λ t changes. AreInTables known_rows t → AreKept t → AreInOrder t
        → Fits (state_of t) (rows_of t) plan.now → IsPlanned t changes.items plan.now) }
    ensures blames { BlamesDisk (state S.Store conn.old) (state S.Store conn.new) result
        (λ t. CanBePlanned t known_rows plan.now) }
    ensures outside { conn.old.in_transaction ≡ false → conn.new.in_transaction ≡ false }
    ensures fits { IfOk result (λ changes. All ChangeFits changes.items) }
{
    let KnownRows {
        own,
        basis,
        lots,
        edges: _,
    } = known_rows;
    let act = command_changes(alloc, conn, own, basis, &lots, plan)?;
    let mut added = act.added;
    added.extend_from_slice(&lots.found)?;
    let edits = changes_of_edits(alloc, conn, &added, &plan.edits)?;
    joined(alloc, act.changes, edits, plan)
}

/// The changes of the tables that carry out a plan, of which nothing is done yet, and what is known
/// once they are made. What was found before isn't looked up again.
///
/// # Errors
///
/// `Refused` where the tables lack what the plan needs or a number is used up, `Memory`, and the
/// errors of the statements.
pub fn plan_changes<S: Alter>(
    alloc: Global,
    conn: &mut Connection<S>,
    known_rows: KnownRows,
    plan: &Plan,
) -> Result<Planned, StatementFault>
    ensures gathers { LooksUp (state S.Store conn.old) (state S.Store conn.new) result
        (λ t planned. AreInTables known_rows t → AreKept t → AreInOrder t
        → Fits (state_of t) (rows_of t) plan.now → IsPlanned t planned.changes.items plan.now
        × IsBasisOf planned.after (made_all t planned.changes.items)) }
    ensures blames { BlamesDisk (state S.Store conn.old) (state S.Store conn.new) result
        (λ t. CanBePlanned t known_rows plan.now) }
    ensures outside { conn.old.in_transaction ≡ false → conn.new.in_transaction ≡ false }
    ensures fits { IfOk result (λ planned. All ChangeFits planned.changes.items) }
{
    let KnownRows {
        own,
        basis,
        lots,
        edges,
    } = known_rows;
    let basis = with_numbers(alloc, conn, basis, &plan.request.command)?;
    let completed = KnownRows {
        own,
        basis,
        lots,
        edges,
    };
    let changes = changes_by(alloc, conn, completed, plan)?;
    let after = after_changes(&basis, &changes);
    Ok(Planned { changes, after })
}
