//! What an accepted correction changes in the tables: what withdraws the certificates in excess, if
//! there are some, then the correction and its device's carry.

ghost use Rattle.std.specs.Prelude.{◌≡◌, ◌<◌, ◌^◌, ℕ, false, true, List, All, IfOk, IsOkUnless};
ghost use Rattle.std.specs.Prelude.{IsTrue};
ghost use Rattle.sqlite.specs.Held.{state};
ghost use Rattle.goo_types.specs.declared.command.Command.TheVariants as command;
ghost use Rattle.goo_types.specs.declared.reply.Reply.TheVariants.{Corrected};
ghost use Rattle.goo_spec.specs.Correct.{correct_refusal, correct_reply, taken_out};
ghost use Rattle.goo_tables_rows.specs.Rows.{Tables, correction_in, meta_in};
ghost use Rattle.goo_tables_accounts.specs.Changes.{CorrectionFits};
ghost use Rattle.goo_spec_tables.specs.Records.{correction_of};
ghost use Rattle.goo_spec_tables.specs.Kept.{AreKept};
ghost use Rattle.goo_spec_tables.specs.Readable.{is_correction, is_meta};
ghost use Rattle.goo_spec_tables.specs.States.{state_of};
ghost use Rattle.goo_store_plans.specs.Carried.{AreInOrder, Carry, Does};
ghost use Rattle.goo_store_changes.specs.Changes.{ChangeFits};
ghost use Rattle.goo_store_plans.specs.Correcting.{CanBeCorrected, CanTakeOut, IsBasis, Lowers};
ghost use Rattle.goo_store_plans.specs.Correcting.{TakesOut};
ghost use Rattle.goo_store_plans.specs.Found.{IsBasisOf};
ghost use Rattle.goo_store_plans.specs.LookingUp.{LooksUp};
ghost use Rattle.goo_store_plans.specs.StoreFaults.{BlamesDisk};
ghost use Rattle.goo_store_values.specs.declared.statement_fault.StatementFault.TheVariants.{Memory};

use crate::act_changes::withdraw;
use crate::correction_basis::{CorrectionBasis, find_basis};
use crate::device_progress::progress_change;
use crate::known_rows::KnownBasis;
use crate::new_rows::{act_or_zero, day_string};
use goo_store_changes::table_change::TableChange;
use goo_store_values::statement_fault::StatementFault;
use goo_tables_rows::correction::CorrectionRow;
use goo_tables_rows::meta::MetaRow;
use goo_types::act_no::ActNo;
use goo_types::command::{Correct, Withdraw};
use sqlite::{Alter, Connection};
use std::alloc::Global;

/// The row of a correction under a number, with the withdrawal that it makes, if any.
fn correction_row(
    alloc: Global,
    accepted: &Correct,
    number: u64,
    withdrawal: Option<ActNo>,
) -> Result<CorrectionRow, StatementFault>
    ensures id { IfOk result (λ row. row.id ≡ number) }
    ensures states { IfOk result
        (λ row. correction_of (correction_in row)
        ≡ record {
          device = accepted.now.device;
          first_day = accepted.now.first_day;
          less =
              accepted.now.less;
          withdrawal = withdrawal;
        }) }
    ensures reads { IfOk result (λ row. is_correction (correction_in row) ≡ true) }
    ensures fits { IfOk result CorrectionFits }
    ensures memory { number < 2 ^ 63 → IsOkUnless result Memory }
{
    if number >= 1 << 63 {
        return Err(StatementFault::Refused);
    }
    Ok(CorrectionRow {
        id: number,
        device: String::from_str(alloc, accepted.device.text())?,
        first_day: day_string(alloc, accepted.first_day)?,
        less: accepted.less.get(),
        withdrawal: act_or_zero(withdrawal),
    })
}

/// The correction and its device's carry in Wh.
fn lowering(
    alloc: Global,
    accepted: &Correct,
    carry: u64,
    withdrawal: Option<ActNo>,
    basis: &CorrectionBasis,
) -> Result<Vec<TableChange>, StatementFault>
    ensures lowers { IfOk result
        (λ changes. Lowers accepted.now carry withdrawal basis.now changes.items) }
    ensures fits { IfOk result (λ changes. All ChangeFits changes.items) }
    ensures memory { basis.now.number < 2 ^ 63 → carry < 2 ^ 63 → IsOkUnless result Memory }
{
    let row = correction_row(alloc, accepted, basis.number, withdrawal)?;
    let progress = progress_change(alloc, &accepted.device, basis.last_day, carry)?;
    Ok(vec![in alloc; TableChange::AddCorrection(row), progress]?)
}

/// What withdraws the certificates in excess, if there are some.
fn excess_withdrawn(
    alloc: Global,
    meta: &MetaRow,
    accepted: &Correct,
) -> Result<Vec<TableChange>, StatementFault>
    ensures takes { IfOk result
        (λ changes. (t : Tables) → t.meta ≡ meta_in meta.now → AreKept t → AreInOrder t
        → (caller : List ℕ) → correct_refusal (state_of t) caller accepted.now ≡ None
        → TakesOut t (taken_out (state_of t) accepted.now accepted.now.range) changes.items) }
    ensures fits { IfOk result (λ changes. All ChangeFits changes.items) }
    ensures memory { IsTrue (is_meta (meta_in meta.now)) → CanTakeOut meta.now accepted.now.range
        → IsOkUnless result Memory }
{
    match accepted.range {
        None => Ok(Vec::new(alloc)),
        Some(range) => withdraw(
            alloc,
            meta,
            &Withdraw {
                range,
                reason: accepted.reason,
            },
        ),
    }
}

/// What an accepted correction changes, by what was found for it and the reply that it gets.
fn corrected_changes(
    alloc: Global,
    meta: &MetaRow,
    accepted: &Correct,
    carry: u64,
    withdrawal: Option<ActNo>,
    basis: &CorrectionBasis,
) -> Result<Vec<TableChange>, StatementFault>
    ensures does { IfOk result
        (λ changes. (t : Tables) (count : ℕ) → t.meta ≡ meta_in meta.now
        → IsBasis t accepted.now.device basis.now
        → correct_reply (state_of t) accepted.now ≡ Corrected carry count withdrawal
        → Does t (command.Correct accepted.now) changes.items) }
    ensures fits { IfOk result (λ changes. All ChangeFits changes.items) }
    ensures memory { IsTrue (is_meta (meta_in meta.now)) → CanTakeOut meta.now accepted.now.range
        → basis.now.number < 2 ^ 63 → carry < 2 ^ 63 → IsOkUnless result Memory }
{
    let mut changes = excess_withdrawn(alloc, meta, accepted)?;
    let mut lowered = lowering(alloc, accepted, carry, withdrawal, basis)?;
    changes.append(&mut lowered)?;
    Ok(changes)
}

/// What an accepted correction changes, by the carry in Wh and the withdrawal that its reply
/// states. What is known of its basis isn't looked up.
///
/// # Errors
///
/// `Refused` where the device isn't registered or has no accepted period, or a number is too large,
/// `Memory`, and the errors of the statements.
pub fn correct_changes<S: Alter>(
    alloc: Global,
    conn: &mut Connection<S>,
    meta: &MetaRow,
    known: KnownBasis,
    accepted: &Correct,
    carry: u64,
    withdrawal: Option<ActNo>,
) -> Result<Vec<TableChange>, StatementFault>
    ensures looks { LooksUp (state S.Store conn.old) (state S.Store conn.new) result
        (λ t changes. (count : ℕ) → t.meta ≡ meta_in meta.now → IsBasisOf known t
        → correct_reply (state_of t) accepted.now ≡ Corrected carry count withdrawal
        → Does t (command.Correct accepted.now) changes.items) }
    ensures blames { BlamesDisk (state S.Store conn.old) (state S.Store conn.new) result
        (λ t. CanBeCorrected t known meta.now accepted.now carry) }
    ensures fits { IfOk result (λ changes. All ChangeFits changes.items) }
    ensures outside { conn.old.in_transaction ≡ false → conn.new.in_transaction ≡ false }
{
    let basis = find_basis(alloc, conn, known, &accepted.device)?;
    corrected_changes(alloc, meta, accepted, carry, withdrawal, &basis)
}
