//! Rows of `correction` as corrections.

ghost use Rattle.std.specs.Prelude.{◌≡◌, true, map, IsSome, IfSome, IfOk, OnOk, ◌++◌, ◌∷◌, []};
ghost use Rattle.std.specs.List.{list_all};
ghost use Rattle.goo_tables_rows.specs.Rows.{correction_in};
ghost use Rattle.goo_spec_tables.specs.Records.{act_or_none, correction_of};
ghost use Rattle.goo_spec_tables.specs.Readable.{is_correction, is_maybe_act};

use crate::declares::gsrn_in;
use goo_core_shelf::correct_record::CorrectRecord;
use goo_tables_rows::correction::CorrectionRow;
use goo_types::act_no::ActNo;
use goo_types::day::Day;
use goo_types::wh::Wh;
use std::alloc::{AllocError, Global};

/// The act that a number names, 0 for none.
fn act_in(number: u32) -> Option<Option<ActNo>>
    ensures value { IfSome result (λ act. act ≡ act_or_none number) }
    ensures readable { is_maybe_act number ≡ true → IsSome result }
{
    if number == 0 {
        return Some(None);
    }
    match ActNo::new(number) {
        Some(act) => Some(Some(act)),
        None => None,
    }
}

/// The correction in a row, where each of its values is one.
fn correct_in(row: &CorrectionRow) -> Option<CorrectRecord>
    ensures value { IfSome result (λ c. c ≡ correction_of (correction_in row.now)) }
    ensures readable { is_correction (correction_in row.now) ≡ true → IsSome result }
{
    Some(CorrectRecord {
        device: gsrn_in(&row.device)?,
        first_day: Day::read(row.first_day.as_bytes()).ok()?,
        less: Wh::new(row.less)?,
        withdrawal: act_in(row.withdrawal)?,
    })
}

/// One correction more.
fn push(corrected: &mut Vec<CorrectRecord>, correction: CorrectRecord) -> Result<(), AllocError>
    ensures { OnOk result (corrected.new.items ≡ corrected.old.items ++ correction ∷ []) }
{
    corrected.extend_from_slice(&[correction])
}

/// The corrections in rows, where each value is one.
///
/// # Errors
///
/// Where an allocation is refused.
pub fn corrects_in(
    alloc: Global,
    rows: &[CorrectionRow],
) -> Result<Option<Vec<CorrectRecord>>, AllocError>
    ensures value { IfOk result
        (λ o. IfSome o (λ cs. cs.items ≡ map correction_of (map correction_in rows.now))) }
    ensures readable { list_all (λ row. is_correction (correction_in row)) rows.now ≡ true
        → IfOk result IsSome }
{
    let mut corrected = Vec::new(alloc);
    for row in rows {
        let Some(correction) = correct_in(row) else {
            return Ok(None);
        };
        push(&mut corrected, correction)?;
    }
    Ok(Some(corrected))
}
