//! What corrections took off each device, and the withdrawals that they made.

ghost use Rattle.std.specs.Prelude.{IfOk, IsOkUnless};
ghost use Rattle.goo_store_audit.specs.Summing.{AreTakenBy};
ghost use Rattle.goo_store_values.specs.declared.statement_fault.StatementFault.TheVariants.{Memory};

use goo_core_shelf::correct_record::CorrectRecord;
use goo_store_rules::sums::sum_lowered;
use goo_store_rules::taken_back::withdrawals_of;
use goo_store_values::statement_fault::StatementFault;
use goo_types::gsrn::Gsrn;
use std::alloc::Global;
use std::collections::{BTreeMap, BTreeSet};

/// What corrections did to devices.
#[derive(Drop)]
pub struct Taken {
    /// What they took off the energy of each, in Wh.
    pub lowered: BTreeMap<Gsrn, u128>,
    /// The withdrawals that they made, each with its device.
    pub withdrawals: BTreeSet<(Gsrn, u32)>,
}

/// What these corrections did to devices.
///
/// # Errors
///
/// `Memory` where memory was refused.
pub fn taken_by(alloc: Global, corrections: &[CorrectRecord]) -> Result<Taken, StatementFault>
    ensures value { IfOk result (AreTakenBy corrections.now) }
    ensures memory { IsOkUnless result Memory }
{
    Ok(Taken {
        lowered: sum_lowered(alloc, corrections)?,
        withdrawals: withdrawals_of(alloc, corrections)?,
    })
}
