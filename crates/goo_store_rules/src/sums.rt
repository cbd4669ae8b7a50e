//! Sums by device, in one pass over what they are of.

ghost use Rattle.std.specs.Prelude.{◌≡◌, ℕ, ◌+◌, ◌<◌, ◌^◌, List, cond, sum_by, IfOk, OnOk};
ghost use Rattle.std.specs.Str.{bytes_eq};
ghost use Rattle.goo_spec.specs.Energy.{net as net_energy, net_of, less_of};
ghost use Rattle.goo_store_rules.specs.Summing.{sum_at};

use goo_core_shelf::correct_record::CorrectRecord;
use goo_types::command::Declare;
use goo_types::gsrn::Gsrn;
use std::alloc::{AllocError, Global};
use std::collections::BTreeMap;

/// The sum of a device, 0 where nothing was added to it.
pub fn sum_for(sums: &BTreeMap<Gsrn, u128>, device: &Gsrn) -> u128
    ensures { result ≡ sum_at sums.now device.now }
{
    match sums.get(device) {
        Some(sum) => *sum,
        None => 0,
    }
}

/// Adds to the sum of a device. It is looked up once, since an audit adds for each row.
///
/// # Errors
///
/// Where an allocation is refused.
pub fn add_to(sums: &mut BTreeMap<Gsrn, u128>, device: Gsrn, more: u128) -> Result<(), AllocError>
    requires { sum_at sums.old device + more < 2 ^ 128 }
    ensures { OnOk result
        ((q : List ℕ) → sum_at sums.new q ≡ sum_at sums.old q + cond (bytes_eq device q) more 0) }
{
    if more == 0 {
        return Ok(());
    }
    if let Some(sum) = sums.get_mut(&device) {
        *sum += more;
        return Ok(());
    }
    sums.insert(device, more)?;
    Ok(())
}

/// The net energy of a declaration, in Wh.
pub(crate) fn net(declaration: &Declare) -> u64
    ensures { result ≡ net_energy declaration.now }
{
    let aux = declaration.aux.get();
    declaration.gross.get().saturating_sub(aux)
}

/// The net energy that each device declared, in Wh.
///
/// # Errors
///
/// Where an allocation is refused.
pub fn sum_declared(alloc: Global, declared: &[Declare]) -> Result<BTreeMap<Gsrn, u128>, AllocError>
    ensures { IfOk result (λ sums. (q : List ℕ) → sum_at sums q ≡ sum_by (net_of q) declared.now) }
{
    let mut sums = BTreeMap::new(alloc);
    for declaration in declared {
        add_to(&mut sums, declaration.device, u128::from(net(declaration)))?;
    }
    Ok(sums)
}

/// What corrections took off the energy of each device, in Wh.
///
/// # Errors
///
/// Where an allocation is refused.
pub fn sum_lowered(
    alloc: Global,
    corrected: &[CorrectRecord],
) -> Result<BTreeMap<Gsrn, u128>, AllocError>
    ensures { IfOk result
        (λ sums. (q : List ℕ) → sum_at sums q ≡ sum_by (less_of q) corrected.now) }
{
    let mut sums = BTreeMap::new(alloc);
    for correction in corrected {
        add_to(
            &mut sums,
            correction.device,
            u128::from(correction.less.get()),
        )?;
    }
    Ok(sums)
}
