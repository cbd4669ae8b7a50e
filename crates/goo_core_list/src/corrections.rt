//! The accepted corrections.
ghost use Rattle.std.specs.Prelude.{◌≡◌, ◌-◌, [], ◌∷◌, ◌++◌, find, sum_by, IfErr, OnOk, OnErr};
ghost use Rattle.std.specs.List.{list_any};
ghost use Rattle.goo_types.specs.declared.fault.Fault.TheVariants.{Memory};
ghost use Rattle.goo_spec.specs.Energy.{less_of, withdrew as withdrew_by};
ghost use Rattle.goo_spec.specs.Energy.{lowered_by as lowered_for, begins, net};
ghost use Rattle.goo_spec.specs.Correct.{left_of};

use goo_core_shelf::correct_record::CorrectRecord;
use goo_types::act_no::ActNo;
use goo_types::command::Declare;
use goo_types::day::Day;
use goo_types::fault::Fault;
use goo_types::gsrn::Gsrn;
use goo_types::wh::Wh;
use std::alloc::Global;
use std::marker::Model;

/// The accepted corrections, the oldest first.
#[derive(Drop)]
pub struct Corrections {
    list: Vec<CorrectRecord>,
}

impl Model for Corrections {
    ghost use Rattle.std.specs.Prelude.{List};
    ghost use Rattle.goo_spec.specs.State.{Correction};

    ghost Value = { List Correction };

    ghost view = { λ c. c.list.items };
}

impl Corrections {
    /// No corrections.
    pub fn new(alloc: Global) -> Corrections
        ensures { result ≡ [] }
    {
        Corrections {
            list: Vec::new(alloc),
        }
    }

    /// What corrections took off a device's declared energy, in Wh.
    pub fn lowered(&self, device: &Gsrn) -> u128
        ensures { result ≡ sum_by (less_of device.now) self.now }
    {
        let mut sum: u128 = 0;
        for correction in &self.list {
            if correction.device == *device {
                sum += u128::from(correction.less.get());
            }
        }
        sum
    }

    /// What corrections took off a declaration, in Wh.
    fn lowered_by(&self, declaration: &Declare) -> u128
        ensures { result ≡ lowered_for self.now declaration.now }
    {
        let mut sum: u128 = 0;
        for correction in &self.list {
            if declaration.device == correction.device
                && declaration.first_day == correction.first_day
            {
                sum += u128::from(correction.less.get());
            }
        }
        sum
    }

    /// What can still be taken off a declaration, in Wh.
    fn left_off(&self, declaration: &Declare) -> Wh
        ensures { result ≡ net declaration.now - lowered_for self.now declaration.now }
    {
        let net = declaration
            .gross
            .get()
            .saturating_sub(declaration.aux.get());
        let left = u128::from(net).saturating_sub(self.lowered_by(declaration));
        Wh::new(u64::try_from(left).unwrap()).unwrap()
    }

    /// What can still be taken off a device's declaration that begins on a day, in Wh; None where
    /// there is no such declaration.
    pub fn left(&self, declarations: &[Declare], device: &Gsrn, first_day: Day) -> Option<Wh>
        ensures { result ≡ left_of self.now (find (begins device.now first_day) declarations.now) }
    {
        for declaration in declarations {
            if declaration.device == *device && declaration.first_day == first_day {
                return Some(self.left_off(declaration));
            }
        }
        None
    }

    /// Whether a correction of a device withdrew certificates under a number.
    pub fn withdrew(&self, device: &Gsrn, act: ActNo) -> bool
        ensures { result ≡ list_any (withdrew_by device.now act) self.now }
    {
        self.list
            .iter()
            .any(|c| c.device == *device && c.withdrawal == Some(act))
    }

    /// Adds a correction.
    ///
    /// # Errors
    ///
    /// `Memory` where an allocation was refused; nothing is added then.
    pub fn add(&mut self, correction: CorrectRecord) -> Result<(), Fault>
        ensures done { OnOk result (self.new ≡ self.old ++ correction ∷ []) }
        ensures undone { OnErr result (self.new ≡ self.old) }
        ensures memory { IfErr result (λ fault. fault ≡ Memory) }
    {
        self.list.reserve(1)?;
        let pushed: Result<_, _> = self.list.push(correction);
        pushed.unwrap();
        Ok(())
    }
}
