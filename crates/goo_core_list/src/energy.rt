//! The energy that is left to each device.
ghost use Rattle.std.specs.Prelude.{◌≡◌, ◌<◌};
ghost use Rattle.goo_spec.specs.Correct.{correctable as lowerable};
ghost use Rattle.goo_spec.specs.Energy.{certificate, remaining as left_to, carry as carried_by};
ghost use Rattle.goo_core_list.specs.States.{state_of};

use crate::list_shelf::ListShelf;
use goo_types::day::Day;
use goo_types::gsrn::Gsrn;
use goo_types::limits;
use goo_types::wh::Wh;

/// The energy of one certificate, in Wh.
pub(crate) const CERTIFICATE: u128 = limits::CERTIFICATE as u128;

impl ListShelf {
    /// What is left of a device's declared energy, in Wh.
    #[tactic(auto, unfolding(crate::specs::States::state_of, goo_spec::specs::Energy::remaining, goo_spec::specs::Energy::total, goo_spec::specs::Energy::lowered))]
    fn remaining(&self, device: &Gsrn) -> u128
        ensures { result ≡ left_to (state_of self.now) device.now }
    {
        self.production
            .net(device)
            .saturating_sub(self.corrections.lowered(device))
    }

    /// What is left of it beside whole certificates, in Wh.
    #[tactic(auto, unfolding(goo_spec::specs::Energy::carry))]
    pub(crate) fn carry(&self, device: &Gsrn) -> u64
        ensures value { result ≡ carried_by (state_of self.now) device.now }
        ensures small { result < certificate }
    {
        u64::try_from(self.remaining(device) % CERTIFICATE).unwrap()
    }

    /// What can still be taken off a device's declaration that begins on a day, in Wh; None where
    /// there is no such declaration.
    #[tactic(auto, unfolding(crate::specs::States::state_of, goo_spec::specs::Correct::correctable))]
    pub(crate) fn correctable_for(&self, device: &Gsrn, first_day: Day) -> Option<Wh>
        ensures { result ≡ lowerable (state_of self.now) device.now first_day }
    {
        self.corrections
            .left(self.production.declarations(), device, first_day)
    }
}
