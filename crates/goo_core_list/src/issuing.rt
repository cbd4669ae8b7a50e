//! What is kept of declarations.
ghost use Rattle.std.specs.Prelude.{◌≡◌, ◌+◌, ◌≤◌, Some};
ghost use Rattle.std.specs.FinMap.{get};
ghost use Rattle.goo_types.specs.Lot.{IsLot};
ghost use Rattle.goo_spec.specs.State.{Device as Known, serials};
ghost use Rattle.goo_spec.specs.Declare.{earned as due_for, lot_of as lot_stated, with_issue};
ghost use Rattle.goo_core_list.specs.States.{state_of, Changes};
ghost use Rattle.goo_ranges_rows.specs.Certificates.{beside};

use crate::energy::CERTIFICATE;
use crate::list_shelf::ListShelf;
use crate::lots::key_of_lot;
use crate::maps::{find, put, put_back};
use crate::next_numbers::after_serials;
use goo_core_shelf::device::Device;
use goo_types::command::Declare;
use goo_types::fault::Fault;
use goo_types::lot::Lot;

impl ListShelf {
    /// How many certificates a declaration makes due: one for each further MWh that is left of what
    /// the device declared (Directive (EU) 2018/2001, Article 19(2)).
    fn earned(&self, declared: &Declare) -> u64
        ensures { result ≡ due_for (state_of self.now) declared.now }
    {
        let lowered = self.corrections.lowered(&declared.device);
        let before = self
            .production
            .net(&declared.device)
            .saturating_sub(lowered);
        let after = self.production.net_with(declared).saturating_sub(lowered);
        u64::try_from(after / CERTIFICATE - before / CERTIFICATE).unwrap()
    }

    /// The lot of the certificates that a declaration issues.
    #[tactic(auto, unfolding(crate::specs::States::state_of))]
    fn lot_of(&self, declared: &Declare, device: &Device) -> Lot
        requires { IsLot (lot_stated (state_of self.now) declared.now device.now) }
        ensures { result ≡ lot_stated (state_of self.now) declared.now device.now }
    {
        Lot::new(device.lot_fields(self.own, declared, self.today)).unwrap()
    }

    /// Keeps a declaration, and the lot of the certificates that are issued for it.
    #[tactic(auto, unfolding(crate::specs::States::state_of, goo_spec::specs::Declare::with_issue, goo_spec::specs::Declare::with_declaration))]
    pub(crate) fn add_declaration(&mut self, declared: &Declare) -> Result<(), Fault>
        requires lot { (device : Known)
            → get (state_of self.old).devices declared.now.device ≡ Some device
            → IsLot (lot_stated (state_of self.old) declared.now device) }
        requires numbers_left { (state_of self.old).next_serial + due_for
            (state_of self.old) declared.now ≤ serials }
        ensures { Changes self.old self.new result
            (beside (state_of self.old).at (with_issue (state_of self.old) declared.now)) }
    {
        let Some(device) = find(&self.devices, &declared.device) else {
            return Ok(());
        };
        let earned = self.earned(declared);
        if earned == 0 {
            return self.production.add(declared);
        }
        let lot = self.lot_of(declared, device);
        let key = key_of_lot(&lot);
        let before = put(&mut self.lots, key, lot)?;
        if let Err(fault) = self.production.add(declared) {
            put_back(&mut self.lots, key, before);
            return Err(fault);
        }
        self.counters = after_serials(self.counters, earned);
        Ok(())
    }
}
