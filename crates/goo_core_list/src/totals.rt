//! The energy and the certificates of each device.
ghost use Rattle.std.specs.Prelude.{◌≡◌, map, IfOk, IfErr};
ghost use Rattle.std.specs.BTreeMap.{keys, IsOrdered};
ghost use Rattle.goo_spec.specs.State.{text_cmp};
ghost use Rattle.goo_types.specs.declared.fault.Fault.TheVariants.{Memory};
ghost use Rattle.goo_core_shelf.specs.Shelf.{totals_for as totals_stated};
ghost use Rattle.goo_core_list.specs.States.{state_of};

use crate::list_shelf::ListShelf;
use goo_core_shelf::found::DeviceTotals;
use goo_types::fault::Fault;
use goo_types::gsrn::Gsrn;
use std::alloc::Global;

impl ListShelf {
    /// A device's energy and certificates.
    #[tactic(auto, unfolding(crate::specs::States::state_of, goo_spec::specs::Energy::total, goo_spec::specs::Energy::lowered, goo_spec::specs::Energy::issued, goo_spec::specs::Energy::corrected))]
    fn totals_for(&self, device: &Gsrn) -> DeviceTotals
        ensures { result ≡ totals_stated (state_of self.now) device.now }
    {
        let counted = self.rows.counted(self.own, device, &self.corrections);
        DeviceTotals {
            device: *device,
            declared_wh: self.production.net(device),
            corrected_wh: self.corrections.lowered(device),
            issued: counted.issued,
            withdrawn_certificates: counted.corrected,
            carry_wh: self.carry(device),
        }
    }

    /// The energy and the certificates of each device, by device. It fails for want of memory
    /// alone.
    pub(crate) fn all_totals(&self, alloc: Global) -> Result<Vec<DeviceTotals>, Fault>
        ensures keyed { IfOk result
            (λ totals. totals.items
            ≡ map (totals_stated (state_of self.now)) (keys self.now.devices)) }
        ensures ordered { IsOrdered text_cmp self.now.devices }
        ensures memory { IfErr result (λ fault. fault ≡ Memory) }
    {
        let devices = self.devices.keys();
        Ok(
            devices
                .map(|device| self.totals_for(device))
                .collect(alloc)?,
        )
    }
}
