//! What is looked up together.
ghost use Rattle.std.specs.Prelude.{◌≡◌};
ghost use Rattle.goo_core_shelf.specs.Meta.{meta_of};
ghost use Rattle.goo_core_shelf.specs.Shelf.{progress_of, IsRecordOf};
ghost use Rattle.goo_core_list.specs.States.{state_of};

use crate::list_shelf::ListShelf;
use crate::maps::find;
use goo_core_shelf::found::{DeviceRecord, Progress};
use goo_core_shelf::own::Meta;
use goo_types::gsrn::Gsrn;
use goo_types::wh::Wh;

impl ListShelf {
    /// What the registry knows of itself.
    #[tactic(auto, unfolding(crate::specs::States::state_of))]
    pub(crate) fn own_meta(&self) -> Meta
        ensures { result ≡ meta_of (state_of self.now) }
    {
        Meta {
            code: self.own,
            today: self.today,
            counters: self.counters,
        }
    }

    /// A device's last accepted period and its carry.
    #[tactic(auto, unfolding(crate::specs::States::state_of))]
    pub(crate) fn progress_for(&self, device: &Gsrn) -> Progress
        ensures { result ≡ progress_of (state_of self.now) device.now }
    {
        Progress {
            last_day: self.production.last_day(device),
            carry: Wh::new(self.carry(device)).unwrap(),
        }
    }

    /// A device with its last accepted period and its carry.
    #[tactic(auto, unfolding(crate::specs::States::state_of))]
    pub(crate) fn record_of(&self, device: &Gsrn) -> Option<DeviceRecord>
        ensures { IsRecordOf (state_of self.now) device.now result }
    {
        let found = find(&self.devices, device)?;
        Some(DeviceRecord {
            device: *found,
            progress: self.progress_for(device),
        })
    }
}
