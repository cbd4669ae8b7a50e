//! The energy and the certificates of each device.
//!
//! An audit goes through the tables in the order of their keys, a page at a time. Of what it read
//! it keeps sums by device alone, so its memory follows the devices, and not the declarations or
//! the rows.

ghost use Rattle.std.specs.Prelude.{◌≡◌, ◌≤◌, List, IfOk};
ghost use Rattle.std.specs.FinMap.{keys as keys_of};
ghost use Rattle.goo_core_shelf.specs.Shelf.{Looks, totals_of};
ghost use Rattle.goo_spec.specs.State.{Correction};
ghost use Rattle.goo_store_audit.specs.Counting.{IsBelow, IsPageAdded, IsTallyOf, all_numbers};
ghost use Rattle.goo_store_audit.specs.Summing.{AreTakenBy};
ghost use Rattle.goo_store_rules.specs.Correcting.{AreTakenBack};
ghost use Rattle.goo_store.specs.Seen.{Blames, seen_by};

use crate::sql_shelf::SqlShelf;
use goo_core_shelf::found::DeviceTotals;
use goo_store_audit::sums::totals_over;
use goo_store_audit::taken::Taken;
use goo_store_audit::tallies::{DeviceTally, count_found};
use goo_store_values::noting::note_fault;
use goo_tables_pages::device_pieces::page_of_pieces;
use goo_types::fault::Fault;
use goo_types::gsrn::Gsrn;
use goo_types::registry_code::RegistryCode;
use sqlite::Alter;
use std::alloc::Global;
use std::collections::BTreeSet;

impl<S: Alter> SqlShelf<S> {
    /// Counts a page of the rows that begin at `low` or later; the number after the last of them.
    fn count_page(
        &mut self,
        alloc: Global,
        own: RegistryCode,
        withdrawals: &BTreeSet<(Gsrn, u32)>,
        low: u64,
        tally: &mut DeviceTally,
    ) -> Result<u64, Fault>
        requires { IsBelow low tally.old }
        ensures looks { Looks (seen_by self.old) (seen_by self.new) result
            (λ next. IsPageAdded own withdrawals.now (seen_by self.old).rows low next
            tally.old tally.new) }
        ensures store { Blames self.old self.new result }
        ensures below { IfOk result (λ next. (low ≤ next) × IsBelow next tally.new) }
    {
        if self.refused {
            return Err(Fault::Store);
        }
        let found = page_of_pieces(alloc, &mut self.conn, low);
        self.cache.answered = found.is_ok();
        let next = count_found(own, withdrawals, found, low, tally);
        note_fault(next, &mut self.refused)
    }

    /// The certificates of each device in all rows, a page at a time.
    fn count_pages(
        &mut self,
        alloc: Global,
        own: RegistryCode,
        withdrawals: &BTreeSet<(Gsrn, u32)>,
    ) -> Result<DeviceTally, Fault>
        ensures looks { Looks (seen_by self.old) (seen_by self.new) result
            (λ tally. (cs : List Correction) → AreTakenBack cs withdrawals.now
            → IsTallyOf own cs (seen_by self.old).rows tally) }
        ensures store { Blames self.old self.new result }
        ensures below { IfOk result (IsBelow all_numbers) }
    {
        let mut tally = DeviceTally::none(alloc);
        let mut low = 0;
        let mut next = self.count_page(alloc, own, withdrawals, low, &mut tally)?;
        while low < next {
            low = next;
            next = self.count_page(alloc, own, withdrawals, low, &mut tally)?;
        }
        Ok(tally)
    }

    /// The totals of these devices, by the declarations, the rows and what corrections did.
    fn totals_beside(
        &mut self,
        alloc: Global,
        own: RegistryCode,
        devices: &[Gsrn],
        taken: &Taken,
    ) -> Result<Vec<DeviceTotals>, Fault>
        ensures looks { Looks (seen_by self.old) (seen_by self.new) result
            (λ totals. own ≡ (seen_by self.old).state.own
            → devices.now ≡ keys_of (seen_by self.old).state.devices
            → AreTakenBy (seen_by self.old).state.corrections taken.now
            → totals.items ≡ totals_of (seen_by self.old).state) }
        ensures store { Blames self.old self.new result }
    {
        let declared = self.net_energy(alloc)?;
        let tally = self.count_pages(alloc, own, &taken.withdrawals)?;
        let totals = totals_over(alloc, devices, &declared, &taken.lowered, &tally);
        note_fault(totals, &mut self.refused)
    }

    /// The totals of these devices.
    fn totals_of_devices(
        &mut self,
        alloc: Global,
        own: RegistryCode,
        devices: &[Gsrn],
    ) -> Result<Vec<DeviceTotals>, Fault>
        ensures looks { Looks (seen_by self.old) (seen_by self.new) result
            (λ totals. own ≡ (seen_by self.old).state.own
            → devices.now ≡ keys_of (seen_by self.old).state.devices
            → totals.items ≡ totals_of (seen_by self.old).state) }
        ensures store { Blames self.old self.new result }
    {
        let taken = self.taken(alloc)?;
        self.totals_beside(alloc, own, devices, &taken)
    }

    /// The totals of all devices, of the registry of this code.
    pub(crate) fn totals_by(
        &mut self,
        alloc: Global,
        own: RegistryCode,
    ) -> Result<Vec<DeviceTotals>, Fault>
        ensures looks { Looks (seen_by self.old) (seen_by self.new) result
            (λ totals. own ≡ (seen_by self.old).state.own
            → totals.items ≡ totals_of (seen_by self.old).state) }
        ensures store { Blames self.old self.new result }
    {
        let devices = self.device_numbers(alloc)?;
        self.totals_of_devices(alloc, own, &devices)
    }
}
