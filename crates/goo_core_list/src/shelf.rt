//! The shelf in memory as a shelf.

ghost use Rattle.std.specs.Prelude.{◌≡◌};
ghost use Rattle.goo_spec_runs.specs.NextRun.{from_of};

use crate::list_shelf::ListShelf;
use crate::listed_reply::receipt_for;
use crate::lot_key::LotKey;
use crate::maps::find;
use crate::notices::{arrival_for, copy_sent};
use goo_core_shelf::account::Account;
use goo_core_shelf::cancel_record::CancelRecord;
use goo_core_shelf::counters::Counters;
use goo_core_shelf::device::Device;
use goo_core_shelf::found::{Arrival, DeviceRecord, DeviceTotals, Progress, Receipt};
use goo_core_shelf::own::Meta;
use goo_core_shelf::plan::Plan;
use goo_core_shelf::sent::Sent;
use goo_core_shelf::shelf::Shelf;
use goo_core_shelf::sought::Sought;
use goo_types::account_no::AccountNo;
use goo_types::act_no::ActNo;
use goo_types::command::Command;
use goo_types::day::Day;
use goo_types::fault::Fault;
use goo_types::gsrn::Gsrn;
use goo_types::holder_code::HolderCode;
use goo_types::key::Key;
use goo_types::lot::Lot;
use goo_types::name::Name;
use goo_types::notice::Notice;
use goo_types::number::Number;
use goo_types::piece::Piece;
use goo_types::range::Range;
use goo_types::registry_code::RegistryCode;
use goo_types::wh::Wh;
use std::alloc::Global;

/// The least number after one, or 0.
fn least_after(after: Option<Number>) -> u64
    ensures { result ≡ from_of after }
{
    match after {
        Some(number) => number.get() + 1,
        None => 0,
    }
}

impl Shelf for ListShelf {
    ghost use Rattle.goo_core_list.specs.Moments.{seen_in, safe_in};

    ghost seen = { seen_in };

    fn refused_calls(&self) -> u64 {
        0
    }

    fn probe(&mut self) -> Result<(), Fault> {
        Ok(())
    }

    fn registry(&mut self) -> Result<Meta, Fault> {
        Ok(self.own_meta())
    }

    fn code(&mut self) -> Result<RegistryCode, Fault> {
        Ok(self.own)
    }

    fn today(&mut self) -> Result<Day, Fault> {
        Ok(self.today)
    }

    fn counters(&mut self) -> Result<Counters, Fault> {
        Ok(self.counters)
    }

    fn holder(&mut self, code: &HolderCode) -> Result<Option<Name>, Fault> {
        Ok(find(&self.holders, code).copied())
    }

    fn account(&mut self, account: AccountNo) -> Result<Option<Account>, Fault> {
        Ok(find(&self.accounts, &account).copied())
    }

    fn device(&mut self, device: &Gsrn) -> Result<Option<Device>, Fault> {
        Ok(find(&self.devices, device).copied())
    }

    fn progress(&mut self, device: &Gsrn) -> Result<Progress, Fault> {
        Ok(self.progress_for(device))
    }

    fn device_record(&mut self, device: &Gsrn) -> Result<Option<DeviceRecord>, Fault> {
        Ok(self.record_of(device))
    }

    fn correctable(&mut self, device: &Gsrn, first_day: Day) -> Result<Option<Wh>, Fault> {
        Ok(self.correctable_for(device, first_day))
    }

    fn receipt(
        &mut self,
        _alloc: Global,
        caller: &HolderCode,
        key: &Key,
        command: &Command,
    ) -> Result<Receipt, Fault> {
        Ok(receipt_for(find(&self.receipts, &(*caller, *key)), command))
    }

    fn lot(
        &mut self,
        origin: RegistryCode,
        device: &Gsrn,
        first_day: Day,
    ) -> Result<Option<Lot>, Fault> {
        Ok(find(&self.lots, &LotKey::new(origin, *device, first_day)).copied())
    }

    fn peer(&mut self, code: RegistryCode) -> Result<bool, Fault> {
        Ok(find(&self.peers, &code).is_some())
    }

    fn arrived(&mut self, _alloc: Global, notice: &Notice) -> Result<Arrival, Fault> {
        let key = (notice.sender(), notice.number());
        Ok(arrival_for(find(&self.arrived, &key), notice))
    }

    fn sent(&mut self, alloc: Global, notice: ActNo) -> Result<Option<Sent>, Fault> {
        copy_sent(alloc, find(&self.sent, &notice))
    }

    fn cancelled(&mut self, cancellation: ActNo) -> Result<Option<CancelRecord>, Fault> {
        Ok(find(&self.cancellations, &cancellation).copied())
    }

    fn meeting(&mut self, alloc: Global, range: Range) -> Result<Vec<Piece>, Fault> {
        self.rows.meeting(alloc, range)
    }

    fn pieces_of(&mut self, alloc: Global, account: AccountNo) -> Result<Vec<Piece>, Fault> {
        self.rows.pieces_of(alloc, account)
    }

    fn holds(&mut self, account: AccountNo) -> Result<bool, Fault> {
        Ok(self.rows.holds(account))
    }

    fn next_of(
        &mut self,
        account: AccountNo,
        after: Option<Number>,
    ) -> Result<Option<Piece>, Fault> {
        let sought = Sought::Naming(account);
        Ok(self.rows.next_from(&sought, least_after(after)))
    }

    fn next_expiring(&mut self, day: Day, after: Option<Number>) -> Result<Option<Piece>, Fault> {
        let sought = Sought::Expiring(day);
        Ok(self.rows.next_from(&sought, least_after(after)))
    }

    fn totals(&mut self, alloc: Global) -> Result<Vec<DeviceTotals>, Fault> {
        self.all_totals(alloc)
    }

    fn commit(&mut self, alloc: Global, plan: &Plan) -> Result<(), Fault> {
        self.carry_out(alloc, plan)
    }

    ghost settled = { safe_in };

    ghost uncorrupted = { λ s none. none };
}
