//! What keeps a registry's state: the look-ups and the one change.

use crate::account::Account;
use crate::cancel_record::CancelRecord;
use crate::counters::Counters;
use crate::device::Device;
use crate::found::{Arrival, DeviceRecord, DeviceTotals, Progress, Receipt};
use crate::own::Meta;
use crate::plan::Plan;
use crate::sent::Sent;
use goo_types::account_no::AccountNo;
use goo_types::act_no::ActNo;
use goo_types::command::Command;
use goo_types::day::Day;
use goo_types::fault::Fault;
use goo_types::gsrn::Gsrn;
use goo_types::holder_code::HolderCode;
use goo_types::key::Key;
use goo_types::lot::Lot;
use goo_types::name::Name;
use goo_types::notice::Notice;
use goo_types::number::Number;
use goo_types::piece::Piece;
use goo_types::range::Range;
use goo_types::registry_code::RegistryCode;
use goo_types::wh::Wh;
use std::alloc::Global;

/// What keeps a registry's state, however it does.
///
/// A look-up finds what the state has, and leaves state and rows as they are. `Fault::Store` is
/// answered exactly where `refused_calls` is 1 as the call ends, and it never goes back to 0. After
/// `Fault::Memory` state and rows are as they were. What is found, and that state and rows stay,
/// holds while what lies below works, returns what was written, and nobody else writes there; for
/// plain lists that is always.
pub trait Shelf {
    ghost use Rattle.std.specs.Prelude.{◌≡◌, ⊤, IfOk};
    ghost use Rattle.std.specs.FinMap.{get, contains_key};
    ghost use Rattle.std.specs.List.{list_any};
    ghost use Rattle.goo_types.specs.Piece.{IsRising};
    ghost use Rattle.goo_spec.specs.Correct.{correctable as lowerable};
    ghost use Rattle.goo_spec.specs.Lots.{lot_key, is_held_by};
    ghost use Rattle.goo_ranges_rows.specs.Rows.{meeting as near};
    ghost use Rattle.goo_core_shelf.specs.Counters.{counters_of};
    ghost use Rattle.goo_core_shelf.specs.Meta.{meta_of};
    ghost use Rattle.std.specs.Prelude.{IfSome};
    ghost use Rattle.goo_spec_runs.specs.NextRun.{from_of};
    ghost use Rattle.goo_core_shelf.specs.Rows.{naming_account, next_row, next_expiring_row};
    ghost use Rattle.goo_core_shelf.specs.Rows.{EndsFrom};
    ghost use Rattle.goo_core_shelf.specs.Shelf.{Moment, Looks, LeavesNoMore, IsSafe};
    ghost use Rattle.goo_core_shelf.specs.Shelf.{progress_of, IsRecordOf};
    ghost use Rattle.goo_core_shelf.specs.Shelf.{receipt_of, arrival_of, totals_of};
    ghost use Rattle.goo_core_shelf.specs.Plan.{Fits, Commits};

    /// What it keeps, and how well, at this moment.
    ghost seen: { Self → Moment };

    /// How many calls were refused by what lies below, for another cause than memory: 0 in a new
    /// shelf, and 1 from the first one on.
    fn refused_calls(&self) -> u64
        ensures { result ≡ (seen self.now).refusals };

    /// Whether what lies below still answers. After `Memory` it may have failed too, which the fault
    /// doesn't tell; this call does.
    ///
    /// `leaves`: it puts nothing where a crash finds it, even where a call failed before.
    ///
    /// # Errors
    ///
    /// `Store` where `refused_calls` is 1 as the call ends, `Memory` where memory was refused.
    /// State and rows stay.
    fn probe(&mut self) -> Result<(), Fault>
        ensures looks { Looks (seen self.old) (seen self.new) result (λ _. ⊤) }
        ensures leaves { LeavesNoMore (seen self.old) (seen self.new) };

    /// What the registry knows of itself, in one look-up.
    ///
    /// # Errors
    ///
    /// `Store` where `refused_calls` is 1 as the call ends, `Memory` where memory was refused.
    /// State and rows stay.
    fn registry(&mut self) -> Result<Meta, Fault>
        ensures { Looks (seen self.old) (seen self.new) result
            (λ meta. meta ≡ meta_of (seen self.old).state) };

    /// The registry's own code.
    ///
    /// # Errors
    ///
    /// `Store` where `refused_calls` is 1 as the call ends, `Memory` where memory was refused.
    /// State and rows stay.
    fn code(&mut self) -> Result<RegistryCode, Fault>
        ensures { Looks (seen self.old) (seen self.new) result
            (λ code. code ≡ (seen self.old).state.own) };

    /// The registry's date.
    ///
    /// # Errors
    ///
    /// `Store` where `refused_calls` is 1 as the call ends, `Memory` where memory was refused.
    /// State and rows stay.
    fn today(&mut self) -> Result<Day, Fault>
        ensures { Looks (seen self.old) (seen self.new) result
            (λ day. day ≡ (seen self.old).state.today) };

    /// The next number of each kind.
    ///
    /// # Errors
    ///
    /// `Store` where `refused_calls` is 1 as the call ends, `Memory` where memory was refused.
    /// State and rows stay.
    fn counters(&mut self) -> Result<Counters, Fault>
        ensures { Looks (seen self.old) (seen self.new) result
            (λ counters. counters ≡ counters_of (seen self.old).state) };

    /// The name of a holder.
    ///
    /// # Errors
    ///
    /// `Store` where `refused_calls` is 1 as the call ends, `Memory` where memory was refused.
    /// State and rows stay.
    fn holder(&mut self, code: &HolderCode) -> Result<Option<Name>, Fault>
        ensures { Looks (seen self.old) (seen self.new) result
            (λ name. name ≡ get (seen self.old).state.holders code.now) };

    /// An account.
    ///
    /// # Errors
    ///
    /// `Store` where `refused_calls` is 1 as the call ends, `Memory` where memory was refused.
    /// State and rows stay.
    fn account(&mut self, account: AccountNo) -> Result<Option<Account>, Fault>
        ensures { Looks (seen self.old) (seen self.new) result
            (λ found. found ≡ get (seen self.old).state.accounts account) };

    /// A device.
    ///
    /// # Errors
    ///
    /// `Store` where `refused_calls` is 1 as the call ends, `Memory` where memory was refused.
    /// State and rows stay.
    fn device(&mut self, device: &Gsrn) -> Result<Option<Device>, Fault>
        ensures { Looks (seen self.old) (seen self.new) result
            (λ found. found ≡ get (seen self.old).state.devices device.now) };

    /// A device's last accepted period and its carry.
    ///
    /// # Errors
    ///
    /// `Store` where `refused_calls` is 1 as the call ends, `Memory` where memory was refused.
    /// State and rows stay.
    fn progress(&mut self, device: &Gsrn) -> Result<Progress, Fault>
        ensures { Looks (seen self.old) (seen self.new) result
            (λ progress. progress ≡ progress_of (seen self.old).state device.now) };

    /// A device with its last accepted period and its carry, in one look-up.
    ///
    /// # Errors
    ///
    /// `Store` where `refused_calls` is 1 as the call ends, `Memory` where memory was refused.
    /// State and rows stay.
    fn device_record(&mut self, device: &Gsrn) -> Result<Option<DeviceRecord>, Fault>
        ensures { Looks (seen self.old) (seen self.new) result
            (IsRecordOf (seen self.old).state device.now) };

    /// What can still be taken off a device's declaration that begins on a day, in Wh; None where
    /// there is no such declaration.
    ///
    /// # Errors
    ///
    /// `Store` where `refused_calls` is 1 as the call ends, `Memory` where memory was refused.
    /// State and rows stay.
    fn correctable(&mut self, device: &Gsrn, first_day: Day) -> Result<Option<Wh>, Fault>
        ensures { Looks (seen self.old) (seen self.new) result
            (λ left. left ≡ lowerable (seen self.old).state device.now first_day) };

    /// What is kept under a caller's key: nothing, this command with its reply, or another command.
    ///
    /// # Errors
    ///
    /// `Store` where `refused_calls` is 1 as the call ends, `Memory` where memory was refused.
    /// State and rows stay.
    fn receipt(
        &mut self,
        alloc: Global,
        caller: &HolderCode,
        key: &Key,
        command: &Command,
    ) -> Result<Receipt, Fault>
        ensures { Looks (seen self.old) (seen self.new) result
            (λ receipt. receipt
            ≡ receipt_of (get (seen self.old).state.receipts (caller.now, key.now)) command.now) };

    /// The known lot of an origin, a device and a first day.
    ///
    /// # Errors
    ///
    /// `Store` where `refused_calls` is 1 as the call ends, `Memory` where memory was refused.
    /// State and rows stay.
    fn lot(
        &mut self,
        origin: RegistryCode,
        device: &Gsrn,
        first_day: Day,
    ) -> Result<Option<Lot>, Fault>
        ensures { Looks (seen self.old) (seen self.new) result
            (λ lot. lot ≡ get (seen self.old).state.lots (lot_key origin device.now first_day)) };

    /// Whether another registry is known.
    ///
    /// # Errors
    ///
    /// `Store` where `refused_calls` is 1 as the call ends, `Memory` where memory was refused.
    /// State and rows stay.
    fn peer(&mut self, code: RegistryCode) -> Result<bool, Fault>
        ensures { Looks (seen self.old) (seen self.new) result
            (λ known. known ≡ contains_key (seen self.old).state.peers code) };

    /// What is kept for a notice's sender and number: nothing, this notice, or another one.
    ///
    /// # Errors
    ///
    /// `Store` where `refused_calls` is 1 as the call ends, `Memory` where memory was refused.
    /// State and rows stay.
    fn arrived(&mut self, alloc: Global, notice: &Notice) -> Result<Arrival, Fault>
        ensures { Looks (seen self.old) (seen self.new) result
            (λ arrival. arrival
            ≡ arrival_of
            (get (seen self.old).state.arrived (notice.now.sender, notice.now.number))
            notice.now) };

    /// A notice that was sent.
    ///
    /// # Errors
    ///
    /// `Store` where `refused_calls` is 1 as the call ends, `Memory` where memory was refused.
    /// State and rows stay.
    fn sent(&mut self, alloc: Global, notice: ActNo) -> Result<Option<Sent>, Fault>
        ensures { Looks (seen self.old) (seen self.new) result
            (λ found. found ≡ get (seen self.old).state.sent notice) };

    /// The record of a cancellation.
    ///
    /// # Errors
    ///
    /// `Store` where `refused_calls` is 1 as the call ends, `Memory` where memory was refused.
    /// State and rows stay.
    fn cancelled(&mut self, cancellation: ActNo) -> Result<Option<CancelRecord>, Fault>
        ensures { Looks (seen self.old) (seen self.new) result
            (λ found. found ≡ get (seen self.old).state.cancellations cancellation) };

    /// The rows with a number of the range or next to one, rising.
    ///
    /// # Errors
    ///
    /// `Store` where `refused_calls` is 1 as the call ends, `Memory` where memory was refused.
    /// State and rows stay.
    fn meeting(&mut self, alloc: Global, range: Range) -> Result<Vec<Piece>, Fault>
        ensures looks { Looks (seen self.old) (seen self.new) result
            (λ met. met.items ≡ near range (seen self.old).rows) }
        ensures rising { IfOk result (λ met. IsRising met.items) };

    /// The rows whose place names an account, rising.
    ///
    /// # Errors
    ///
    /// `Store` where `refused_calls` is 1 as the call ends, `Memory` where memory was refused.
    /// State and rows stay.
    fn pieces_of(&mut self, alloc: Global, account: AccountNo) -> Result<Vec<Piece>, Fault>
        ensures looks { Looks (seen self.old) (seen self.new) result
            (λ met. met.items ≡ naming_account account (seen self.old).rows) }
        ensures rising { IfOk result (λ met. IsRising met.items) };

    /// Whether an account holds a certificate.
    ///
    /// # Errors
    ///
    /// `Store` where `refused_calls` is 1 as the call ends, `Memory` where memory was refused.
    /// State and rows stay.
    fn holds(&mut self, account: AccountNo) -> Result<bool, Fault>
        ensures { Looks (seen self.old) (seen self.new) result
            (λ holds. holds ≡ list_any (λ p. is_held_by account p.place) (seen self.old).rows) };

    /// The least row whose place names an account and that ends after a number, or the least of all
    /// its rows; None where there is no such row.
    ///
    /// # Errors
    ///
    /// `Store` where `refused_calls` is 1 as the call ends, `Memory` where memory was refused.
    /// State and rows stay.
    fn next_of(&mut self, account: AccountNo, after: Option<Number>) -> Result<Option<Piece>, Fault>
        ensures looks { Looks (seen self.old) (seen self.new) result
            (λ found. found ≡ next_row account after (seen self.old).rows) }
        ensures ahead { IfOk result (λ found. IfSome found (EndsFrom (from_of after))) };

    /// The least held row whose lot is over on a day and that ends after a number, or the least of
    /// all such rows; None where there is no such row.
    ///
    /// # Errors
    ///
    /// `Store` where `refused_calls` is 1 as the call ends, `Memory` where memory was refused.
    /// State and rows stay.
    fn next_expiring(&mut self, day: Day, after: Option<Number>) -> Result<Option<Piece>, Fault>
        ensures looks { Looks (seen self.old) (seen self.new) result
            (λ found. found ≡ next_expiring_row day after (seen self.old).rows) }
        ensures ahead { IfOk result (λ found. IfSome found (EndsFrom (from_of after))) };

    /// The energy and the certificates of each device, by device.
    ///
    /// # Errors
    ///
    /// `Store` where `refused_calls` is 1 as the call ends, `Memory` where memory was refused.
    /// State and rows stay.
    fn totals(&mut self, alloc: Global) -> Result<Vec<DeviceTotals>, Fault>
        ensures { Looks (seen self.old) (seen self.new) result
            (λ totals. totals.items ≡ totals_of (seen self.old).state) };

    /// The whole change of a plan, or none.
    ///
    /// # Errors
    ///
    /// `Store` where `refused_calls` is 1 as the call ends, `Memory` where memory was refused.
    /// Nothing of the change is done: state and rows stay.
    fn commit(&mut self, alloc: Global, plan: &Plan) -> Result<(), Fault>
        requires { (seen self.old).defects ≡ 0
            → Fits (seen self.old).state (seen self.old).rows plan.now }
        ensures { Commits (seen self.old) (seen self.new) result plan.now };

    /// While there is no defect, a crash leaves the state and nothing else.
    ghost settled: { (s : Self) → (seen s).defects ≡ 0 → IsSafe (seen s) (seen s).state };

    /// Nothing is corrupted where there is no defect.
    ghost uncorrupted: { (s : Self) → (seen s).defects ≡ 0 → (seen s).corruptions ≡ 0 };
}
