//! A registry's state in plain lists and trees.
ghost use Rattle.std.specs.Prelude.{◌≡◌, []};
ghost use Rattle.goo_core_shelf.specs.Counters.{AreNumbers, next_numbers};
ghost use Rattle.goo_spec.specs.Created.{created};
ghost use Rattle.goo_spec.specs.Sound.{IsSound};
ghost use Rattle.goo_ranges_rows.specs.Rows.{AreRowsOf};
ghost use Rattle.goo_core_list.specs.States.{state_of};

use crate::corrections::Corrections;
use crate::listed_declarations::ListedDeclarations;
use crate::listed_reply::ListedReply;
use crate::lot_key::LotKey;
use crate::maps::empty_map;
use crate::rows::Rows;
use crate::withdraw_record::WithdrawRecord;
use goo_core_shelf::account::Account;
use goo_core_shelf::cancel_record::CancelRecord;
use goo_core_shelf::counters::Counters;
use goo_core_shelf::device::Device;
use goo_core_shelf::sent::Sent;
use goo_types::account_no::AccountNo;
use goo_types::act_no::ActNo;
use goo_types::day::Day;
use goo_types::gsrn::Gsrn;
use goo_types::holder_code::HolderCode;
use goo_types::key::Key;
use goo_types::lot::Lot;
use goo_types::name::Name;
use goo_types::notice::Notice;
use goo_types::registry_code::RegistryCode;
use goo_types::serial::Serial;
use std::alloc::Global;
use std::collections::BTreeMap;

/// A registry's state in plain memory: it is gone when the program ends.
#[derive(Drop)]
pub struct ListShelf {
    pub(crate) own: RegistryCode,
    pub(crate) today: Day,
    pub(crate) counters: Counters,
    pub(crate) rows: Rows,
    pub(crate) lots: BTreeMap<LotKey, Lot>,
    pub(crate) holders: BTreeMap<HolderCode, Name>,
    pub(crate) accounts: BTreeMap<AccountNo, Account>,
    pub(crate) devices: BTreeMap<Gsrn, Device>,
    pub(crate) production: ListedDeclarations,
    pub(crate) corrections: Corrections,
    pub(crate) peers: BTreeMap<RegistryCode, ()>,
    pub(crate) receipts: BTreeMap<(HolderCode, Key), ListedReply>,
    pub(crate) arrived: BTreeMap<(RegistryCode, ActNo), Notice>,
    pub(crate) sent: BTreeMap<ActNo, Sent>,
    pub(crate) cancellations: BTreeMap<ActNo, CancelRecord>,
    pub(crate) withdrawals: BTreeMap<ActNo, WithdrawRecord>,
}

impl ListShelf {
    /// The shelf of a new registry, which knows nothing but its code, its date and its next serial.
    /// It keeps `alloc` for what comes.
    ///
    /// # Example
    ///
    /// ```rust,ignore
    /// let code = RegistryCode::new(7).unwrap();
    /// let next_serial = Serial::new(1).unwrap();
    /// let today = Day::read("2025-03-01".as_bytes())?;
    /// let shelf = ListShelf::new(alloc, code, next_serial, today);
    /// let mut registry = Registry::new(shelf);
    /// ```
    pub fn new(alloc: Global, code: RegistryCode, next_serial: Serial, today: Day) -> ListShelf
        ensures state { state_of result ≡ created code today next_serial }
        ensures sound { IsSound (state_of result) }
        ensures rows { AreRowsOf (state_of result).at result.rows.pieces }
    {
        let _code = code.get();
        let _serial = next_serial.get();
        ListShelf::empty(alloc, code, next_serial, today)
    }

    /// A shelf with empty lists.
    #[tactic(auto, unfolding(crate::specs::States::state_of, goo_ranges_rows::specs::Certificates::certificates_of, goo_spec::specs::Created::created))]
    fn empty(alloc: Global, code: RegistryCode, next_serial: Serial, today: Day) -> ListShelf
        ensures state { state_of result ≡ created code today next_serial }
        ensures rows { result.rows.pieces ≡ [] }
    {
        ListShelf {
            own: code,
            today,
            counters: Counters::new(next_serial.get(), 1, 1, 1, 1).unwrap(),
            rows: Rows::new(alloc),
            lots: empty_map(alloc),
            holders: empty_map(alloc),
            accounts: empty_map(alloc),
            devices: empty_map(alloc),
            production: ListedDeclarations::new(alloc),
            corrections: Corrections::new(alloc),
            peers: empty_map(alloc),
            receipts: empty_map(alloc),
            arrived: empty_map(alloc),
            sent: empty_map(alloc),
            cancellations: empty_map(alloc),
            withdrawals: empty_map(alloc),
        }
    }
}
