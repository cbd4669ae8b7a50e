//! A registry over plain lists that is sent requests.
//!
//! A proof about a desk sees how many requests it was sent, and nothing of what keeps its records:
//! that is behind the methods of this file.

ghost use Rattle.std.specs.Prelude.{ℕ};

use goo_core_list::list_shelf::ListShelf;
use goo_core_shelf::found::DeviceTotals;
use goo_registry::{CancellationStatement, ReadFault, Registry, RunFault};
use goo_types::account_no::AccountNo;
use goo_types::act_no::ActNo;
use goo_types::day::Day;
use goo_types::fault::Fault;
use goo_types::holder_code::HolderCode;
use goo_types::key::Key;
use goo_types::lot::Lot;
use goo_types::notice::Notice;
use goo_types::number::Number;
use goo_types::outcome::Outcome;
use goo_types::piece::Piece;
use goo_types::place::Place;
use goo_types::registry_code::RegistryCode;
use goo_types::request::Request;
use goo_types::serial::Serial;
use itoa::Buffer;
use std::alloc::Global;
use std::marker::Model;
use std::process::Abort;

/// A registry over plain lists, and how many requests it was sent under a key of their own.
#[derive(Drop)]
pub struct TestDesk {
    registry: Registry<ListShelf>,
    alloc: Global,
    code: RegistryCode,
    sent: u32,
}

impl Model for TestDesk {
    ghost Value = { ℕ };

    ghost view = { λ desk. desk.sent };
}

impl TestDesk {
    /// A new registry, with a code and a date.
    pub fn new(alloc: Global, code: RegistryCode, today: Day) -> TestDesk {
        let serial = Serial::new(1).unwrap();
        let shelf = ListShelf::new(alloc, code, serial, today);
        TestDesk {
            registry: Registry::new(shelf),
            alloc,
            code,
            sent: 0,
        }
    }

    /// The memory that it takes from.
    pub fn alloc(&self) -> Global {
        self.alloc
    }

    /// The code of the registry.
    pub fn code(&self) -> RegistryCode {
        self.code
    }

    /// What keeps the records.
    pub fn into_lists(self) -> ListShelf {
        let TestDesk { registry, .. } = self;
        registry.into_shelf()
    }

    /// A key that no request had yet: the first is 1.
    pub fn next_key(&mut self, rt: &impl Abort) -> Key {
        self.sent = self.sent.checked_add(1).expect(rt, "too many requests");
        let mut digits = Buffer::new();
        Key::read(digits.format(self.sent).as_bytes()).expect(rt, "a key")
    }

    /// What a request comes to.
    pub fn apply(&mut self, request: &Request) -> Result<Outcome, Fault> {
        self.registry.apply(self.alloc, request)
    }

    /// What requests in a list come to.
    pub fn run(&mut self, requests: &[Request]) -> Result<Vec<Outcome>, RunFault> {
        self.registry.run(self.alloc, requests)
    }

    /// The lot and the place of a certificate, as a caller is shown them.
    pub fn place_of(
        &mut self,
        caller: &HolderCode,
        number: Number,
    ) -> Result<(Lot, Place), ReadFault> {
        self.registry.place_of(self.alloc, caller, number)
    }

    /// The runs of an account, as a caller is shown them.
    pub fn holdings(
        &mut self,
        caller: &HolderCode,
        account: AccountNo,
    ) -> Result<Vec<Piece>, ReadFault> {
        self.registry.holdings(self.alloc, caller, account)
    }

    /// A cancellation, as a caller is shown it.
    pub fn cancellation(
        &mut self,
        caller: &HolderCode,
        act: ActNo,
    ) -> Result<CancellationStatement, ReadFault> {
        self.registry.cancellation(self.alloc, caller, act)
    }

    /// A notice that was sent, as a caller is shown it.
    pub fn notice(&mut self, caller: &HolderCode, act: ActNo) -> Result<Notice, ReadFault> {
        self.registry.notice(self.alloc, caller, act)
    }

    /// The energy and the certificates of each device, as a caller is shown them.
    pub fn audit(&mut self, caller: &HolderCode) -> Result<Vec<DeviceTotals>, ReadFault> {
        self.registry.audit(self.alloc, caller)
    }
}
