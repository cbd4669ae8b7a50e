//! Registries that send one another notices, and where their certificates are.
//!
//! A certificate is at home in a registry that shows it and doesn't show it as exported. It is on
//! the road with a notice that names it and that its addressee hasn't accepted.

use crate::asking::ISSUER;
use crate::claims::holds;
use crate::desk::TestDesk;
use crate::values::{act_of, holder_of};
use goo_registry::ReadFault;
use goo_types::act_no::ActNo;
use goo_types::command::{Command, Import};
use goo_types::lot::Lot;
use goo_types::notice::Notice;
use goo_types::number::Number;
use goo_types::outcome::Outcome;
use goo_types::place::Place;
use goo_types::registry_code::RegistryCode;
use std::alloc::Global;
use std::process::Abort;

/// A notice that was sent, and whether its addressee accepted it.
#[derive(Drop)]
pub struct Letter {
    notice: Notice,
    is_accepted: bool,
}

impl Letter {
    /// The code of the registry that it is for.
    pub fn addressee(&self) -> u8 {
        self.notice.addressee().get()
    }

    /// The lot of a certificate, if the notice names it.
    fn lot_of(&self, number: Number) -> Option<Lot> {
        for part in self.notice.parts() {
            if part.range.first() <= number && number <= part.range.last() {
                return Some(part.lot);
            }
        }
        None
    }
}

/// Registries, and every notice that they ever sent.
#[derive(Drop)]
pub struct World {
    desks: Vec<TestDesk>,
    pub letters: Vec<Letter>,
}

/// The number of the next notice of a registry that has sent these.
fn next_notice(rt: &impl Abort, letters: &[Letter], sender: RegistryCode) -> ActNo {
    let mut number = 1u32;
    for letter in letters {
        if letter.notice.sender() == sender {
            number = number.saturating_add(1);
        }
    }
    act_of(rt, number)
}

/// A notice that a registry sent, as it shows it to the issuing body.
fn notice_of(rt: &impl Abort, desk: &mut TestDesk, act: ActNo) -> Option<Notice> {
    let issuer = holder_of(rt, ISSUER);
    match desk.notice(&issuer, act) {
        Ok(notice) => Some(notice),
        Err(ReadFault::Unknown) => None,
        Err(_) => panic!(rt; "a notice that isn't shown"),
    }
}

/// A notice behind those sent before: nobody has accepted it.
fn keep(rt: &impl Abort, letters: &mut Vec<Letter>, notice: Notice) {
    let letter = Letter {
        notice,
        is_accepted: false,
    };
    letters.push(letter).expect(rt, "memory")
}

/// What a registry shows the issuing body of a certificate, if it knows it.
fn known(rt: &impl Abort, desk: &mut TestDesk, number: Number) -> Option<(Lot, Place)> {
    let issuer = holder_of(rt, ISSUER);
    match desk.place_of(&issuer, number) {
        Ok(shown) => Some(shown),
        Err(ReadFault::Unknown) => None,
        Err(_) => panic!(rt; "a place that isn't shown"),
    }
}

/// Whether a place is in a registry, and not away from it.
fn is_home(place: Place) -> bool {
    !matches!(place, Place::Exported(_, _))
}

/// What a registry answers to a notice. Its addressee may accept it.
fn arrives(rt: &impl Abort, desk: &mut TestDesk, letter: &mut Letter) -> Outcome {
    let notice = letter.notice.copy(desk.alloc()).expect(rt, "memory");
    let outcome = desk.sends(rt, ISSUER, Command::Import(Import { notice }));
    if matches!(outcome, Outcome::Accepted(_)) && desk.code().get() == letter.addressee() {
        letter.is_accepted = true;
    }
    outcome
}

impl World {
    /// No registries yet.
    pub fn new(alloc: Global) -> World {
        World {
            desks: Vec::new(alloc),
            letters: Vec::new(alloc),
        }
    }

    /// One more registry, which has sent nothing.
    pub fn adds(&mut self, rt: &impl Abort, desk: TestDesk) {
        self.desks.push(desk).expect(rt, "memory")
    }

    /// What a registry answers to a request. A notice that it sends is on the road once it is
    /// collected.
    pub fn asks(&mut self, rt: &impl Abort, at: usize, caller: &str, body: &str) -> Outcome {
        let desk = self.desks.get_mut(at).expect(rt, "no such registry");
        desk.asks(rt, caller, body)
    }

    /// What a registry answers to a command under a key of its own.
    pub fn sends(&mut self, rt: &impl Abort, at: usize, caller: &str, command: Command) -> Outcome {
        let desk = self.desks.get_mut(at).expect(rt, "no such registry");
        desk.sends(rt, caller, command)
    }

    /// Collects the next notice of each registry, where it has sent one.
    pub fn collects(&mut self, rt: &impl Abort) {
        for desk in &mut self.desks {
            let number = next_notice(rt, &self.letters, desk.code());
            if let Some(notice) = notice_of(rt, desk, number) {
                keep(rt, &mut self.letters, notice);
            }
        }
    }

    /// What a registry answers to a notice that was sent.
    pub fn brings(&mut self, rt: &impl Abort, which: usize, to: usize) -> Outcome {
        let letter = self.letters.get_mut(which).expect(rt, "no such notice");
        let desk = self.desks.get_mut(to).expect(rt, "no such registry");
        arrives(rt, desk, letter)
    }

    /// Whether a registry has a certificate in an account.
    fn is_held_at(&mut self, rt: &impl Abort, at: usize, number: Number) -> bool {
        let desk = self.desks.get_mut(at).expect(rt, "no such registry");
        matches!(known(rt, desk, number), Some((_, Place::Held(_))))
    }

    /// Where the registry stands that has a certificate in an account, if one has.
    pub fn holder(&mut self, rt: &impl Abort, number: Number) -> Option<usize> {
        for at in 0..self.desks.len() {
            if self.is_held_at(rt, at, number) {
                return Some(at);
            }
        }
        None
    }

    /// Where the addressee of a notice stands.
    pub fn addressee(&self, rt: &impl Abort, which: usize) -> usize {
        let letter = self.letters.get(which).expect(rt, "no such notice");
        let code = letter.addressee();
        self.desks
            .iter()
            .position(|desk| desk.code().get() == code)
            .expect(rt, "no such registry")
    }

    /// How many notices are under way.
    pub fn under_way(&self) -> usize {
        let mut count = 0usize;
        for letter in &self.letters {
            if !letter.is_accepted {
                count = count.saturating_add(1);
            }
        }
        count
    }

    /// The code of the registry that a certificate is at home in, if any. None has two homes, and
    /// each registry that knows it knows it with this lot.
    pub fn home(&mut self, rt: &impl Abort, number: Number, lot: &Lot) -> Option<u8> {
        let mut home = None;
        for desk in &mut self.desks {
            let Some((other, place)) = known(rt, desk, number) else {
                continue;
            };
            holds(rt, other.is(lot), "another lot in a registry");
            if is_home(place) {
                holds(rt, home.is_none(), "two homes");
                home = Some(desk.code().get());
            }
        }
        home
    }

    /// The sender and the number of the notice that a certificate is on the road with, if any. None
    /// is on two, and each notice that names it states this lot.
    pub fn road(&self, rt: &impl Abort, number: Number, lot: &Lot) -> Option<(u8, u32)> {
        let mut road = None;
        for letter in &self.letters {
            let Some(other) = letter.lot_of(number) else {
                continue;
            };
            holds(rt, other.is(lot), "another lot on a notice");
            if !letter.is_accepted {
                holds(rt, road.is_none(), "two roads");
                road = Some((letter.notice.sender().get(), letter.notice.number().get()));
            }
        }
        road
    }
}
