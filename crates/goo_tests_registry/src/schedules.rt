//! Notices that are lost, repeated, late or sent astray, by chance, among three registries: after
//! each event each certificate has one home, or is on one road, and one lot wherever it is known.

use crate::asking::SUN;
use crate::claims::holds;
use crate::dice::Dice;
use crate::lots::{Batch, lot_of};
use crate::three::{CERTIFICATES, three};
use crate::values::{account_of, code_of, day_of, number_of, range_of};
use crate::world::World;
use goo_types::carrier::Carrier;
use goo_types::command::{Cancel, Command, Export};
use goo_types::name::Name;
use goo_types::outcome::Outcome;
use goo_types::range::Range;
use goo_types::refusal::Refusal;
use std::alloc::Global;
use std::process::Abort;

/// How many schedules are tried.
const SCHEDULES: u64 = 1000;
/// How many events a schedule has.
const EVENTS: u64 = 24;

/// How often notices were sent and accepted, and what else became of them.
#[derive(Clone, Copy)]
struct ScheduleTally {
    sent: u64,
    accepted: u64,
    repeated: u64,
    astray: u64,
    late: u64,
}

/// A registry by chance.
fn some_code(dice: &mut Dice) -> u8 {
    match dice.below(3) {
        0 => 7,
        1 => 8,
        _ => 9,
    }
}

/// Some of the certificates of a registry, by chance.
fn some_range(rt: &impl Abort, dice: &mut Dice) -> Range {
    let code = some_code(dice);
    let first = 1 + dice.below(CERTIFICATES);
    let last = first.max(1 + dice.below(CERTIFICATES));
    range_of(rt, code, first, last)
}

/// A range used up.
fn cancel(rt: &impl Abort, range: Range) -> Command {
    Command::Cancel(Cancel {
        account: account_of(rt, 1),
        range,
        beneficiary: Name::read(b"Baker").expect(rt, "a name"),
        use_first: day_of(rt, "2025-01-01"),
        use_last: day_of(rt, "2025-03-31"),
    })
}

/// A range for account 1 at a registry.
fn export(rt: &impl Abort, peer: u8, range: Range) -> Command {
    Command::Export(Export {
        giver: account_of(rt, 1),
        peer: code_of(rt, peer),
        account: account_of(rt, 1),
        range,
    })
}

/// A range for an account at some registry, or used up, by chance.
fn some_command(rt: &impl Abort, dice: &mut Dice, range: Range) -> Command {
    if dice.below(10) == 0 {
        return cancel(rt, range);
    }
    export(rt, some_code(dice), range)
}

/// Where some of a range are held, the holder sends all of it away, or uses it up: he may, whether
/// or not all are there.
fn asks(rt: &impl Abort, world: &mut World, dice: &mut Dice) {
    let range = some_range(rt, dice);
    if let Some(at) = world.holder(rt, range.first()) {
        let command = some_command(rt, dice, range);
        let outcome = world.sends(rt, at, SUN, command);
        holds(
            rt,
            outcome != Outcome::Refused(Refusal::NotAllowed),
            "what is asked is allowed",
        );
        world.collects(rt);
    }
}

/// A notice comes to its addressee, or astray to a registry: it is accepted, or repeated with what
/// was answered before, or for another registry.
fn delivers(
    rt: &impl Abort,
    world: &mut World,
    tally: &mut ScheduleTally,
    which: usize,
    astray: Option<usize>,
) {
    let to = match astray {
        Some(to) => to,
        None => world.addressee(rt, which),
    };
    let outcome = world.brings(rt, which, to);
    if matches!(outcome, Outcome::Accepted(_)) {
        tally.accepted = tally.accepted.wrapping_add(1);
    } else if matches!(outcome, Outcome::Repeated(_)) {
        tally.repeated = tally.repeated.wrapping_add(1);
    } else {
        holds(
            rt,
            outcome == Outcome::Refused(Refusal::WrongRegistry),
            "a notice astray is refused",
        );
        tally.astray = tally.astray.wrapping_add(1);
    }
}

/// One of the notices that were sent, accepted before or not, comes to its addressee, or astray.
fn brings(
    rt: &impl Abort,
    world: &mut World,
    dice: &mut Dice,
    tally: &mut ScheduleTally,
    is_astray: bool,
) {
    let count = world.letters.len();
    if count == 0 {
        return;
    }
    let which = dice.below(count as u64) as usize;
    let anywhere = dice.below(3) as usize;
    delivers(rt, world, tally, which, is_astray.then_some(anywhere))
}

/// One event by chance, and what it adds to the tally.
fn happens(rt: &impl Abort, world: &mut World, dice: &mut Dice, tally: &mut ScheduleTally) {
    match dice.below(10) {
        0..=4 => asks(rt, world, dice),
        5 => brings(rt, world, dice, tally, true),
        _ => brings(rt, world, dice, tally, false),
    }
}

/// What the device of a registry makes.
fn carrier_of(code: u8) -> Carrier {
    match code {
        8 => Carrier::Gas,
        9 => Carrier::Hydrogen,
        _ => Carrier::Electricity,
    }
}

/// The lot of a certificate, as the registry of its code issued it.
fn lot_from(code: u8, serial: u64) -> Batch {
    let (first, last) = if serial < 3 {
        ("2025-01-01", "2025-01-15")
    } else {
        ("2025-01-16", "2025-01-31")
    };
    Batch {
        origin: code,
        first,
        last,
        carrier: carrier_of(code),
    }
}

/// The certificates of a registry have one home each or are on one road, and have the lot that it
/// issued.
fn stand(rt: &impl Abort, world: &mut World, code: u8) {
    for serial in 1..=CERTIFICATES {
        let lot = lot_of(rt, &lot_from(code, serial));
        let number = number_of(rt, code, serial);
        let home = world.home(rt, number, &lot);
        let road = world.road(rt, number, &lot);
        holds(
            rt,
            home.is_some() != road.is_some(),
            "at home or on the road",
        );
    }
}

/// All certificates do.
fn all_stand(rt: &impl Abort, world: &mut World) {
    stand(rt, world, 7);
    stand(rt, world, 8);
    stand(rt, world, 9)
}

/// One schedule, from the registries' creation.
fn schedule(rt: &impl Abort, alloc: Global, seed: u64, tally: &mut ScheduleTally) {
    let mut world = three(rt, alloc);
    let mut dice = Dice::new(seed);
    for _ in 0..EVENTS {
        happens(rt, &mut world, &mut dice, tally);
        all_stand(rt, &mut world);
    }
    tally.sent = tally.sent.wrapping_add(world.letters.len() as u64);
    tally.late = tally.late.wrapping_add(world.under_way() as u64);
}

#[test]
fn a_thousand_schedules(rt: HostRuntime) {
    let mut tally = ScheduleTally {
        sent: 0,
        accepted: 0,
        repeated: 0,
        astray: 0,
        late: 0,
    };
    for seed in 0..SCHEDULES {
        schedule(&rt, rt.alloc(), seed, &mut tally);
    }
    holds(
        &rt,
        tally.sent > SCHEDULES
            && tally.accepted > SCHEDULES
            && tally.repeated > SCHEDULES
            && tally.astray > SCHEDULES / 2
            && tally.late > SCHEDULES / 10
            && tally.sent == tally.accepted.wrapping_add(tally.late),
        "a schedule of each kind",
    );
}
