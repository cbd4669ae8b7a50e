//! What isn't of electricity, over tables and over lists: it has a row in the tables of carriers,
//! and nothing else has one there.

use crate::acts::Act;
use crate::asking::plays;
use crate::claims::holds;
use crate::damages::{Damage, are_refused};
use crate::deeds::{Deed, after, is_alike, shown, shows};
use crate::disks::blank;
use crate::script::requests;
use crate::texts::{Asked, AskedText, gives_all};
use crate::wanted::{CARRIED, CARRIED_THEN};
use crate::worked::{Exchange, exchanges};
use goo_core_shelf::shelf::Shelf;
use goo_registry::Registry;
use goo_store_open::fault::OpenFault;
use goo_tables::device::{all_devices, find_device};
use goo_tables::device_carrier::all_device_carriers;
use goo_tables::lot::{all_lots, find_lot, find_lot_by_id};
use goo_tables::lot_carrier::all_lot_carriers;
use sqlite::{Alter, Connection};
use std::alloc::Global;
use std::process::Abort;

/// How many of the script's requests come first: two accounts, and a device of the first one.
const DEVICE: usize = 5;

/// A device of hydrogen with a certificate beside two of electricity, a device of heat without one,
/// and certificates of three carriers that another registry sends.
const CARRIES: [Exchange; 6] = [
    (
        "ISSUER",
        r#"{"account":1,"capacity_w":2000000,"carrier":"hydrogen","command":"register_device","commissioned":"2020-06-15","country":"DE","device":"500000000000000029","key":"y1","site":"South field","source":"F01010100","support":"none","tech":"T010000"}"#,
        r#"{"outcome":"accepted","reply":{}}"#,
    ),
    (
        "ISSUER",
        r#"{"account":2,"capacity_w":2000000,"carrier":"heating-cooling","command":"register_device","commissioned":"2020-06-15","country":"DE","device":"500000000000000036","key":"y2","site":"Works","source":"F01010100","support":"none","tech":"T010000"}"#,
        r#"{"outcome":"accepted","reply":{}}"#,
    ),
    (
        "ISSUER",
        r#"{"aux_wh":0,"command":"declare","device":"500000000000000012","first_day":"2025-01-01","gross_wh":2000000,"key":"y3","last_day":"2025-01-31"}"#,
        r#"{"outcome":"accepted","reply":{"carry":0,"count":2,"first":"07000000000001","last":"07000000000002"}}"#,
    ),
    (
        "ISSUER",
        r#"{"aux_wh":0,"command":"declare","device":"500000000000000029","first_day":"2025-01-01","gross_wh":1000000,"key":"y4","last_day":"2025-01-31"}"#,
        r#"{"outcome":"accepted","reply":{"carry":0,"count":1,"first":"07000000000003","last":"07000000000003"}}"#,
    ),
    (
        "ISSUER",
        r#"{"command":"add_peer","key":"y5","peer":9}"#,
        r#"{"outcome":"accepted","reply":{}}"#,
    ),
    (
        "ISSUER",
        r#"{"command":"import","key":"y6","notice":{"account":1,"addressee":7,"number":1,"parts":[{"first":"09000000000001","last":"09000000000004","lot":{"capacity_w":1000,"carrier":"gas","commissioned":"2021-01-01","country":"NL","device":"500000000000000012","first_day":"2025-02-01","issued_on":"2025-03-01","last_day":"2025-02-28","origin":9,"site":"Pipe","source":"F01010100","support":"both","tech":"T010000"}},{"first":"09000000000005","last":"09000000000005","lot":{"capacity_w":1000,"carrier":"heating-cooling","commissioned":"2021-01-01","country":"NL","device":"500000000000000029","first_day":"2025-02-01","issued_on":"2025-03-01","last_day":"2025-02-28","origin":9,"site":"Pipe","source":"F01010100","support":"both","tech":"T010000"}},{"first":"09000000000006","last":"09000000000006","lot":{"capacity_w":1000,"carrier":"electricity","commissioned":"2021-01-01","country":"NL","device":"500000000000000036","first_day":"2025-02-01","issued_on":"2025-03-01","last_day":"2025-02-28","origin":9,"site":"Wire","source":"F01010100","support":"both","tech":"T010000"}}],"sender":9,"version":2}}"#,
        r#"{"outcome":"accepted","reply":{"count":6}}"#,
    ),
];

/// What is asked then: the hydrogen leaves, and comes back as hydrogen alone; the device has a
/// certificate more.
const GOES_ON: [Exchange; 6] = [
    (
        "ISSUER",
        r#"{"account":1,"capacity_w":2000000,"carrier":"hydrogen","command":"register_device","commissioned":"2020-06-15","country":"DE","device":"500000000000000029","key":"y1","site":"South field","source":"F01010100","support":"none","tech":"T010000"}"#,
        r#"{"outcome":"repeated","reply":{}}"#,
    ),
    (
        "ISSUER",
        r#"{"account":1,"capacity_w":2000000,"command":"register_device","commissioned":"2020-06-15","country":"DE","device":"500000000000000029","key":"y1","site":"South field","source":"F01010100","support":"none","tech":"T010000"}"#,
        r#"{"code":2,"name":"KeyReused","outcome":"refused"}"#,
    ),
    (
        "SUN",
        r#"{"account":5,"command":"export","first":"07000000000003","giver":1,"key":"y7","last":"07000000000003","peer":9}"#,
        r#"{"outcome":"accepted","reply":{"count":1,"notice":1}}"#,
    ),
    (
        "ISSUER",
        r#"{"command":"import","key":"y8","notice":{"account":1,"addressee":7,"number":2,"parts":[{"first":"07000000000003","last":"07000000000003","lot":{"capacity_w":2000000,"carrier":"gas","commissioned":"2020-06-15","country":"DE","device":"500000000000000029","first_day":"2025-01-01","issued_on":"2025-03-01","last_day":"2025-01-31","origin":7,"site":"South field","source":"F01010100","support":"none","tech":"T010000"}}],"sender":9,"version":2}}"#,
        r#"{"code":26,"name":"LotDiffers","number":"07000000000003","outcome":"refused"}"#,
    ),
    (
        "ISSUER",
        r#"{"command":"import","key":"y9","notice":{"account":1,"addressee":7,"number":2,"parts":[{"first":"07000000000003","last":"07000000000003","lot":{"capacity_w":2000000,"carrier":"hydrogen","commissioned":"2020-06-15","country":"DE","device":"500000000000000029","first_day":"2025-01-01","issued_on":"2025-03-01","last_day":"2025-01-31","origin":7,"site":"South field","source":"F01010100","support":"none","tech":"T010000"}}],"sender":9,"version":2}}"#,
        r#"{"outcome":"accepted","reply":{"count":1}}"#,
    ),
    (
        "ISSUER",
        r#"{"aux_wh":0,"command":"declare","device":"500000000000000029","first_day":"2025-02-01","gross_wh":1000000,"key":"y10","last_day":"2025-02-28"}"#,
        r#"{"outcome":"accepted","reply":{"carry":0,"count":1,"first":"07000000000004","last":"07000000000004"}}"#,
    ),
];

/// What the first account holds before that, and after.
const BEFORE: [Asked; 1] = [("SUN", AskedText::Holdings(1), Ok(CARRIED))];

const AFTER: [Asked; 1] = [("SUN", AskedText::Holdings(1), Ok(CARRIED_THEN))];

/// The rows of the tables of carriers before that, and after.
const ROWS: &str =
    "500000000000000029 hydrogen\n500000000000000036 heating-cooling\n2 hydrogen\n3 gas\n4 heating-cooling\n";

const ROWS_THEN: &str =
    "500000000000000029 hydrogen\n500000000000000036 heating-cooling\n2 hydrogen\n3 gas\n4 heating-cooling\n6 hydrogen\n";

/// Rows of carriers that are damaged.
const DAMAGES: [Damage; 12] = [
    (
        "INSERT INTO lot_carrier VALUES (9, 'gas')",
        "DELETE FROM lot_carrier WHERE lot = 9",
        OpenFault::Damaged,
    ),
    (
        "INSERT INTO lot_carrier VALUES (-1, 'gas')",
        "DELETE FROM lot_carrier WHERE lot = -1",
        OpenFault::Damaged,
    ),
    (
        "INSERT INTO lot_carrier VALUES (1, 'electricity')",
        "DELETE FROM lot_carrier WHERE lot = 1",
        OpenFault::Damaged,
    ),
    (
        "UPDATE lot_carrier SET carrier = 'electricity' WHERE lot = 3",
        "UPDATE lot_carrier SET carrier = 'gas' WHERE lot = 3",
        OpenFault::Damaged,
    ),
    (
        "UPDATE lot_carrier SET carrier = 'Gas' WHERE lot = 3",
        "UPDATE lot_carrier SET carrier = 'gas' WHERE lot = 3",
        OpenFault::Damaged,
    ),
    (
        "UPDATE lot_carrier SET carrier = '' WHERE lot = 3",
        "UPDATE lot_carrier SET carrier = 'gas' WHERE lot = 3",
        OpenFault::Damaged,
    ),
    (
        "INSERT INTO device_carrier VALUES ('500000000000000043', 'gas')",
        "DELETE FROM device_carrier WHERE gsrn = '500000000000000043'",
        OpenFault::Damaged,
    ),
    (
        "INSERT INTO device_carrier VALUES ('', 'gas')",
        "DELETE FROM device_carrier WHERE gsrn = ''",
        OpenFault::Damaged,
    ),
    (
        "INSERT INTO device_carrier VALUES ('500000000000000012', 'electricity')",
        "DELETE FROM device_carrier WHERE gsrn = '500000000000000012'",
        OpenFault::Damaged,
    ),
    (
        "UPDATE device_carrier SET carrier = 'electricity' WHERE gsrn = '500000000000000036'",
        "UPDATE device_carrier SET carrier = 'heating-cooling' WHERE gsrn = '500000000000000036'",
        OpenFault::Damaged,
    ),
    (
        "UPDATE device_carrier SET carrier = 'heating' WHERE gsrn = '500000000000000036'",
        "UPDATE device_carrier SET carrier = 'heating-cooling' WHERE gsrn = '500000000000000036'",
        OpenFault::Damaged,
    ),
    (
        "DELETE FROM device WHERE gsrn = '500000000000000036'",
        "INSERT INTO device VALUES ('500000000000000036', 2, 'DE', 'Works', 'T010000', 'F01010100', 2000000, '2020-06-15', 'none', NULL, 0)",
        OpenFault::Damaged,
    ),
];

/// Certificates of each carrier, from a new registry on, and what is held then.
pub fn carries<S: Shelf>(rt: &impl Abort, alloc: Global, registry: &mut Registry<S>) {
    let first = requests().get(..DEVICE).expect(rt, "so many requests");
    plays(rt, alloc, registry, first, 0);
    exchanges(rt, alloc, registry, &CARRIES);
    gives_all(rt, alloc, registry, &BEFORE)
}

/// What is held of each carrier, and what is asked of that.
pub fn trades_carriers<S: Shelf>(rt: &impl Abort, alloc: Global, registry: &mut Registry<S>) {
    gives_all(rt, alloc, registry, &BEFORE);
    exchanges(rt, alloc, registry, &GOES_ON);
    gives_all(rt, alloc, registry, &AFTER)
}

/// A line for a row of a table of carriers: of what, and which.
fn adds_row(rt: &impl Abort, alloc: Global, text: &mut String, of: &str, carrier: &str) {
    let line = format!(in alloc; "{of} {carrier}\n").expect(rt, "memory");
    text.push_str(&line).expect(rt, "memory");
}

/// All rows of the tables of carriers, those of devices first.
fn rows_of<S: Alter>(rt: &impl Abort, alloc: Global, conn: &mut Connection<S>) -> String {
    let mut text = String::new(alloc);
    for row in &all_device_carriers(alloc, conn).expect(rt, "devices") {
        adds_row(rt, alloc, &mut text, &row.gsrn, &row.carrier);
    }
    for row in &all_lot_carriers(alloc, conn).expect(rt, "lots") {
        let lot = format!(in alloc; "{}", row.lot).expect(rt, "memory");
        adds_row(rt, alloc, &mut text, &lot, &row.carrier);
    }
    text
}

/// A word, or none.
fn is_word(found: &Option<String>, wanted: Option<&str>) -> bool {
    match (found, wanted) {
        (Some(found), Some(wanted)) => found.as_str() == wanted,
        (found, wanted) => found.is_none() && wanted.is_none(),
    }
}

/// A look-up of a device gives its carrier; where all are read none has one.
fn finds_devices<S: Alter>(rt: &impl Abort, alloc: Global, conn: &mut Connection<S>) {
    for (gsrn, carrier) in [
        ("500000000000000012", None),
        ("500000000000000029", Some("hydrogen")),
        ("500000000000000036", Some("heating-cooling")),
    ] {
        let found = find_device(alloc, conn, gsrn);
        let is_so = matches!(&found, Ok(Some(row)) if is_word(&row.carrier, carrier));
        holds(rt, is_so, gsrn);
    }
    for row in &all_devices(alloc, conn).expect(rt, "devices") {
        holds(rt, row.carrier.is_none(), "no carrier of a device");
    }
}

/// The same of a lot.
fn finds_lots<S: Alter>(rt: &impl Abort, alloc: Global, conn: &mut Connection<S>) {
    let found = find_lot(alloc, conn, 9, "500000000000000012", "2025-02-01");
    let is_so = matches!(&found, Ok(Some(row)) if is_word(&row.carrier, Some("gas")));
    holds(rt, is_so, "the lot of gas");
    for (id, carrier) in [(1, None), (2, Some("hydrogen")), (5, None)] {
        let found = find_lot_by_id(alloc, conn, id);
        let is_so = matches!(&found, Ok(Some(row)) if is_word(&row.carrier, carrier));
        holds(rt, is_so, "a lot by its number");
    }
    for row in &all_lots(alloc, conn).expect(rt, "lots") {
        holds(rt, row.carrier.is_none(), "no carrier of a lot");
    }
}

/// The tables of carriers have these rows, and look-ups of devices and lots give them.
pub fn finds_carriers<S: Alter>(
    rt: &impl Abort,
    alloc: Global,
    conn: &mut Connection<S>,
    wanted: &str,
) {
    let rows = rows_of(rt, alloc, conn);
    holds(rt, rows.as_str() == wanted, wanted);
    finds_devices(rt, alloc, conn);
    finds_lots(rt, alloc, conn)
}

#[test]
fn over_tables_and_lists(rt: HostRuntime) {
    is_alike(&rt, rt.alloc(), 1, Act::Carries, "carriers")
}

#[test]
fn a_row_for_each_that_is_not_of_electricity(rt: HostRuntime) {
    let alloc = rt.alloc();
    let begins = Deed::Begins(1, Act::Carries);
    let (begun, disks) = shown(&rt, alloc, blank(alloc), &begins);
    let disks = after(&rt, alloc, disks, &Deed::FindsCarriers(ROWS));
    let disks = shows(&rt, alloc, disks, &Deed::Opens(Act::Rests), &begun);
    let (then, disks) = shown(&rt, alloc, disks, &Deed::Opens(Act::TradesCarriers));
    let disks = after(&rt, alloc, disks, &Deed::FindsCarriers(ROWS_THEN));
    let _disks = shows(&rt, alloc, disks, &Deed::Opens(Act::Rests), &then);
}

#[test]
fn damages_of_carriers_are_met(rt: HostRuntime) {
    let alloc = rt.alloc();
    let begins = Deed::Begins(1, Act::Carries);
    let (begun, disks) = shown(&rt, alloc, blank(alloc), &begins);
    let disks = are_refused(&rt, alloc, disks, &DAMAGES);
    let _disks = shows(&rt, alloc, disks, &Deed::Opens(Act::Rests), &begun);
}
