//! Requests that are sent, each of which is accepted.

use crate::claims::holds;
use goo_core_list::list_shelf::ListShelf;
use goo_core_shelf::shelf::Shelf;
use goo_desk_body::read_command;
use goo_registry::Registry;
use goo_types::day::Day;
use goo_types::holder_code::HolderCode;
use goo_types::outcome::Outcome;
use goo_types::registry_code::RegistryCode;
use goo_types::serial::Serial;
use std::alloc::Global;
use std::process::Abort;

/// Who sends, and what.
pub type SentLine = (&'static str, &'static str);

/// Two holders with an account each.
pub const MEMBERS: [SentLine; 4] = [
    (
        "ISSUER",
        r#"{"command":"open_holder","holder":"SUN","key":"s1","name":"Sun Power"}"#,
    ),
    (
        "ISSUER",
        r#"{"command":"open_account","holder":"SUN","key":"s2"}"#,
    ),
    (
        "ISSUER",
        r#"{"command":"open_holder","holder":"VOLT","key":"s3","name":"Volt"}"#,
    ),
    (
        "ISSUER",
        r#"{"command":"open_account","holder":"VOLT","key":"s4"}"#,
    ),
];

/// A device of the first.
pub const DEVICE: [SentLine; 1] = [(
    "ISSUER",
    r#"{"account":1,"capacity_w":2000000,"command":"register_device","commissioned":"2020-06-15","country":"DE","device":"500000000000000012","key":"s5","site":"North field","source":"F01010100","support":"none","tech":"T010000"}"#,
)];

/// The certificates of January, the carry of February, and the certificate of March, declared on 5
/// April.
pub const QUARTER: [SentLine; 4] = [
    (
        "ISSUER",
        r#"{"aux_wh":34567890,"command":"declare","device":"500000000000000012","first_day":"2025-01-01","gross_wh":1234567890,"key":"s6","last_day":"2025-01-31"}"#,
    ),
    (
        "ISSUER",
        r#"{"aux_wh":0,"command":"declare","device":"500000000000000012","first_day":"2025-02-01","gross_wh":999999,"key":"s7","last_day":"2025-02-28"}"#,
    ),
    (
        "ISSUER",
        r#"{"command":"advance","day":"2025-04-05","key":"s8"}"#,
    ),
    (
        "ISSUER",
        r#"{"aux_wh":0,"command":"declare","device":"500000000000000012","first_day":"2025-03-01","gross_wh":1,"key":"s9","last_day":"2025-03-31"}"#,
    ),
];

/// A hundred certificates given away.
pub const GIVEN_AWAY: [SentLine; 1] = [(
    "SUN",
    r#"{"command":"transfer","first":"07000000000100","giver":1,"key":"t1","last":"07000000000199","taker":2}"#,
)];

/// They are given back.
pub const GIVEN_BACK: [SentLine; 1] = [(
    "VOLT",
    r#"{"command":"transfer","first":"07000000000100","giver":2,"key":"t2","last":"07000000000199","taker":1}"#,
)];

/// Ten certificates used for a bakery.
pub const CANCELLATION: [SentLine; 1] = [(
    "SUN",
    r#"{"account":1,"beneficiary":"Bäckerei Müller","command":"cancel","first":"07000000000001","key":"c1","last":"07000000000010","use_first":"2025-01-01","use_last":"2025-03-31"}"#,
)];

/// February is lowered to nothing, which takes the certificate of March back, and January by the Wh
/// that is carried then.
pub const CORRECTIONS: [SentLine; 2] = [
    (
        "ISSUER",
        r#"{"command":"correct","device":"500000000000000012","first":"07000000001201","first_day":"2025-02-01","key":"r1","last":"07000000001201","less_wh":999999,"reason":"meter read twice"}"#,
    ),
    (
        "ISSUER",
        r#"{"command":"correct","device":"500000000000000012","first":"","first_day":"2025-01-01","key":"r2","last":"","less_wh":1,"reason":"meter read twice"}"#,
    ),
];

/// An account with one certificate, which is cancelled, and closed.
pub const CLOSING: [SentLine; 3] = [
    (
        "ISSUER",
        r#"{"aux_wh":0,"command":"declare","device":"500000000000000012","first_day":"2025-01-01","gross_wh":1000000,"key":"k1","last_day":"2025-01-31"}"#,
    ),
    (
        "SUN",
        r#"{"account":1,"beneficiary":"Bakery","command":"cancel","first":"07000000000001","key":"k2","last":"07000000000001","use_first":"2025-01-01","use_last":"2025-01-31"}"#,
    ),
    (
        "SUN",
        r#"{"account":1,"command":"close_account","key":"k3"}"#,
    ),
];

/// A device whose site has quotes and a comma in its name, with one certificate.
pub const QUOTED: [SentLine; 2] = [
    (
        "ISSUER",
        r#"{"account":2,"capacity_w":2000000,"command":"register_device","commissioned":"2020-06-15","country":"DE","device":"500000000000000029","key":"q1","site":"Field \"B\", north","source":"F01010100","support":"both","tech":"T010000"}"#,
    ),
    (
        "ISSUER",
        r#"{"aux_wh":0,"command":"declare","device":"500000000000000029","first_day":"2025-01-01","gross_wh":1000000,"key":"q2","last_day":"2025-01-31"}"#,
    ),
];

/// A device of hydrogen, with one certificate beside two of electricity, and another registry,
/// which sends certificates of gas and of heat.
pub const CARRIERS: [SentLine; 5] = [
    (
        "ISSUER",
        r#"{"account":1,"capacity_w":2000000,"carrier":"hydrogen","command":"register_device","commissioned":"2020-06-15","country":"DE","device":"500000000000000029","key":"y1","site":"South field","source":"F01010100","support":"none","tech":"T010000"}"#,
    ),
    (
        "ISSUER",
        r#"{"aux_wh":0,"command":"declare","device":"500000000000000012","first_day":"2025-01-01","gross_wh":2000000,"key":"y2","last_day":"2025-01-31"}"#,
    ),
    (
        "ISSUER",
        r#"{"aux_wh":0,"command":"declare","device":"500000000000000029","first_day":"2025-01-01","gross_wh":1000000,"key":"y3","last_day":"2025-01-31"}"#,
    ),
    ("ISSUER", r#"{"command":"add_peer","key":"y4","peer":9}"#),
    (
        "ISSUER",
        r#"{"command":"import","key":"y5","notice":{"account":1,"addressee":7,"number":1,"parts":[{"first":"09000000000001","last":"09000000000004","lot":{"capacity_w":1000,"carrier":"gas","commissioned":"2021-01-01","country":"NL","device":"500000000000000012","first_day":"2025-02-01","issued_on":"2025-03-01","last_day":"2025-02-28","origin":9,"site":"Pipe","source":"F01010100","support":"both","tech":"T010000"}},{"first":"09000000000005","last":"09000000000005","lot":{"capacity_w":1000,"carrier":"heating-cooling","commissioned":"2021-01-01","country":"NL","device":"500000000000000029","first_day":"2025-02-01","issued_on":"2025-03-01","last_day":"2025-02-28","origin":9,"site":"Pipe","source":"F01010100","support":"both","tech":"T010000"}}],"sender":9,"version":2}}"#,
    ),
];

/// Requests are sent, and each is accepted.
pub fn sends<S: Shelf>(
    rt: &impl Abort,
    alloc: Global,
    registry: &mut Registry<S>,
    lines: &[SentLine],
) {
    for line in lines {
        let caller = HolderCode::read(line.0.as_bytes()).expect(rt, "a caller");
        let request = read_command(alloc, &caller, line.1.as_bytes()).expect(rt, "a body");
        let outcome = registry.apply(alloc, &request).expect(rt, "an outcome");
        holds(rt, matches!(outcome, Outcome::Accepted(_)), line.1);
    }
}

/// Registry 7 on 1 March 2025, in plain lists.
pub fn in_lists(rt: &impl Abort, alloc: Global) -> Registry<ListShelf> {
    let code = RegistryCode::new(7).unwrap();
    let today = Day::read(b"2025-03-01").expect(rt, "a day");
    Registry::new(ListShelf::new(alloc, code, Serial::new(1).unwrap(), today))
}
