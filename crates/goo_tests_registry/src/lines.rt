//! The requests that are sent while memory is refused, and what they come to.

use crate::asking::AskedLine;

/// Two holders with an account each, a device, another registry and 1,200 certificates.
pub const BEGINS: [AskedLine; 7] = [
    (
        "ISSUER",
        r#"{"command":"open_holder","holder":"SUN","key":"a","name":"Sun Power"}"#,
        r#"{"outcome":"accepted","reply":{}}"#,
    ),
    (
        "ISSUER",
        r#"{"command":"open_account","holder":"SUN","key":"b"}"#,
        r#"{"outcome":"accepted","reply":{"account":1}}"#,
    ),
    (
        "ISSUER",
        r#"{"command":"open_holder","holder":"VOLT","key":"c","name":"Volt"}"#,
        r#"{"outcome":"accepted","reply":{}}"#,
    ),
    (
        "ISSUER",
        r#"{"command":"open_account","holder":"VOLT","key":"d"}"#,
        r#"{"outcome":"accepted","reply":{"account":2}}"#,
    ),
    (
        "ISSUER",
        r#"{"account":1,"capacity_w":2000000,"command":"register_device","commissioned":"2020-06-15","country":"DE","device":"500000000000000012","key":"e","site":"North field","source":"F01010100","support":"none","tech":"T010000"}"#,
        r#"{"outcome":"accepted","reply":{}}"#,
    ),
    (
        "ISSUER",
        r#"{"command":"add_peer","key":"f","peer":9}"#,
        r#"{"outcome":"accepted","reply":{}}"#,
    ),
    (
        "ISSUER",
        r#"{"aux_wh":34567890,"command":"declare","device":"500000000000000012","first_day":"2025-01-01","gross_wh":1234567890,"key":"g","last_day":"2025-01-31"}"#,
        r#"{"outcome":"accepted","reply":{"carry":0,"count":1200,"first":"07000000000001","last":"07000000001200"}}"#,
    ),
];

/// A hundred certificates are moved, ten used up and ten sent away; two MWh of January were none,
/// and two certificates are withdrawn.
pub const TRADES: [AskedLine; 4] = [
    (
        "SUN",
        r#"{"command":"transfer","first":"07000000000100","giver":1,"key":"a","last":"07000000000199","taker":2}"#,
        r#"{"outcome":"accepted","reply":{"count":100}}"#,
    ),
    (
        "SUN",
        r#"{"account":1,"beneficiary":"Bäckerei Müller","command":"cancel","first":"07000000000001","key":"b","last":"07000000000010","use_first":"2025-01-01","use_last":"2025-03-31"}"#,
        r#"{"outcome":"accepted","reply":{"cancellation":1,"count":10}}"#,
    ),
    (
        "SUN",
        r#"{"account":5,"command":"export","first":"07000000000020","giver":1,"key":"c","last":"07000000000029","peer":9}"#,
        r#"{"outcome":"accepted","reply":{"count":10,"notice":1}}"#,
    ),
    (
        "ISSUER",
        r#"{"command":"correct","device":"500000000000000012","first":"07000000000011","first_day":"2025-01-01","key":"j","last":"07000000000012","less_wh":2000000,"reason":"meter read twice"}"#,
        r#"{"outcome":"accepted","reply":{"carry":0,"count":2,"withdrawal":1}}"#,
    ),
];

/// The ten certificates that were sent away come back.
pub const RETURN: [AskedLine; 1] = [(
    "ISSUER",
    r#"{"command":"import","key":"h","notice":{"account":1,"addressee":7,"number":1,"parts":[{"first":"07000000000020","last":"07000000000029","lot":{"capacity_w":2000000,"commissioned":"2020-06-15","country":"DE","device":"500000000000000012","first_day":"2025-01-01","issued_on":"2025-03-01","last_day":"2025-01-31","origin":7,"site":"North field","source":"F01010100","support":"none","tech":"T010000"}}],"sender":9,"version":1}}"#,
    r#"{"outcome":"accepted","reply":{"count":10}}"#,
)];

/// A certificate is moved, and all of January that is still held expires.
pub const ENDS: [AskedLine; 2] = [
    (
        "VOLT",
        r#"{"command":"transfer","first":"07000000000100","giver":2,"key":"a","last":"07000000000100","taker":1}"#,
        r#"{"outcome":"accepted","reply":{"count":1}}"#,
    ),
    (
        "ISSUER",
        r#"{"command":"advance","day":"2026-08-01","key":"i"}"#,
        r#"{"outcome":"accepted","reply":{"expired":1188}}"#,
    ),
];

/// What that comes to where it stands already.
pub const REPEATED: [&str; 2] = [
    r#"{"outcome":"repeated","reply":{"count":1}}"#,
    r#"{"outcome":"repeated","reply":{"expired":1188}}"#,
];
