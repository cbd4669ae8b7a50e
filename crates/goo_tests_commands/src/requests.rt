//! Lines that a run answers, and their outcomes, by hand from the rules.

/// A holder with an account and a device, the certificates of January and the energy of February.
pub const FIRST: &str =
    r#"ISSUER {"command":"open_holder","holder":"SUN","key":"a1","name":"Sun Power"}
ISSUER {"command":"open_account","holder":"SUN","key":"a2"}
ISSUER {"account":1,"capacity_w":2000000,"command":"register_device","commissioned":"2020-06-15","country":"DE","device":"500000000000000012","key":"a3","site":"North field","source":"F01010100","support":"none","tech":"T010000"}
ISSUER {"aux_wh":34567890,"command":"declare","device":"500000000000000012","first_day":"2025-01-01","gross_wh":1234567890,"key":"d1","last_day":"2025-01-31"}
ISSUER {"aux_wh":0,"command":"declare","device":"500000000000000012","first_day":"2025-02-01","gross_wh":999999,"key":"d2","last_day":"2025-02-28"}
"#;

/// The first run of these.
pub const ACCEPTED: &str = r#"0
{"outcome":"accepted","reply":{}}
{"outcome":"accepted","reply":{"account":1}}
{"outcome":"accepted","reply":{}}
{"outcome":"accepted","reply":{"carry":0,"count":1200,"first":"07000000000001","last":"07000000001200"}}
{"outcome":"accepted","reply":{"carry":999999,"count":0}}
"#;

/// Each later run of them.
pub const REPEATED: &str = r#"0
{"outcome":"repeated","reply":{}}
{"outcome":"repeated","reply":{"account":1}}
{"outcome":"repeated","reply":{}}
{"outcome":"repeated","reply":{"carry":0,"count":1200,"first":"07000000000001","last":"07000000001200"}}
{"outcome":"repeated","reply":{"carry":999999,"count":0}}
"#;
