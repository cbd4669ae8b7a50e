//! A device of hydrogen, registered by one run, and its certificates in those after it.

use crate::disks::Disks;
use crate::requests::{ACCEPTED, FIRST, REPEATED};
use crate::steps::{EDITED, Step, StepRow, come_to};

/// A device of hydrogen, and the same once more under its key, and under it with another carrier.
const DEVICE: &str =
    r#"ISSUER {"account":1,"capacity_w":2000000,"carrier":"hydrogen","command":"register_device","commissioned":"2020-06-15","country":"DE","device":"500000000000000029","key":"y1","site":"South field","source":"F01010100","support":"none","tech":"T010000"}
ISSUER {"account":1,"capacity_w":2000000,"carrier":"hydrogen","command":"register_device","commissioned":"2020-06-15","country":"DE","device":"500000000000000029","key":"y1","site":"South field","source":"F01010100","support":"none","tech":"T010000"}
ISSUER {"account":1,"capacity_w":2000000,"carrier":"gas","command":"register_device","commissioned":"2020-06-15","country":"DE","device":"500000000000000029","key":"y1","site":"South field","source":"F01010100","support":"none","tech":"T010000"}
"#;

/// A certificate of it, which leaves, and comes back as hydrogen alone.
const CERTIFICATE: &str =
    r#"ISSUER {"aux_wh":0,"command":"declare","device":"500000000000000029","first_day":"2025-01-01","gross_wh":1000000,"key":"y2","last_day":"2025-01-31"}
ISSUER {"command":"add_peer","key":"y3","peer":9}
SUN {"account":5,"command":"export","first":"07000000001201","giver":1,"key":"y4","last":"07000000001201","peer":9}
ISSUER {"command":"import","key":"y5","notice":{"account":1,"addressee":7,"number":1,"parts":[{"first":"07000000001201","last":"07000000001201","lot":{"capacity_w":2000000,"commissioned":"2020-06-15","country":"DE","device":"500000000000000029","first_day":"2025-01-01","issued_on":"2025-03-01","last_day":"2025-01-31","origin":7,"site":"South field","source":"F01010100","support":"none","tech":"T010000"}}],"sender":9,"version":1}}
ISSUER {"command":"import","key":"y6","notice":{"account":1,"addressee":7,"number":1,"parts":[{"first":"07000000001201","last":"07000000001201","lot":{"capacity_w":2000000,"carrier":"hydrogen","commissioned":"2020-06-15","country":"DE","device":"500000000000000029","first_day":"2025-01-01","issued_on":"2025-03-01","last_day":"2025-01-31","origin":7,"site":"South field","source":"F01010100","support":"none","tech":"T010000"}}],"sender":9,"version":2}}
"#;

/// Runs one after another, and a carrier that is damaged and mended in between.
const ROWS: [StepRow; 8] = [
    (Step::Inits(7, 1), "0\nready 07\n"),
    (Step::Runs(FIRST), ACCEPTED),
    (
        Step::Runs(DEVICE),
        r#"1
{"outcome":"accepted","reply":{}}
{"outcome":"repeated","reply":{}}
{"code":2,"name":"KeyReused","outcome":"refused"}
"#,
    ),
    (
        Step::Runs(CERTIFICATE),
        r#"1
{"outcome":"accepted","reply":{"carry":0,"count":1,"first":"07000000001201","last":"07000000001201"}}
{"outcome":"accepted","reply":{}}
{"outcome":"accepted","reply":{"count":1,"notice":1}}
{"code":26,"name":"LotDiffers","number":"07000000001201","outcome":"refused"}
{"outcome":"accepted","reply":{"count":1}}
"#,
    ),
    (
        Step::Edits("UPDATE lot_carrier SET carrier = 'electricity'"),
        EDITED,
    ),
    (Step::Runs(FIRST), "3 goo: damaged\n"),
    (
        Step::Edits("UPDATE lot_carrier SET carrier = 'hydrogen'"),
        EDITED,
    ),
    (Step::Runs(FIRST), REPEATED),
];

#[test]
fn hydrogen_from_run_to_run(rt: HostRuntime) {
    let alloc = rt.alloc();
    let _disks = come_to(&rt, alloc, Disks::blank(alloc), &ROWS);
}
