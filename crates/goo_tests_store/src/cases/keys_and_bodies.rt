//! Worked cases, written by tools/gate/cases-as-tests from cases/: change them there.

use crate::worked::Case;

pub const KEYS_AND_BODIES: [Case; 5] = [
    Case {
        name: "a_carrier_written_or_left_out",
        serial: 1,
        begun: 4,
        asked: &[
            (
                "ISSUER",
                r#"{"command":"register_device","account":1,"capacity_w":2000000,"commissioned":"2020-06-15","country":"DE","device":"500000000000000012","site":"North field","source":"F01010100","support":"none","tech":"T010000","key":"device-12"}"#,
                r#"{"outcome":"accepted","reply":{}}"#,
            ),
            (
                "ISSUER",
                r#"{"command":"register_device","account":1,"capacity_w":2000000,"commissioned":"2020-06-15","country":"DE","device":"500000000000000012","site":"North field","source":"F01010100","support":"none","tech":"T010000","carrier":"electricity","key":"device-12"}"#,
                r#"{"outcome":"repeated","reply":{}}"#,
            ),
            (
                "ISSUER",
                r#"{"command":"register_device","account":1,"capacity_w":2000000,"commissioned":"2020-06-15","country":"DE","device":"500000000000000012","site":"North field","source":"F01010100","support":"none","tech":"T010000","key":"device-12"}"#,
                r#"{"outcome":"repeated","reply":{}}"#,
            ),
            (
                "ISSUER",
                r#"{"command":"register_device","account":1,"capacity_w":2000000,"commissioned":"2020-06-15","country":"DE","device":"500000000000000012","site":"North field","source":"F01010100","support":"none","tech":"T010000","carrier":"gas","key":"device-12"}"#,
                r#"{"code":2,"name":"KeyReused","outcome":"refused"}"#,
            ),
            (
                "ISSUER",
                r#"{"command":"register_device","account":1,"capacity_w":2000000,"commissioned":"2020-06-15","country":"DE","device":"500000000000000012","site":"North field","source":"F01010100","support":"none","tech":"T010000","carrier":"electricity","key":"device-12-electricity"}"#,
                r#"{"code":8,"name":"DeviceExists","outcome":"refused"}"#,
            ),
            (
                "ISSUER",
                r#"{"command":"register_device","account":1,"capacity_w":2000000,"commissioned":"2020-06-15","country":"DE","device":"500000000000000012","site":"North field","source":"F01010100","support":"none","tech":"T010000","carrier":"gas","key":"device-12-gas"}"#,
                r#"{"code":8,"name":"DeviceExists","outcome":"refused"}"#,
            ),
            (
                "SUN",
                r#"{"command":"register_device","account":1,"capacity_w":2000000,"commissioned":"2020-06-15","country":"DE","device":"500000000000000029","site":"North field","source":"F01010100","support":"none","tech":"T010000","carrier":"gas","key":"device-29-gas-by-SUN"}"#,
                r#"{"code":1,"name":"NotAllowed","outcome":"refused"}"#,
            ),
            (
                "ISSUER",
                r#"{"command":"register_device","account":1,"capacity_w":2000000,"commissioned":"2020-06-15","country":"DE","device":"500000000000000029","site":"North field","source":"F01010100","support":"none","tech":"T010000","carrier":"heating-cooling","key":"device-29-heating-cooling"}"#,
                r#"{"outcome":"accepted","reply":{}}"#,
            ),
            (
                "ISSUER",
                r#"{"command":"register_device","account":1,"capacity_w":2000000,"commissioned":"2020-06-15","country":"DE","device":"500000000000000029","site":"North field","source":"F01010100","support":"none","tech":"T010000","carrier":"heating-cooling","key":"device-29-heating-cooling"}"#,
                r#"{"outcome":"repeated","reply":{}}"#,
            ),
            (
                "ISSUER",
                r#"{"command":"register_device","account":1,"capacity_w":2000000,"commissioned":"2020-06-15","country":"DE","device":"500000000000000029","site":"North field","source":"F01010100","support":"none","tech":"T010000","carrier":"gas","key":"device-29-heating-cooling"}"#,
                r#"{"code":2,"name":"KeyReused","outcome":"refused"}"#,
            ),
            (
                "ISSUER",
                r#"{"command":"register_device","account":1,"capacity_w":2000000,"commissioned":"2020-06-15","country":"DE","device":"500000000000000029","site":"North field","source":"F01010100","support":"none","tech":"T010000","carrier":"electricity","key":"device-29-heating-cooling"}"#,
                r#"{"code":2,"name":"KeyReused","outcome":"refused"}"#,
            ),
            (
                "ISSUER",
                r#"{"command":"register_device","account":1,"capacity_w":2000000,"commissioned":"2020-06-15","country":"DE","device":"500000000000000029","site":"North field","source":"F01010100","support":"none","tech":"T010000","key":"device-29-heating-cooling"}"#,
                r#"{"code":2,"name":"KeyReused","outcome":"refused"}"#,
            ),
            (
                "ISSUER",
                r#"{"command":"register_device","account":1,"capacity_w":2000000,"commissioned":"2020-06-15","country":"DE","device":"500000000000000029","site":"North field","source":"F01010100","support":"none","tech":"T010000","key":"device-29"}"#,
                r#"{"code":8,"name":"DeviceExists","outcome":"refused"}"#,
            ),
        ],
        shown: "500000000000000012 0 0 0 0 0\n500000000000000029 0 0 0 0 0\n",
    },
    Case {
        name: "a_key_after_the_date_moved",
        serial: 1,
        begun: 5,
        asked: &[
            (
                "ISSUER",
                r#"{"command":"declare","device":"500000000000000012","first_day":"2025-01-01","last_day":"2025-01-31","gross_wh":1234567890,"aux_wh":34567890,"key":"declare-january"}"#,
                r#"{"outcome":"accepted","reply":{"carry":0,"count":1200,"first":"07000000000001","last":"07000000001200"}}"#,
            ),
            (
                "ISSUER",
                r#"{"command":"declare","device":"500000000000000012","first_day":"2025-02-01","last_day":"2025-02-28","gross_wh":999999,"aux_wh":0,"key":"declare-february"}"#,
                r#"{"outcome":"accepted","reply":{"carry":999999,"count":0}}"#,
            ),
            (
                "ISSUER",
                r#"{"command":"advance","day":"2025-04-05","key":"advance-to-2025-04-05"}"#,
                r#"{"outcome":"accepted","reply":{"expired":0}}"#,
            ),
            (
                "ISSUER",
                r#"{"command":"declare","device":"500000000000000012","first_day":"2025-03-01","last_day":"2025-03-31","gross_wh":1,"aux_wh":0,"key":"declare-march"}"#,
                r#"{"outcome":"accepted","reply":{"carry":0,"count":1,"first":"07000000001201","last":"07000000001201"}}"#,
            ),
            (
                "ISSUER",
                r#"{"command":"declare","device":"500000000000000012","first_day":"2025-01-01","last_day":"2025-01-31","gross_wh":1234567890,"aux_wh":34567890,"key":"declare-january"}"#,
                r#"{"outcome":"repeated","reply":{"carry":0,"count":1200,"first":"07000000000001","last":"07000000001200"}}"#,
            ),
            (
                "ISSUER",
                r#"{"command":"declare","device":"500000000000000012","first_day":"2025-01-01","last_day":"2025-01-31","gross_wh":1234567891,"aux_wh":34567890,"key":"declare-january"}"#,
                r#"{"code":2,"name":"KeyReused","outcome":"refused"}"#,
            ),
            (
                "SUN",
                r#"{"command":"declare","device":"500000000000000012","first_day":"2025-01-01","last_day":"2025-01-31","gross_wh":1234567890,"aux_wh":34567890,"key":"declare-january"}"#,
                r#"{"code":1,"name":"NotAllowed","outcome":"refused"}"#,
            ),
        ],
        shown: "1 07000000000001 07000000001200 2025-01-01 held\n1 07000000001201 07000000001201 2025-03-01 held\n500000000000000012 1201000000 0 1201 0 0\n",
    },
    Case {
        name: "bodies_of_carriers",
        serial: 1,
        begun: 5,
        asked: &[
            (
                "ISSUER",
                r#"{"command":"add_peer","peer":9,"key":"peer-9"}"#,
                r#"{"outcome":"accepted","reply":{}}"#,
            ),
            (
                "ISSUER",
                r#"{"carrier":1,"command":"register_device","account":1,"capacity_w":2000000,"commissioned":"2020-06-15","country":"DE","device":"500000000000000029","site":"North field","source":"F01010100","support":"none","tech":"T010000","carrier":"hydrogen","key":"carrier-twice-the-last-counts"}"#,
                r#"{"outcome":"accepted","reply":{}}"#,
            ),
            (
                "ISSUER",
                r#"{"command":"import","notice":{"sender":9,"addressee":7,"number":1,"account":1,"version":2,"parts":[{"first":"09000000000001","last":"09000000000001","lot":{"capacity_w":2000000,"commissioned":"2020-06-15","country":"DE","device":"500000000000000012","first_day":"2025-01-01","issued_on":"2025-03-01","last_day":"2025-01-31","origin":9,"site":"North field","source":"F01010100","support":"none","tech":"T010000","carrier":"electricity"}},{"first":"09000000000002","last":"09000000000002","lot":{"capacity_w":2000000,"commissioned":"2020-06-15","country":"DE","device":"500000000000000029","first_day":"2025-01-01","issued_on":"2025-03-01","last_day":"2025-01-31","origin":9,"site":"North field","source":"F01010100","support":"none","tech":"T010000","carrier":"gas"}}]},"key":"import-two-carriers"}"#,
                r#"{"outcome":"accepted","reply":{"count":2}}"#,
            ),
        ],
        shown: "1 09000000000001 09000000000001 2025-01-01 held\n1 09000000000002 09000000000002 2025-01-01 held\n500000000000000012 0 0 0 0 0\n500000000000000029 0 0 0 0 0\n",
    },
    Case {
        name: "bodies_of_corrections",
        serial: 1,
        begun: 9,
        asked: &[
            (
                "ISSUER",
                r#"{"command":"correct","device":"500000000000000012","first_day":"2025-02-01","less_wh":0,"first":"","last":"","reason":"meter read twice","key":"correct-nothing"}"#,
                r#"{"outcome":"accepted","reply":{"carry":0,"count":0,"withdrawal":0}}"#,
            ),
            (
                "ISSUER",
                r#"{"command":"correct","device":"500000000000000012","first_day":"2025-02-01","less_wh":1000000000000000,"first":"","last":"","reason":"meter read twice","key":"less-the-most"}"#,
                r#"{"code":32,"name":"OverCorrected","outcome":"refused"}"#,
            ),
            (
                "ISSUER",
                r#"{"command":"correct","device":"500000000000000012","first_day":"2025-02-01","less_wh":"x","less_wh":0,"first":"","last":"","reason":"meter read twice","key":"less-twice-the-last-counts"}"#,
                r#"{"outcome":"accepted","reply":{"carry":0,"count":0,"withdrawal":0}}"#,
            ),
            (
                "ISSUER",
                r#"{"command":"register_device","account":1,"capacity_w":2000000,"commissioned":"2020-06-15","country":"DE","device":"500000000000000029","site":"North field","source":"F01010100","support":"none","tech":"T010000","key":"device-29-of-electricity","carrier":"electricity"}"#,
                r#"{"outcome":"accepted","reply":{}}"#,
            ),
        ],
        shown: "1 07000000000001 07000000001200 2025-01-01 held\n1 07000000001201 07000000001201 2025-03-01 held\n500000000000000012 1201000000 0 1201 0 0\n500000000000000029 0 0 0 0 0\n",
    },
    Case {
        name: "the_same_key_again",
        serial: 1,
        begun: 5,
        asked: &[
            (
                "ISSUER",
                r#"{"command":"declare","device":"500000000000000012","first_day":"2025-01-01","last_day":"2025-01-31","gross_wh":1234567890,"aux_wh":34567890,"key":"declare-january"}"#,
                r#"{"outcome":"accepted","reply":{"carry":0,"count":1200,"first":"07000000000001","last":"07000000001200"}}"#,
            ),
            (
                "ISSUER",
                r#"{"command":"declare","device":"500000000000000012","first_day":"2025-02-01","last_day":"2025-02-28","gross_wh":999999,"aux_wh":0,"key":"declare-february"}"#,
                r#"{"outcome":"accepted","reply":{"carry":999999,"count":0}}"#,
            ),
            (
                "ISSUER",
                r#"{"command":"declare","device":"500000000000000012","first_day":"2025-01-01","last_day":"2025-01-31","gross_wh":1234567890,"aux_wh":34567890,"key":"declare-january"}"#,
                r#"{"outcome":"repeated","reply":{"carry":0,"count":1200,"first":"07000000000001","last":"07000000001200"}}"#,
            ),
            (
                "ISSUER",
                r#"{"command":"declare","device":"500000000000000012","first_day":"2025-01-01","last_day":"2025-01-31","gross_wh":1234567891,"aux_wh":34567890,"key":"declare-january"}"#,
                r#"{"code":2,"name":"KeyReused","outcome":"refused"}"#,
            ),
            (
                "SUN",
                r#"{"command":"declare","device":"500000000000000012","first_day":"2025-01-01","last_day":"2025-01-31","gross_wh":1234567890,"aux_wh":34567890,"key":"declare-january"}"#,
                r#"{"code":1,"name":"NotAllowed","outcome":"refused"}"#,
            ),
        ],
        shown: "1 07000000000001 07000000001200 2025-01-01 held\n500000000000000012 1200999999 0 1200 0 999999\n",
    },
];
