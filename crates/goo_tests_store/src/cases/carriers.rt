//! Worked cases, written by tools/gate/cases-as-tests from cases/: change them there.

use crate::worked::Case;

pub const CARRIERS: [Case; 3] = [
    Case {
        name: "a_hydrogen_device",
        serial: 1,
        begun: 5,
        asked: &[
            (
                "ISSUER",
                r#"{"command":"add_peer","peer":9,"key":"peer-9"}"#,
                r#"{"outcome":"accepted","reply":{}}"#,
            ),
            (
                "ISSUER",
                r#"{"command":"register_device","account":1,"capacity_w":2000000,"commissioned":"2020-06-15","country":"DE","device":"500000000000000029","site":"North field","source":"F01010100","support":"none","tech":"T010000","carrier":"hydrogen","key":"device-29-hydrogen"}"#,
                r#"{"outcome":"accepted","reply":{}}"#,
            ),
            (
                "ISSUER",
                r#"{"command":"declare","device":"500000000000000029","first_day":"2025-01-01","last_day":"2025-01-31","gross_wh":1000000,"aux_wh":0,"key":"declare-january-of-29"}"#,
                r#"{"outcome":"accepted","reply":{"carry":0,"count":1,"first":"07000000000001","last":"07000000000001"}}"#,
            ),
            (
                "SUN",
                r#"{"command":"export","giver":1,"peer":9,"account":5,"first":"07000000000001","last":"07000000000001","key":"export-1"}"#,
                r#"{"outcome":"accepted","reply":{"count":1,"notice":1}}"#,
            ),
            (
                "ISSUER",
                r#"{"command":"import","notice":{"sender":9,"addressee":7,"number":1,"account":1,"version":2,"parts":[{"first":"07000000000001","last":"07000000000001","lot":{"capacity_w":2000000,"commissioned":"2020-06-15","country":"DE","device":"500000000000000029","first_day":"2025-01-01","issued_on":"2025-03-01","last_day":"2025-01-31","origin":7,"site":"North field","source":"F01010100","support":"none","tech":"T010000","carrier":"gas"}}]},"key":"notice-1-as-gas"}"#,
                r#"{"code":26,"name":"LotDiffers","number":"07000000000001","outcome":"refused"}"#,
            ),
            (
                "ISSUER",
                r#"{"command":"import","notice":{"sender":9,"addressee":7,"number":1,"account":1,"version":2,"parts":[{"first":"07000000000001","last":"07000000000001","lot":{"capacity_w":2000000,"commissioned":"2020-06-15","country":"DE","device":"500000000000000029","first_day":"2025-01-01","issued_on":"2025-03-01","last_day":"2025-01-31","origin":7,"site":"North field","source":"F01010100","support":"none","tech":"T010000","carrier":"heating-cooling"}}]},"key":"notice-1-as-heating-cooling"}"#,
                r#"{"code":26,"name":"LotDiffers","number":"07000000000001","outcome":"refused"}"#,
            ),
            (
                "ISSUER",
                r#"{"command":"import","notice":{"sender":9,"addressee":7,"number":1,"account":1,"version":2,"parts":[{"first":"07000000000001","last":"07000000000001","lot":{"capacity_w":2000000,"commissioned":"2020-06-15","country":"DE","device":"500000000000000029","first_day":"2025-01-01","issued_on":"2025-03-01","last_day":"2025-01-31","origin":7,"site":"North field","source":"F01010100","support":"none","tech":"T010000","carrier":"electricity"}}]},"key":"notice-1-as-electricity"}"#,
                r#"{"code":26,"name":"LotDiffers","number":"07000000000001","outcome":"refused"}"#,
            ),
            (
                "ISSUER",
                r#"{"command":"import","notice":{"sender":9,"addressee":7,"number":1,"account":1,"version":1,"parts":[{"first":"07000000000001","last":"07000000000001","lot":{"capacity_w":2000000,"commissioned":"2020-06-15","country":"DE","device":"500000000000000029","first_day":"2025-01-01","issued_on":"2025-03-01","last_day":"2025-01-31","origin":7,"site":"North field","source":"F01010100","support":"none","tech":"T010000"}}]},"key":"notice-1-in-version-1"}"#,
                r#"{"code":26,"name":"LotDiffers","number":"07000000000001","outcome":"refused"}"#,
            ),
            (
                "ISSUER",
                r#"{"command":"import","notice":{"sender":9,"addressee":7,"number":1,"account":1,"version":2,"parts":[{"first":"07000000000001","last":"07000000000001","lot":{"capacity_w":2000000,"commissioned":"2020-06-15","country":"DE","device":"500000000000000029","first_day":"2025-01-01","issued_on":"2025-03-01","last_day":"2025-01-31","origin":7,"site":"North field","source":"F01010100","support":"none","tech":"T010000","carrier":"hydrogen"}}]},"key":"notice-1-as-hydrogen"}"#,
                r#"{"outcome":"accepted","reply":{"count":1}}"#,
            ),
            (
                "ISSUER",
                r#"{"command":"import","notice":{"sender":9,"addressee":7,"number":1,"account":1,"version":2,"parts":[{"first":"07000000000001","last":"07000000000001","lot":{"capacity_w":2000000,"commissioned":"2020-06-15","country":"DE","device":"500000000000000029","first_day":"2025-01-01","issued_on":"2025-03-01","last_day":"2025-01-31","origin":7,"site":"North field","source":"F01010100","support":"none","tech":"T010000","carrier":"hydrogen"}}]},"key":"notice-1-again"}"#,
                r#"{"outcome":"repeated","reply":{"count":1}}"#,
            ),
            (
                "ISSUER",
                r#"{"command":"import","notice":{"sender":9,"addressee":7,"number":1,"account":1,"version":2,"parts":[{"first":"07000000000001","last":"07000000000001","lot":{"capacity_w":2000000,"commissioned":"2020-06-15","country":"DE","device":"500000000000000029","first_day":"2025-01-01","issued_on":"2025-03-01","last_day":"2025-01-31","origin":7,"site":"North field","source":"F01010100","support":"none","tech":"T010000","carrier":"gas"}}]},"key":"notice-1-as-gas-again"}"#,
                r#"{"code":24,"name":"NoticeConflict","outcome":"refused"}"#,
            ),
        ],
        shown: "1 07000000000001 07000000000001 2025-01-01 held\n500000000000000012 0 0 0 0 0\n500000000000000029 1000000 0 1 0 0\n",
    },
    Case {
        name: "certificates_of_two_carriers",
        serial: 1,
        begun: 5,
        asked: &[
            (
                "ISSUER",
                r#"{"command":"declare","device":"500000000000000012","first_day":"2025-01-01","last_day":"2025-01-31","gross_wh":5000000,"aux_wh":0,"key":"declare-january"}"#,
                r#"{"outcome":"accepted","reply":{"carry":0,"count":5,"first":"07000000000001","last":"07000000000005"}}"#,
            ),
            (
                "ISSUER",
                r#"{"command":"register_device","account":1,"capacity_w":2000000,"commissioned":"2020-06-15","country":"DE","device":"500000000000000029","site":"North field","source":"F01010100","support":"none","tech":"T010000","carrier":"gas","key":"device-29-gas"}"#,
                r#"{"outcome":"accepted","reply":{}}"#,
            ),
            (
                "ISSUER",
                r#"{"command":"declare","device":"500000000000000029","first_day":"2025-01-01","last_day":"2025-01-31","gross_wh":5400000,"aux_wh":0,"key":"declare-january-of-29"}"#,
                r#"{"outcome":"accepted","reply":{"carry":400000,"count":5,"first":"07000000000006","last":"07000000000010"}}"#,
            ),
            (
                "SUN",
                r#"{"command":"transfer","giver":1,"taker":2,"first":"07000000000004","last":"07000000000007","key":"transfer-4-to-7"}"#,
                r#"{"outcome":"accepted","reply":{"count":4}}"#,
            ),
            (
                "VOLT",
                r#"{"command":"cancel","account":2,"first":"07000000000005","last":"07000000000006","beneficiary":"Bakery","use_first":"2025-01-01","use_last":"2025-01-31","key":"cancel-5-to-6"}"#,
                r#"{"outcome":"accepted","reply":{"cancellation":1,"count":2}}"#,
            ),
            (
                "VOLT",
                r#"{"command":"transfer","giver":2,"taker":1,"first":"07000000000007","last":"07000000000007","key":"transfer-7-from-2-to-1"}"#,
                r#"{"outcome":"accepted","reply":{"count":1}}"#,
            ),
            (
                "ISSUER",
                r#"{"command":"correct","device":"500000000000000029","first_day":"2025-01-01","less_wh":1400000,"first":"07000000000003","last":"07000000000003","reason":"meter read twice","key":"correct-january-of-29-1400000Wh-3"}"#,
                r#"{"code":34,"name":"OtherDevice","number":"07000000000003","outcome":"refused"}"#,
            ),
            (
                "ISSUER",
                r#"{"command":"correct","device":"500000000000000029","first_day":"2025-01-01","less_wh":1400000,"first":"07000000000008","last":"07000000000008","reason":"meter read twice","key":"correct-january-of-29-1400000Wh-8"}"#,
                r#"{"outcome":"accepted","reply":{"carry":0,"count":1,"withdrawal":1}}"#,
            ),
            (
                "ISSUER",
                r#"{"command":"declare","device":"500000000000000029","first_day":"2025-02-01","last_day":"2025-02-28","gross_wh":1000000,"aux_wh":0,"key":"declare-february-of-29"}"#,
                r#"{"outcome":"accepted","reply":{"carry":0,"count":1,"first":"07000000000011","last":"07000000000011"}}"#,
            ),
            (
                "ISSUER",
                r#"{"command":"withdraw","first":"07000000000010","last":"07000000000011","reason":"meter read thrice","key":"withdraw-10-to-11"}"#,
                r#"{"outcome":"accepted","reply":{"count":2,"withdrawal":2}}"#,
            ),
            (
                "ISSUER",
                r#"{"command":"advance","day":"2026-08-01","key":"advance-to-2026-08-01"}"#,
                r#"{"outcome":"accepted","reply":{"expired":6}}"#,
            ),
        ],
        shown: "1 07000000000001 07000000000003 2025-01-01 expired\n1 07000000000007 07000000000007 2025-01-01 expired\n1 07000000000008 07000000000008 2025-01-01 withdrawn:1\n1 07000000000009 07000000000009 2025-01-01 expired\n1 07000000000010 07000000000010 2025-01-01 withdrawn:2\n1 07000000000011 07000000000011 2025-02-01 withdrawn:2\n2 07000000000004 07000000000004 2025-01-01 expired\n2 07000000000005 07000000000005 2025-01-01 cancelled:1\n2 07000000000006 07000000000006 2025-01-01 cancelled:1\n500000000000000012 5000000 0 5 0 0\n500000000000000029 6400000 1400000 6 1 0\n",
    },
    Case {
        name: "electricity_in_a_notice_of_version_2",
        serial: 1,
        begun: 5,
        asked: &[
            (
                "ISSUER",
                r#"{"command":"add_peer","peer":9,"key":"peer-9"}"#,
                r#"{"outcome":"accepted","reply":{}}"#,
            ),
            (
                "ISSUER",
                r#"{"command":"declare","device":"500000000000000012","first_day":"2025-01-01","last_day":"2025-01-31","gross_wh":3000000,"aux_wh":0,"key":"declare-january"}"#,
                r#"{"outcome":"accepted","reply":{"carry":0,"count":3,"first":"07000000000001","last":"07000000000003"}}"#,
            ),
            (
                "SUN",
                r#"{"command":"export","giver":1,"peer":9,"account":5,"first":"07000000000002","last":"07000000000002","key":"export-2"}"#,
                r#"{"outcome":"accepted","reply":{"count":1,"notice":1}}"#,
            ),
            (
                "ISSUER",
                r#"{"command":"import","notice":{"sender":9,"addressee":7,"number":1,"account":1,"version":2,"parts":[{"first":"07000000000002","last":"07000000000002","lot":{"capacity_w":2000000,"commissioned":"2020-06-15","country":"DE","device":"500000000000000012","first_day":"2025-01-01","issued_on":"2025-03-01","last_day":"2025-01-31","origin":7,"site":"North field","source":"F01010100","support":"none","tech":"T010000","carrier":"hydrogen"}}]},"key":"notice-1-as-hydrogen"}"#,
                r#"{"code":26,"name":"LotDiffers","number":"07000000000002","outcome":"refused"}"#,
            ),
            (
                "ISSUER",
                r#"{"command":"import","notice":{"sender":9,"addressee":7,"number":1,"account":1,"version":2,"parts":[{"first":"07000000000002","last":"07000000000002","lot":{"capacity_w":2000000,"commissioned":"2020-06-15","country":"DE","device":"500000000000000012","first_day":"2025-01-01","issued_on":"2025-03-01","last_day":"2025-01-31","origin":7,"site":"North field","source":"F01010100","support":"none","tech":"T010000","carrier":"electricity"}}]},"key":"notice-1"}"#,
                r#"{"outcome":"accepted","reply":{"count":1}}"#,
            ),
            (
                "ISSUER",
                r#"{"command":"import","notice":{"sender":9,"addressee":7,"number":1,"account":1,"version":1,"parts":[{"first":"07000000000002","last":"07000000000002","lot":{"capacity_w":2000000,"commissioned":"2020-06-15","country":"DE","device":"500000000000000012","first_day":"2025-01-01","issued_on":"2025-03-01","last_day":"2025-01-31","origin":7,"site":"North field","source":"F01010100","support":"none","tech":"T010000"}}]},"key":"notice-1-in-version-1"}"#,
                r#"{"outcome":"repeated","reply":{"count":1}}"#,
            ),
            (
                "ISSUER",
                r#"{"command":"import","notice":{"sender":9,"addressee":7,"number":1,"account":1,"version":2,"parts":[{"first":"07000000000002","last":"07000000000002","lot":{"capacity_w":2000000,"commissioned":"2020-06-15","country":"DE","device":"500000000000000012","first_day":"2025-01-01","issued_on":"2025-03-01","last_day":"2025-01-31","origin":7,"site":"North field","source":"F01010100","support":"none","tech":"T010000","carrier":"electricity"}}]},"key":"notice-1-again"}"#,
                r#"{"outcome":"repeated","reply":{"count":1}}"#,
            ),
            (
                "ISSUER",
                r#"{"command":"import","notice":{"sender":9,"addressee":7,"number":1,"account":1,"version":2,"parts":[{"first":"07000000000002","last":"07000000000002","lot":{"capacity_w":2000000,"commissioned":"2020-06-15","country":"DE","device":"500000000000000012","first_day":"2025-01-01","issued_on":"2025-03-01","last_day":"2025-01-31","origin":7,"site":"North field","source":"F01010100","support":"none","tech":"T010000","carrier":"hydrogen"}}]},"key":"notice-1-as-hydrogen-again"}"#,
                r#"{"code":24,"name":"NoticeConflict","outcome":"refused"}"#,
            ),
        ],
        shown: "1 07000000000001 07000000000003 2025-01-01 held\n500000000000000012 3000000 0 3 0 0\n",
    },
];
