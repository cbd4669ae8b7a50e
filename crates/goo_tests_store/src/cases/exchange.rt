//! Worked cases, written by tools/gate/cases-as-tests from cases/: change them there.

use crate::worked::Case;

pub const EXCHANGE: [Case; 4] = [
    Case {
        name: "certificates_of_another_registry",
        serial: 1,
        begun: 10,
        asked: &[
            (
                "ISSUER",
                r#"{"command":"import","notice":{"sender":8,"addressee":7,"number":1,"account":1,"version":1,"parts":[{"first":"09000000000001","last":"09000000000010","lot":{"capacity_w":2000000,"commissioned":"2020-06-15","country":"DE","device":"500000000000000012","first_day":"2025-01-01","issued_on":"2025-03-01","last_day":"2025-01-31","origin":9,"site":"North field","source":"F01010100","support":"none","tech":"T010000"}}]},"key":"notice-1-of-8"}"#,
                r#"{"code":21,"name":"UnknownPeer","outcome":"refused"}"#,
            ),
            (
                "ISSUER",
                r#"{"command":"import","notice":{"sender":9,"addressee":7,"number":1,"account":3,"version":1,"parts":[{"first":"09000000000001","last":"09000000000010","lot":{"capacity_w":2000000,"commissioned":"2020-06-15","country":"DE","device":"500000000000000012","first_day":"2025-01-01","issued_on":"2025-03-01","last_day":"2025-01-31","origin":9,"site":"North field","source":"F01010100","support":"none","tech":"T010000"}}]},"key":"notice-1-to-account-3"}"#,
                r#"{"code":5,"name":"UnknownAccount","outcome":"refused"}"#,
            ),
            (
                "ISSUER",
                r#"{"command":"import","notice":{"sender":9,"addressee":7,"number":1,"account":1,"version":1,"parts":[{"first":"09000000000001","last":"09000000000010","lot":{"capacity_w":2000000,"commissioned":"2020-06-15","country":"DE","device":"500000000000000012","first_day":"2025-01-01","issued_on":"2025-03-01","last_day":"2025-01-31","origin":9,"site":"North field","source":"F01010100","support":"none","tech":"T010000"}}]},"key":"notice-1"}"#,
                r#"{"outcome":"accepted","reply":{"count":10}}"#,
            ),
            (
                "SUN",
                r#"{"command":"transfer","giver":1,"taker":2,"first":"09000000000003","last":"09000000000004","key":"transfer-09:3-to-09:4"}"#,
                r#"{"outcome":"accepted","reply":{"count":2}}"#,
            ),
            (
                "SUN",
                r#"{"command":"cancel","account":1,"first":"09000000000001","last":"09000000000001","beneficiary":"X","use_first":"2025-01-01","use_last":"2025-03-31","key":"cancel-09:1"}"#,
                r#"{"outcome":"accepted","reply":{"cancellation":1,"count":1}}"#,
            ),
            (
                "SUN",
                r#"{"command":"export","giver":1,"peer":9,"account":5,"first":"09000000000005","last":"09000000000006","key":"export-09:5-to-09:6"}"#,
                r#"{"outcome":"accepted","reply":{"count":2,"notice":1}}"#,
            ),
            (
                "ISSUER",
                r#"{"command":"import","notice":{"sender":9,"addressee":7,"number":2,"account":1,"version":1,"parts":[{"first":"09000000000006","last":"09000000000007","lot":{"capacity_w":2000000,"commissioned":"2020-06-15","country":"DE","device":"500000000000000012","first_day":"2025-01-01","issued_on":"2025-03-01","last_day":"2025-01-31","origin":9,"site":"North field","source":"F01010100","support":"none","tech":"T010000"}}]},"key":"notice-2"}"#,
                r#"{"code":25,"name":"NumberTaken","number":"09000000000007","outcome":"refused"}"#,
            ),
            (
                "ISSUER",
                r#"{"command":"advance","day":"2026-07-31","key":"advance-to-2026-07-31"}"#,
                r#"{"outcome":"accepted","reply":{"expired":0}}"#,
            ),
            (
                "ISSUER",
                r#"{"command":"advance","day":"2026-08-01","key":"advance-to-2026-08-01"}"#,
                r#"{"outcome":"accepted","reply":{"expired":1207}}"#,
            ),
        ],
        shown: "",
    },
    Case {
        name: "out_back_and_out_again",
        serial: 1,
        begun: 10,
        asked: &[
            (
                "SUN",
                r#"{"command":"export","giver":1,"peer":9,"account":5,"first":"07000000000020","last":"07000000000029","key":"export-20-to-29"}"#,
                r#"{"outcome":"accepted","reply":{"count":10,"notice":1}}"#,
            ),
            (
                "ISSUER",
                r#"{"command":"import","notice":{"sender":9,"addressee":7,"number":1,"account":1,"version":1,"parts":[{"first":"07000000000020","last":"07000000000029","lot":{"capacity_w":2000000,"commissioned":"2020-06-15","country":"DE","device":"500000000000000012","first_day":"2025-01-01","issued_on":"2025-03-01","last_day":"2025-01-31","origin":7,"site":"North field","source":"F01010100","support":"none","tech":"T010000"}}]},"key":"notice-1"}"#,
                r#"{"outcome":"accepted","reply":{"count":10}}"#,
            ),
            (
                "ISSUER",
                r#"{"command":"import","notice":{"sender":9,"addressee":7,"number":1,"account":1,"version":1,"parts":[{"first":"07000000000020","last":"07000000000029","lot":{"capacity_w":2000000,"commissioned":"2020-06-15","country":"DE","device":"500000000000000012","first_day":"2025-01-01","issued_on":"2025-03-01","last_day":"2025-01-31","origin":7,"site":"North field","source":"F01010100","support":"none","tech":"T010000"}}]},"key":"notice-1-again"}"#,
                r#"{"outcome":"repeated","reply":{"count":10}}"#,
            ),
            (
                "ISSUER",
                r#"{"command":"import","notice":{"sender":9,"addressee":7,"number":1,"account":1,"version":1,"parts":[{"first":"07000000000020","last":"07000000000028","lot":{"capacity_w":2000000,"commissioned":"2020-06-15","country":"DE","device":"500000000000000012","first_day":"2025-01-01","issued_on":"2025-03-01","last_day":"2025-01-31","origin":7,"site":"North field","source":"F01010100","support":"none","tech":"T010000"}}]},"key":"notice-1-less-one-number"}"#,
                r#"{"code":24,"name":"NoticeConflict","outcome":"refused"}"#,
            ),
            (
                "SUN",
                r#"{"command":"export","giver":1,"peer":9,"account":5,"first":"07000000000020","last":"07000000000029","key":"export-20-to-29-again"}"#,
                r#"{"outcome":"accepted","reply":{"count":10,"notice":2}}"#,
            ),
            (
                "ISSUER",
                r#"{"command":"import","notice":{"sender":9,"addressee":7,"number":1,"account":1,"version":1,"parts":[{"first":"07000000000020","last":"07000000000029","lot":{"capacity_w":2000000,"commissioned":"2020-06-15","country":"DE","device":"500000000000000012","first_day":"2025-01-01","issued_on":"2025-03-01","last_day":"2025-01-31","origin":7,"site":"North field","source":"F01010100","support":"none","tech":"T010000"}}]},"key":"notice-1-once-more"}"#,
                r#"{"outcome":"repeated","reply":{"count":10}}"#,
            ),
            (
                "ISSUER",
                r#"{"command":"import","notice":{"sender":9,"addressee":7,"number":2,"account":1,"version":1,"parts":[{"first":"07000000000020","last":"07000000000029","lot":{"capacity_w":2000000,"commissioned":"2020-06-15","country":"DE","device":"500000000000000012","first_day":"2025-01-01","issued_on":"2025-03-01","last_day":"2025-01-31","origin":7,"site":"North field","source":"F01010100","support":"none","tech":"T010000"}}]},"key":"notice-2"}"#,
                r#"{"outcome":"accepted","reply":{"count":10}}"#,
            ),
        ],
        shown: "1 07000000000001 07000000001200 2025-01-01 held\n1 07000000001201 07000000001201 2025-03-01 held\n500000000000000012 1201000000 0 1201 0 0\n",
    },
    Case {
        name: "ten_certificates_come_back_once",
        serial: 1,
        begun: 10,
        asked: &[
            (
                "SUN",
                r#"{"command":"export","giver":1,"peer":9,"account":5,"first":"07000000000020","last":"07000000000029","key":"export-20-to-29"}"#,
                r#"{"outcome":"accepted","reply":{"count":10,"notice":1}}"#,
            ),
            (
                "ISSUER",
                r#"{"command":"import","notice":{"sender":9,"addressee":7,"number":1,"account":1,"version":1,"parts":[{"first":"07000000000020","last":"07000000000029","lot":{"capacity_w":2000000,"commissioned":"2020-06-15","country":"DE","device":"500000000000000012","first_day":"2025-01-01","issued_on":"2025-03-01","last_day":"2025-01-31","origin":7,"site":"North field","source":"F01010100","support":"none","tech":"T010000"}}]},"key":"notice-1"}"#,
                r#"{"outcome":"accepted","reply":{"count":10}}"#,
            ),
            (
                "ISSUER",
                r#"{"command":"import","notice":{"sender":9,"addressee":7,"number":1,"account":1,"version":1,"parts":[{"first":"07000000000020","last":"07000000000029","lot":{"capacity_w":2000000,"commissioned":"2020-06-15","country":"DE","device":"500000000000000012","first_day":"2025-01-01","issued_on":"2025-03-01","last_day":"2025-01-31","origin":7,"site":"North field","source":"F01010100","support":"none","tech":"T010000"}}]},"key":"notice-1-again"}"#,
                r#"{"outcome":"repeated","reply":{"count":10}}"#,
            ),
            (
                "ISSUER",
                r#"{"command":"import","notice":{"sender":9,"addressee":7,"number":1,"account":1,"version":1,"parts":[{"first":"07000000000020","last":"07000000000028","lot":{"capacity_w":2000000,"commissioned":"2020-06-15","country":"DE","device":"500000000000000012","first_day":"2025-01-01","issued_on":"2025-03-01","last_day":"2025-01-31","origin":7,"site":"North field","source":"F01010100","support":"none","tech":"T010000"}}]},"key":"notice-1-less-one-number"}"#,
                r#"{"code":24,"name":"NoticeConflict","outcome":"refused"}"#,
            ),
        ],
        shown: "1 07000000000001 07000000001200 2025-01-01 held\n1 07000000001201 07000000001201 2025-03-01 held\n500000000000000012 1201000000 0 1201 0 0\n",
    },
    Case {
        name: "withdrawn_by_a_correction_for_good",
        serial: 1,
        begun: 10,
        asked: &[
            (
                "SUN",
                r#"{"command":"export","giver":1,"peer":9,"account":5,"first":"07000000000020","last":"07000000000029","key":"export-20-to-29"}"#,
                r#"{"outcome":"accepted","reply":{"count":10,"notice":1}}"#,
            ),
            (
                "ISSUER",
                r#"{"command":"correct","device":"500000000000000012","first_day":"2025-01-01","less_wh":10000000,"first":"07000000000020","last":"07000000000029","reason":"meter read twice","key":"correct-january-10MWh-20-to-29"}"#,
                r#"{"code":17,"name":"NotHeld","number":"07000000000020","outcome":"refused"}"#,
            ),
            (
                "ISSUER",
                r#"{"command":"import","notice":{"sender":9,"addressee":7,"number":1,"account":1,"version":1,"parts":[{"first":"07000000000020","last":"07000000000029","lot":{"capacity_w":2000000,"commissioned":"2020-06-15","country":"DE","device":"500000000000000012","first_day":"2025-01-01","issued_on":"2025-03-01","last_day":"2025-01-31","origin":7,"site":"North field","source":"F01010100","support":"none","tech":"T010000"}}]},"key":"notice-1"}"#,
                r#"{"outcome":"accepted","reply":{"count":10}}"#,
            ),
            (
                "ISSUER",
                r#"{"command":"correct","device":"500000000000000012","first_day":"2025-01-01","less_wh":10000000,"first":"07000000000020","last":"07000000000029","reason":"meter read twice","key":"correct-january-10MWh-20-to-29-again"}"#,
                r#"{"outcome":"accepted","reply":{"carry":0,"count":10,"withdrawal":1}}"#,
            ),
            (
                "ISSUER",
                r#"{"command":"import","notice":{"sender":9,"addressee":7,"number":2,"account":1,"version":1,"parts":[{"first":"07000000000020","last":"07000000000020","lot":{"capacity_w":2000000,"commissioned":"2020-06-15","country":"DE","device":"500000000000000012","first_day":"2025-01-01","issued_on":"2025-03-01","last_day":"2025-01-31","origin":7,"site":"North field","source":"F01010100","support":"none","tech":"T010000"}}]},"key":"notice-2"}"#,
                r#"{"code":25,"name":"NumberTaken","number":"07000000000020","outcome":"refused"}"#,
            ),
            (
                "ISSUER",
                r#"{"command":"import","notice":{"sender":9,"addressee":7,"number":1,"account":1,"version":1,"parts":[{"first":"07000000000020","last":"07000000000029","lot":{"capacity_w":2000000,"commissioned":"2020-06-15","country":"DE","device":"500000000000000012","first_day":"2025-01-01","issued_on":"2025-03-01","last_day":"2025-01-31","origin":7,"site":"North field","source":"F01010100","support":"none","tech":"T010000"}}]},"key":"notice-1-again"}"#,
                r#"{"outcome":"repeated","reply":{"count":10}}"#,
            ),
            (
                "ISSUER",
                r#"{"command":"withdraw","first":"07000000000025","last":"07000000000025","reason":"meter read twice","key":"withdraw-25"}"#,
                r#"{"code":17,"name":"NotHeld","number":"07000000000025","outcome":"refused"}"#,
            ),
            (
                "SUN",
                r#"{"command":"export","giver":1,"peer":9,"account":5,"first":"07000000000019","last":"07000000000020","key":"export-19-to-20"}"#,
                r#"{"code":17,"name":"NotHeld","number":"07000000000020","outcome":"refused"}"#,
            ),
            (
                "ISSUER",
                r#"{"command":"declare","device":"500000000000000012","first_day":"2025-04-01","last_day":"2025-04-04","gross_wh":10000000,"aux_wh":0,"key":"declare-2025-04-01-to-04-04"}"#,
                r#"{"outcome":"accepted","reply":{"carry":0,"count":10,"first":"07000000001202","last":"07000000001211"}}"#,
            ),
        ],
        shown: "1 07000000000001 07000000000019 2025-01-01 held\n1 07000000000020 07000000000029 2025-01-01 withdrawn:1\n1 07000000000030 07000000001200 2025-01-01 held\n1 07000000001201 07000000001201 2025-03-01 held\n1 07000000001202 07000000001211 2025-04-01 held\n500000000000000012 1211000000 10000000 1211 10 0\n",
    },
];
