//! Worked cases, written by tools/gate/cases-as-tests from cases/: change them there.

use crate::worked::Case;

pub const NOTICES: [Case; 3] = [
    Case {
        name: "a_notice_of_two_carriers",
        serial: 1,
        begun: 5,
        asked: &[
            (
                "ISSUER",
                r#"{"command":"add_peer","peer":9,"key":"peer-9"}"#,
                r#"{"outcome":"accepted","reply":{}}"#,
            ),
            (
                "ISSUER",
                r#"{"command":"import","notice":{"sender":9,"addressee":7,"number":1,"account":1,"version":2,"parts":[{"first":"09000000000001","last":"09000000000010","lot":{"capacity_w":2000000,"commissioned":"2020-06-15","country":"DE","device":"500000000000000012","first_day":"2025-01-01","issued_on":"2025-03-01","last_day":"2025-01-31","origin":9,"site":"North field","source":"F01010100","support":"none","tech":"T010000","carrier":"gas"}},{"first":"09000000000011","last":"09000000000015","lot":{"capacity_w":2000000,"commissioned":"2020-06-15","country":"DE","device":"500000000000000029","first_day":"2025-01-01","issued_on":"2025-03-01","last_day":"2025-01-31","origin":9,"site":"North field","source":"F01010100","support":"none","tech":"T010000","carrier":"heating-cooling"}}]},"key":"notice-1"}"#,
                r#"{"outcome":"accepted","reply":{"count":15}}"#,
            ),
            (
                "ISSUER",
                r#"{"command":"import","notice":{"sender":9,"addressee":7,"number":2,"account":1,"version":2,"parts":[{"first":"09000000000020","last":"09000000000020","lot":{"capacity_w":2000000,"commissioned":"2020-06-15","country":"DE","device":"500000000000000012","first_day":"2025-01-01","issued_on":"2025-03-01","last_day":"2025-01-31","origin":9,"site":"North field","source":"F01010100","support":"none","tech":"T010000","carrier":"hydrogen"}}]},"key":"notice-2-as-hydrogen"}"#,
                r#"{"code":26,"name":"LotDiffers","number":"09000000000020","outcome":"refused"}"#,
            ),
            (
                "ISSUER",
                r#"{"command":"import","notice":{"sender":9,"addressee":7,"number":2,"account":1,"version":1,"parts":[{"first":"09000000000020","last":"09000000000020","lot":{"capacity_w":2000000,"commissioned":"2020-06-15","country":"DE","device":"500000000000000012","first_day":"2025-01-01","issued_on":"2025-03-01","last_day":"2025-01-31","origin":9,"site":"North field","source":"F01010100","support":"none","tech":"T010000"}}]},"key":"notice-2-in-version-1"}"#,
                r#"{"code":26,"name":"LotDiffers","number":"09000000000020","outcome":"refused"}"#,
            ),
            (
                "ISSUER",
                r#"{"command":"import","notice":{"sender":9,"addressee":7,"number":2,"account":1,"version":2,"parts":[{"first":"09000000000020","last":"09000000000020","lot":{"capacity_w":2000000,"commissioned":"2020-06-15","country":"DE","device":"500000000000000012","first_day":"2025-01-01","issued_on":"2025-03-01","last_day":"2025-01-31","origin":9,"site":"North field","source":"F01010100","support":"none","tech":"T010000","carrier":"gas"}},{"first":"09000000000021","last":"09000000000021","lot":{"capacity_w":2000000,"commissioned":"2020-06-15","country":"DE","device":"500000000000000029","first_day":"2025-01-01","issued_on":"2025-03-01","last_day":"2025-01-31","origin":9,"site":"North field","source":"F01010100","support":"none","tech":"T010000","carrier":"gas"}}]},"key":"notice-2-device-29-as-gas"}"#,
                r#"{"code":26,"name":"LotDiffers","number":"09000000000021","outcome":"refused"}"#,
            ),
            (
                "ISSUER",
                r#"{"command":"import","notice":{"sender":9,"addressee":7,"number":2,"account":1,"version":2,"parts":[{"first":"09000000000020","last":"09000000000020","lot":{"capacity_w":2000000,"commissioned":"2020-06-15","country":"DE","device":"500000000000000012","first_day":"2025-01-01","issued_on":"2025-03-01","last_day":"2025-01-31","origin":9,"site":"North field","source":"F01010100","support":"none","tech":"T010000","carrier":"gas"}},{"first":"09000000000021","last":"09000000000022","lot":{"capacity_w":2000000,"commissioned":"2020-06-15","country":"DE","device":"500000000000000012","first_day":"2025-02-01","issued_on":"2025-03-01","last_day":"2025-02-28","origin":9,"site":"North field","source":"F01010100","support":"none","tech":"T010000","carrier":"electricity"}}]},"key":"notice-2"}"#,
                r#"{"outcome":"accepted","reply":{"count":3}}"#,
            ),
            (
                "SUN",
                r#"{"command":"transfer","giver":1,"taker":2,"first":"09000000000009","last":"09000000000012","key":"transfer-09:9-to-09:12"}"#,
                r#"{"outcome":"accepted","reply":{"count":4}}"#,
            ),
            (
                "VOLT",
                r#"{"command":"export","giver":2,"peer":9,"account":5,"first":"09000000000010","last":"09000000000011","key":"export-09:10-to-09:11"}"#,
                r#"{"outcome":"accepted","reply":{"count":2,"notice":1}}"#,
            ),
            (
                "ISSUER",
                r#"{"command":"import","notice":{"sender":9,"addressee":7,"number":3,"account":1,"version":2,"parts":[{"first":"09000000000010","last":"09000000000010","lot":{"capacity_w":2000000,"commissioned":"2020-06-15","country":"DE","device":"500000000000000012","first_day":"2025-01-01","issued_on":"2025-03-01","last_day":"2025-01-31","origin":9,"site":"North field","source":"F01010100","support":"none","tech":"T010000","carrier":"gas"}},{"first":"09000000000011","last":"09000000000011","lot":{"capacity_w":2000000,"commissioned":"2020-06-15","country":"DE","device":"500000000000000029","first_day":"2025-01-01","issued_on":"2025-03-01","last_day":"2025-01-31","origin":9,"site":"North field","source":"F01010100","support":"none","tech":"T010000","carrier":"hydrogen"}}]},"key":"notice-3-as-hydrogen"}"#,
                r#"{"code":26,"name":"LotDiffers","number":"09000000000011","outcome":"refused"}"#,
            ),
            (
                "ISSUER",
                r#"{"command":"import","notice":{"sender":9,"addressee":7,"number":3,"account":1,"version":2,"parts":[{"first":"09000000000010","last":"09000000000010","lot":{"capacity_w":2000000,"commissioned":"2020-06-15","country":"DE","device":"500000000000000012","first_day":"2025-01-01","issued_on":"2025-03-01","last_day":"2025-01-31","origin":9,"site":"North field","source":"F01010100","support":"none","tech":"T010000","carrier":"gas"}},{"first":"09000000000011","last":"09000000000011","lot":{"capacity_w":2000000,"commissioned":"2020-06-15","country":"DE","device":"500000000000000029","first_day":"2025-01-01","issued_on":"2025-03-01","last_day":"2025-01-31","origin":9,"site":"North field","source":"F01010100","support":"none","tech":"T010000","carrier":"heating-cooling"}}]},"key":"notice-3"}"#,
                r#"{"outcome":"accepted","reply":{"count":2}}"#,
            ),
            (
                "SUN",
                r#"{"command":"export","giver":1,"peer":9,"account":5,"first":"09000000000020","last":"09000000000022","key":"export-09:20-to-09:22"}"#,
                r#"{"outcome":"accepted","reply":{"count":3,"notice":2}}"#,
            ),
        ],
        shown: "1 09000000000001 09000000000008 2025-01-01 held\n1 09000000000010 09000000000010 2025-01-01 held\n1 09000000000011 09000000000011 2025-01-01 held\n1 09000000000013 09000000000015 2025-01-01 held\n1 09000000000020 09000000000020 2025-01-01 exported:2\n1 09000000000021 09000000000022 2025-02-01 exported:2\n2 09000000000009 09000000000009 2025-01-01 held\n2 09000000000012 09000000000012 2025-01-01 held\n500000000000000012 0 0 0 0 0\n",
    },
    Case {
        name: "another_lot_and_a_stale_one",
        serial: 1,
        begun: 10,
        asked: &[
            (
                "SUN",
                r#"{"command":"export","giver":1,"peer":9,"account":5,"first":"07000000000020","last":"07000000000029","key":"export-20-to-29"}"#,
                r#"{"outcome":"accepted","reply":{"count":10,"notice":1}}"#,
            ),
            (
                "ISSUER",
                r#"{"command":"import","notice":{"sender":9,"addressee":7,"number":1,"account":1,"version":1,"parts":[{"first":"07000000000020","last":"07000000000029","lot":{"capacity_w":2000000,"commissioned":"2020-06-15","country":"DE","device":"500000000000000012","first_day":"2025-01-01","issued_on":"2025-03-01","last_day":"2025-01-31","origin":7,"site":"South field","source":"F01010100","support":"none","tech":"T010000"}}]},"key":"notice-1-of-another-site"}"#,
                r#"{"code":26,"name":"LotDiffers","number":"07000000000020","outcome":"refused"}"#,
            ),
            (
                "ISSUER",
                r#"{"command":"import","notice":{"sender":9,"addressee":7,"number":2,"account":1,"version":1,"parts":[{"first":"09000000000001","last":"09000000000001","lot":{"capacity_w":2000000,"commissioned":"2020-06-15","country":"DE","device":"500000000000000012","first_day":"2023-01-01","issued_on":"2023-03-01","last_day":"2023-01-31","origin":9,"site":"North field","source":"F01010100","support":"none","tech":"T010000"}}]},"key":"notice-2-of-2023"}"#,
                r#"{"code":27,"name":"Stale","outcome":"refused"}"#,
            ),
        ],
        shown: "1 07000000000001 07000000000019 2025-01-01 held\n1 07000000000020 07000000000029 2025-01-01 exported:1\n1 07000000000030 07000000001200 2025-01-01 held\n1 07000000001201 07000000001201 2025-03-01 held\n500000000000000012 1201000000 0 1201 0 0\n",
    },
    Case {
        name: "notices_that_are_refused",
        serial: 1,
        begun: 10,
        asked: &[
            (
                "ISSUER",
                r#"{"command":"import","notice":{"sender":9,"addressee":7,"number":2,"account":1,"version":1,"parts":[{"first":"07000000001202","last":"07000000001202","lot":{"capacity_w":2000000,"commissioned":"2020-06-15","country":"DE","device":"500000000000000012","first_day":"2025-01-01","issued_on":"2025-03-01","last_day":"2025-01-31","origin":7,"site":"North field","source":"F01010100","support":"none","tech":"T010000"}}]},"key":"notice-2-of-an-unknown-number"}"#,
                r#"{"code":16,"name":"UnknownNumber","number":"07000000001202","outcome":"refused"}"#,
            ),
            (
                "ISSUER",
                r#"{"command":"import","notice":{"sender":9,"addressee":7,"number":2,"account":1,"version":1,"parts":[{"first":"07000000000001","last":"07000000000001","lot":{"capacity_w":2000000,"commissioned":"2020-06-15","country":"DE","device":"500000000000000012","first_day":"2025-01-01","issued_on":"2025-03-01","last_day":"2025-01-31","origin":7,"site":"North field","source":"F01010100","support":"none","tech":"T010000"}}]},"key":"notice-2-of-a-number-held-here"}"#,
                r#"{"code":25,"name":"NumberTaken","number":"07000000000001","outcome":"refused"}"#,
            ),
        ],
        shown: "",
    },
];
