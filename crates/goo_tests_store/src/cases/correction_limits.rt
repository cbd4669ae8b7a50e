//! Worked cases, written by tools/gate/cases-as-tests from cases/: change them there.

use crate::worked::Case;

pub const CORRECTION_LIMITS: [Case; 3] = [
    Case {
        name: "corrections_after_the_deadlines",
        serial: 1,
        begun: 9,
        asked: &[
            (
                "ISSUER",
                r#"{"command":"advance","day":"2026-02-01","key":"advance-to-2026-02-01"}"#,
                r#"{"outcome":"accepted","reply":{"expired":0}}"#,
            ),
            (
                "SUN",
                r#"{"command":"transfer","giver":1,"taker":2,"first":"07000000000001","last":"07000000000001","key":"transfer-1"}"#,
                r#"{"code":18,"name":"TradeClosed","number":"07000000000001","outcome":"refused"}"#,
            ),
            (
                "ISSUER",
                r#"{"command":"correct","device":"500000000000000012","first_day":"2025-01-01","less_wh":1000000,"first":"07000000000001","last":"07000000000001","reason":"meter read twice","key":"correct-january-1MWh-1"}"#,
                r#"{"outcome":"accepted","reply":{"carry":0,"count":1,"withdrawal":1}}"#,
            ),
            (
                "ISSUER",
                r#"{"command":"advance","day":"2026-08-01","key":"advance-to-2026-08-01"}"#,
                r#"{"outcome":"accepted","reply":{"expired":1199}}"#,
            ),
            (
                "ISSUER",
                r#"{"command":"correct","device":"500000000000000012","first_day":"2025-01-01","less_wh":1000000,"first":"07000000000002","last":"07000000000002","reason":"meter read twice","key":"correct-january-1MWh-2"}"#,
                r#"{"code":17,"name":"NotHeld","number":"07000000000002","outcome":"refused"}"#,
            ),
            (
                "ISSUER",
                r#"{"command":"correct","device":"500000000000000012","first_day":"2025-01-01","less_wh":1000000,"first":"07000000001201","last":"07000000001201","reason":"meter read twice","key":"correct-january-1MWh-1201"}"#,
                r#"{"outcome":"accepted","reply":{"carry":0,"count":1,"withdrawal":2}}"#,
            ),
            (
                "ISSUER",
                r#"{"command":"correct","device":"500000000000000012","first_day":"2025-01-01","less_wh":1,"first":"","last":"","reason":"meter read twice","key":"correct-january-1Wh"}"#,
                r#"{"code":33,"name":"WrongCount","outcome":"refused"}"#,
            ),
            (
                "SUN",
                r#"{"command":"close_account","account":1,"key":"close-account-1"}"#,
                r#"{"outcome":"accepted","reply":{}}"#,
            ),
            (
                "ISSUER",
                r#"{"command":"correct","device":"500000000000000012","first_day":"2025-02-01","less_wh":0,"first":"","last":"","reason":"meter read twice","key":"correct-february-0Wh"}"#,
                r#"{"outcome":"accepted","reply":{"carry":0,"count":0,"withdrawal":0}}"#,
            ),
        ],
        shown: "1 07000000000001 07000000000001 2025-01-01 withdrawn:1\n1 07000000000002 07000000001200 2025-01-01 expired\n1 07000000001201 07000000001201 2025-03-01 withdrawn:2\n500000000000000012 1201000000 2000000 1201 2 0\n",
    },
    Case {
        name: "corrections_that_are_refused",
        serial: 1,
        begun: 9,
        asked: &[
            (
                "SUN",
                r#"{"command":"correct","device":"500000000000000029","first_day":"2025-01-01","less_wh":1,"first":"","last":"","reason":"meter read twice","key":"correct-january-of-29-1Wh-by-SUN"}"#,
                r#"{"code":1,"name":"NotAllowed","outcome":"refused"}"#,
            ),
            (
                "ISSUER",
                r#"{"command":"correct","device":"500000000000000029","first_day":"2025-01-01","less_wh":1,"first":"","last":"","reason":"meter read twice","key":"correct-january-of-29-1Wh"}"#,
                r#"{"code":9,"name":"UnknownDevice","outcome":"refused"}"#,
            ),
            (
                "ISSUER",
                r#"{"command":"register_device","account":1,"capacity_w":2000000,"commissioned":"2020-06-15","country":"DE","device":"500000000000000029","site":"North field","source":"F01010100","support":"none","tech":"T010000","key":"device-29"}"#,
                r#"{"outcome":"accepted","reply":{}}"#,
            ),
            (
                "ISSUER",
                r#"{"command":"declare","device":"500000000000000029","first_day":"2025-04-01","last_day":"2025-04-04","gross_wh":1000000,"aux_wh":0,"key":"declare-2025-04-01-to-04-04-of-29"}"#,
                r#"{"outcome":"accepted","reply":{"carry":0,"count":1,"first":"07000000001202","last":"07000000001202"}}"#,
            ),
            (
                "ISSUER",
                r#"{"command":"add_peer","peer":9,"key":"peer-9"}"#,
                r#"{"outcome":"accepted","reply":{}}"#,
            ),
            (
                "ISSUER",
                r#"{"command":"import","notice":{"sender":9,"addressee":7,"number":1,"account":1,"version":1,"parts":[{"first":"09000000000001","last":"09000000000001","lot":{"capacity_w":2000000,"commissioned":"2020-06-15","country":"DE","device":"500000000000000012","first_day":"2025-01-01","issued_on":"2025-03-01","last_day":"2025-01-31","origin":9,"site":"North field","source":"F01010100","support":"none","tech":"T010000"}}]},"key":"notice-1"}"#,
                r#"{"outcome":"accepted","reply":{"count":1}}"#,
            ),
            (
                "ISSUER",
                r#"{"command":"withdraw","first":"07000000001201","last":"07000000001201","reason":"meter read twice","key":"withdraw-1201"}"#,
                r#"{"outcome":"accepted","reply":{"count":1,"withdrawal":1}}"#,
            ),
            (
                "ISSUER",
                r#"{"command":"correct","device":"500000000000000029","first_day":"2025-01-01","less_wh":1000000000000000,"first":"","last":"","reason":"meter read twice","key":"correct-january-of-29-1000000000MWh"}"#,
                r#"{"code":31,"name":"UnknownDeclaration","outcome":"refused"}"#,
            ),
            (
                "ISSUER",
                r#"{"command":"correct","device":"500000000000000012","first_day":"2025-01-31","less_wh":0,"first":"07000000000001","last":"07000000000001","reason":"meter read twice","key":"correct-january-0Wh-1"}"#,
                r#"{"code":31,"name":"UnknownDeclaration","outcome":"refused"}"#,
            ),
            (
                "ISSUER",
                r#"{"command":"correct","device":"500000000000000012","first_day":"2025-02-01","less_wh":1000000,"first":"","last":"","reason":"meter read twice","key":"correct-february-1MWh"}"#,
                r#"{"code":32,"name":"OverCorrected","outcome":"refused"}"#,
            ),
            (
                "ISSUER",
                r#"{"command":"correct","device":"500000000000000012","first_day":"2025-01-01","less_wh":1000000,"first":"","last":"","reason":"meter read twice","key":"correct-january-1MWh"}"#,
                r#"{"code":33,"name":"WrongCount","outcome":"refused"}"#,
            ),
            (
                "ISSUER",
                r#"{"command":"correct","device":"500000000000000012","first_day":"2025-01-01","less_wh":0,"first":"07000000000001","last":"07000000000001","reason":"meter read twice","key":"correct-january-0Wh-1-again"}"#,
                r#"{"code":33,"name":"WrongCount","outcome":"refused"}"#,
            ),
            (
                "ISSUER",
                r#"{"command":"correct","device":"500000000000000012","first_day":"2025-02-01","less_wh":999999,"first":"07000000000001","last":"07000000000002","reason":"meter read twice","key":"correct-february-999999Wh-1-to-2"}"#,
                r#"{"code":33,"name":"WrongCount","outcome":"refused"}"#,
            ),
            (
                "ISSUER",
                r#"{"command":"correct","device":"500000000000000012","first_day":"2025-01-01","less_wh":1000000,"first":"07000000001203","last":"07000000001204","reason":"meter read twice","key":"correct-january-1MWh-1203-to-1204"}"#,
                r#"{"code":33,"name":"WrongCount","outcome":"refused"}"#,
            ),
            (
                "ISSUER",
                r#"{"command":"correct","device":"500000000000000012","first_day":"2025-01-01","less_wh":2000000,"first":"07000000001202","last":"07000000001203","reason":"meter read twice","key":"correct-january-2MWh-1202-to-1203"}"#,
                r#"{"code":16,"name":"UnknownNumber","number":"07000000001203","outcome":"refused"}"#,
            ),
            (
                "ISSUER",
                r#"{"command":"correct","device":"500000000000000012","first_day":"2025-01-01","less_wh":2000000,"first":"07000000001201","last":"07000000001202","reason":"meter read twice","key":"correct-january-2MWh-1201-to-1202"}"#,
                r#"{"code":34,"name":"OtherDevice","number":"07000000001202","outcome":"refused"}"#,
            ),
            (
                "ISSUER",
                r#"{"command":"correct","device":"500000000000000012","first_day":"2025-01-01","less_wh":1000000,"first":"09000000000001","last":"09000000000001","reason":"meter read twice","key":"correct-january-1MWh-09:1"}"#,
                r#"{"code":34,"name":"OtherDevice","number":"09000000000001","outcome":"refused"}"#,
            ),
            (
                "ISSUER",
                r#"{"command":"correct","device":"500000000000000012","first_day":"2025-01-01","less_wh":2000000,"first":"07000000001200","last":"07000000001201","reason":"meter read twice","key":"correct-january-2MWh-1200-to-1201"}"#,
                r#"{"code":17,"name":"NotHeld","number":"07000000001201","outcome":"refused"}"#,
            ),
        ],
        shown: "1 07000000000001 07000000001200 2025-01-01 held\n1 07000000001201 07000000001201 2025-03-01 withdrawn:1\n1 07000000001202 07000000001202 2025-04-01 held\n1 09000000000001 09000000000001 2025-01-01 held\n500000000000000012 1201000000 0 1201 0 0\n500000000000000029 1000000 0 1 0 0\n",
    },
    Case {
        name: "what_is_declared_after_a_correction",
        serial: 1,
        begun: 9,
        asked: &[
            (
                "ISSUER",
                r#"{"command":"correct","device":"500000000000000012","first_day":"2025-02-01","less_wh":999999,"first":"07000000001201","last":"07000000001201","reason":"meter read twice","key":"correct-february-999999Wh-1201"}"#,
                r#"{"outcome":"accepted","reply":{"carry":1,"count":1,"withdrawal":1}}"#,
            ),
            (
                "ISSUER",
                r#"{"command":"correct","device":"500000000000000012","first_day":"2025-01-01","less_wh":1,"first":"","last":"","reason":"meter read twice","key":"correct-january-1Wh"}"#,
                r#"{"outcome":"accepted","reply":{"carry":0,"count":0,"withdrawal":0}}"#,
            ),
            (
                "ISSUER",
                r#"{"command":"declare","device":"500000000000000012","first_day":"2025-04-01","last_day":"2025-04-04","gross_wh":1000000,"aux_wh":0,"key":"declare-2025-04-01-to-04-04"}"#,
                r#"{"outcome":"accepted","reply":{"carry":0,"count":1,"first":"07000000001202","last":"07000000001202"}}"#,
            ),
            (
                "ISSUER",
                r#"{"command":"register_device","account":1,"capacity_w":2000000,"commissioned":"2020-06-15","country":"DE","device":"500000000000000029","site":"North field","source":"F01010100","support":"none","tech":"T010000","key":"device-29"}"#,
                r#"{"outcome":"accepted","reply":{}}"#,
            ),
            (
                "ISSUER",
                r#"{"command":"declare","device":"500000000000000029","first_day":"2025-04-01","last_day":"2025-04-04","gross_wh":1000000,"aux_wh":0,"key":"declare-2025-04-01-to-04-04-of-29"}"#,
                r#"{"outcome":"accepted","reply":{"carry":0,"count":1,"first":"07000000001203","last":"07000000001203"}}"#,
            ),
            (
                "ISSUER",
                r#"{"command":"correct","device":"500000000000000012","first_day":"2025-01-01","less_wh":1000000,"first":"07000000001203","last":"07000000001203","reason":"meter read twice","key":"correct-january-1MWh-1203"}"#,
                r#"{"code":34,"name":"OtherDevice","number":"07000000001203","outcome":"refused"}"#,
            ),
        ],
        shown: "1 07000000000001 07000000001200 2025-01-01 held\n1 07000000001201 07000000001201 2025-03-01 withdrawn:1\n1 07000000001202 07000000001202 2025-04-01 held\n1 07000000001203 07000000001203 2025-04-01 held\n500000000000000012 1202000000 1000000 1202 1 0\n500000000000000029 1000000 0 1 0 0\n",
    },
];
