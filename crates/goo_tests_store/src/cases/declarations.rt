//! Worked cases, written by tools/gate/cases-as-tests from cases/: change them there.

use crate::worked::Case;

pub const DECLARATIONS: [Case; 11] = [
    Case {
        name: "an_old_period",
        serial: 1,
        begun: 9,
        asked: &[
            (
                "ISSUER",
                r#"{"command":"register_device","account":1,"capacity_w":2000000,"commissioned":"2020-06-15","country":"DE","device":"500000000000000029","site":"North field","source":"F01010100","support":"none","tech":"T010000","key":"device-29"}"#,
                r#"{"outcome":"accepted","reply":{}}"#,
            ),
            (
                "ISSUER",
                r#"{"command":"declare","device":"500000000000000029","first_day":"2023-09-01","last_day":"2023-09-30","gross_wh":1,"aux_wh":0,"key":"declare-september-2023-of-29"}"#,
                r#"{"code":27,"name":"Stale","outcome":"refused"}"#,
            ),
            (
                "ISSUER",
                r#"{"command":"declare","device":"500000000000000029","first_day":"2023-10-01","last_day":"2023-10-31","gross_wh":1000000,"aux_wh":0,"key":"declare-october-2023-of-29"}"#,
                r#"{"outcome":"accepted","reply":{"carry":0,"count":1,"first":"07000000001202","last":"07000000001202"}}"#,
            ),
            (
                "SUN",
                r#"{"command":"transfer","giver":1,"taker":2,"first":"07000000001202","last":"07000000001202","key":"transfer-1202"}"#,
                r#"{"code":18,"name":"TradeClosed","number":"07000000001202","outcome":"refused"}"#,
            ),
            (
                "SUN",
                r#"{"command":"cancel","account":1,"first":"07000000001202","last":"07000000001202","beneficiary":"X","use_first":"2025-01-01","use_last":"2025-03-31","key":"cancel-1202"}"#,
                r#"{"outcome":"accepted","reply":{"cancellation":1,"count":1}}"#,
            ),
        ],
        shown: "",
    },
    Case {
        name: "declarations_that_are_refused",
        serial: 1,
        begun: 5,
        asked: &[
            (
                "ISSUER",
                r#"{"command":"declare","device":"500000000000000029","first_day":"2025-01-01","last_day":"2025-01-31","gross_wh":1,"aux_wh":0,"key":"declare-january-of-29"}"#,
                r#"{"code":9,"name":"UnknownDevice","outcome":"refused"}"#,
            ),
            (
                "ISSUER",
                r#"{"command":"declare","device":"500000000000000012","first_day":"2025-01-31","last_day":"2025-02-01","gross_wh":1,"aux_wh":0,"key":"declare-2025-01-31-to-02-01"}"#,
                r#"{"code":12,"name":"PeriodSpan","outcome":"refused"}"#,
            ),
            (
                "ISSUER",
                r#"{"command":"declare","device":"500000000000000012","first_day":"2025-03-01","last_day":"2025-03-01","gross_wh":1,"aux_wh":0,"key":"declare-2025-03-01"}"#,
                r#"{"code":28,"name":"FuturePeriod","outcome":"refused"}"#,
            ),
            (
                "ISSUER",
                r#"{"command":"declare","device":"500000000000000012","first_day":"2020-06-14","last_day":"2020-06-30","gross_wh":1,"aux_wh":0,"key":"declare-2020-06-14-to-06-30"}"#,
                r#"{"code":10,"name":"BeforeCommissioning","outcome":"refused"}"#,
            ),
            (
                "ISSUER",
                r#"{"command":"declare","device":"500000000000000012","first_day":"2023-08-01","last_day":"2023-08-31","gross_wh":1,"aux_wh":0,"key":"declare-august-2023"}"#,
                r#"{"code":27,"name":"Stale","outcome":"refused"}"#,
            ),
            (
                "ISSUER",
                r#"{"command":"declare","device":"500000000000000012","first_day":"2025-01-01","last_day":"2025-01-31","gross_wh":1234567890,"aux_wh":34567890,"key":"declare-january"}"#,
                r#"{"outcome":"accepted","reply":{"carry":0,"count":1200,"first":"07000000000001","last":"07000000001200"}}"#,
            ),
            (
                "ISSUER",
                r#"{"command":"declare","device":"500000000000000012","first_day":"2025-01-31","last_day":"2025-01-31","gross_wh":1,"aux_wh":0,"key":"declare-2025-01-31"}"#,
                r#"{"code":11,"name":"PeriodOrder","outcome":"refused"}"#,
            ),
            (
                "ISSUER",
                r#"{"command":"declare","device":"500000000000000012","first_day":"2025-02-01","last_day":"2025-02-28","gross_wh":5,"aux_wh":6,"key":"declare-february"}"#,
                r#"{"code":13,"name":"AuxExceedsGross","outcome":"refused"}"#,
            ),
        ],
        shown: "",
    },
    Case {
        name: "just_the_capacity",
        serial: 1,
        begun: 5,
        asked: &[(
            "ISSUER",
            r#"{"command":"declare","device":"500000000000000012","first_day":"2025-01-01","last_day":"2025-01-31","gross_wh":1490000000,"aux_wh":0,"key":"declare-january"}"#,
            r#"{"outcome":"accepted","reply":{"carry":0,"count":1490,"first":"07000000000001","last":"07000000001490"}}"#,
        )],
        shown: "",
    },
    Case {
        name: "more_auxiliaries_than_gross",
        serial: 1,
        begun: 9,
        asked: &[
            (
                "ISSUER",
                r#"{"command":"declare","device":"500000000000000012","first_day":"2025-04-01","last_day":"2025-04-03","gross_wh":500,"aux_wh":500,"key":"declare-2025-04-01-to-04-03"}"#,
                r#"{"outcome":"accepted","reply":{"carry":0,"count":0}}"#,
            ),
            (
                "ISSUER",
                r#"{"command":"declare","device":"500000000000000012","first_day":"2025-04-04","last_day":"2025-04-04","gross_wh":500,"aux_wh":501,"key":"declare-2025-04-04"}"#,
                r#"{"code":13,"name":"AuxExceedsGross","outcome":"refused"}"#,
            ),
        ],
        shown: "1 07000000000001 07000000001200 2025-01-01 held\n1 07000000001201 07000000001201 2025-03-01 held\n500000000000000012 1201000000 0 1201 0 0\n",
    },
    Case {
        name: "one_serial_too_few",
        serial: 999_999_999_999,
        begun: 5,
        asked: &[(
            "ISSUER",
            r#"{"command":"declare","device":"500000000000000012","first_day":"2025-01-01","last_day":"2025-01-31","gross_wh":2000000,"aux_wh":0,"key":"declare-january"}"#,
            r#"{"code":15,"name":"NumbersExhausted","outcome":"refused"}"#,
        )],
        shown: "500000000000000012 0 0 0 0 0\n",
    },
    Case {
        name: "one_watt-hour_above_the_capacity",
        serial: 1,
        begun: 5,
        asked: &[(
            "ISSUER",
            r#"{"command":"declare","device":"500000000000000012","first_day":"2025-01-01","last_day":"2025-01-31","gross_wh":1490000001,"aux_wh":0,"key":"declare-january"}"#,
            r#"{"code":14,"name":"OverCapacity","outcome":"refused"}"#,
        )],
        shown: "",
    },
    Case {
        name: "periods_that_are_refused",
        serial: 1,
        begun: 9,
        asked: &[
            (
                "ISSUER",
                r#"{"command":"declare","device":"500000000000000012","first_day":"2025-03-31","last_day":"2025-04-01","gross_wh":1,"aux_wh":0,"key":"declare-2025-03-31-to-04-01"}"#,
                r#"{"code":12,"name":"PeriodSpan","outcome":"refused"}"#,
            ),
            (
                "ISSUER",
                r#"{"command":"declare","device":"500000000000000012","first_day":"2025-04-01","last_day":"2025-04-05","gross_wh":1,"aux_wh":0,"key":"declare-2025-04-01-to-04-05"}"#,
                r#"{"code":28,"name":"FuturePeriod","outcome":"refused"}"#,
            ),
            (
                "ISSUER",
                r#"{"command":"declare","device":"500000000000000012","first_day":"2020-06-14","last_day":"2020-06-30","gross_wh":1,"aux_wh":0,"key":"declare-2020-06-14-to-06-30"}"#,
                r#"{"code":10,"name":"BeforeCommissioning","outcome":"refused"}"#,
            ),
            (
                "ISSUER",
                r#"{"command":"declare","device":"500000000000000012","first_day":"2025-03-31","last_day":"2025-03-31","gross_wh":1,"aux_wh":0,"key":"declare-2025-03-31"}"#,
                r#"{"code":11,"name":"PeriodOrder","outcome":"refused"}"#,
            ),
        ],
        shown: "",
    },
    Case {
        name: "the_last_day_of_a_month",
        serial: 1,
        begun: 9,
        asked: &[(
            "ISSUER",
            r#"{"command":"advance","day":"2026-07-31","key":"advance-to-2026-07-31"}"#,
            r#"{"outcome":"accepted","reply":{"expired":0}}"#,
        )],
        shown: "1 07000000000001 07000000001200 2025-01-01 held\n1 07000000001201 07000000001201 2025-03-01 held\n500000000000000012 1201000000 0 1201 0 0\n",
    },
    Case {
        name: "the_last_serial_of_all",
        serial: 999_999_999_999,
        begun: 5,
        asked: &[
            (
                "ISSUER",
                r#"{"command":"declare","device":"500000000000000012","first_day":"2025-01-01","last_day":"2025-01-31","gross_wh":2000000,"aux_wh":0,"key":"declare-january"}"#,
                r#"{"code":15,"name":"NumbersExhausted","outcome":"refused"}"#,
            ),
            (
                "ISSUER",
                r#"{"command":"declare","device":"500000000000000012","first_day":"2025-01-01","last_day":"2025-01-31","gross_wh":1000000,"aux_wh":0,"key":"declare-january"}"#,
                r#"{"outcome":"accepted","reply":{"carry":0,"count":1,"first":"07999999999999","last":"07999999999999"}}"#,
            ),
            (
                "ISSUER",
                r#"{"command":"declare","device":"500000000000000012","first_day":"2025-02-01","last_day":"2025-02-28","gross_wh":999999,"aux_wh":0,"key":"declare-february"}"#,
                r#"{"outcome":"accepted","reply":{"carry":999999,"count":0}}"#,
            ),
        ],
        shown: "1 07999999999999 07999999999999 2025-01-01 held\n500000000000000012 1999999 0 1 0 999999\n",
    },
    Case {
        name: "three_declarations",
        serial: 1,
        begun: 9,
        asked: &[],
        shown: "1 07000000000001 07000000001200 2025-01-01 held\n1 07000000001201 07000000001201 2025-03-01 held\n500000000000000012 1201000000 0 1201 0 0\n",
    },
    Case {
        name: "two_halves_of_a_month",
        serial: 1,
        begun: 5,
        asked: &[
            (
                "ISSUER",
                r#"{"command":"declare","device":"500000000000000012","first_day":"2025-01-01","last_day":"2025-01-15","gross_wh":1000000,"aux_wh":0,"key":"declare-2025-01-01-to-01-15"}"#,
                r#"{"outcome":"accepted","reply":{"carry":0,"count":1,"first":"07000000000001","last":"07000000000001"}}"#,
            ),
            (
                "ISSUER",
                r#"{"command":"declare","device":"500000000000000012","first_day":"2025-01-16","last_day":"2025-01-31","gross_wh":1000000,"aux_wh":0,"key":"declare-2025-01-16-to-01-31"}"#,
                r#"{"outcome":"accepted","reply":{"carry":0,"count":1,"first":"07000000000002","last":"07000000000002"}}"#,
            ),
            (
                "SUN",
                r#"{"command":"transfer","giver":1,"taker":2,"first":"07000000000001","last":"07000000000002","key":"transfer-1-to-2"}"#,
                r#"{"outcome":"accepted","reply":{"count":2}}"#,
            ),
        ],
        shown: "2 07000000000001 07000000000001 2025-01-01 held\n2 07000000000002 07000000000002 2025-01-16 held\n500000000000000012 2000000 0 2 0 0\n",
    },
];
