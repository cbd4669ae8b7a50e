//! Worked cases, written by tools/gate/cases-as-tests from cases/: change them there.

use crate::worked::Case;

pub const CORRECTIONS: [Case; 5] = [
    Case {
        name: "a_correction_of_nothing",
        serial: 1,
        begun: 9,
        asked: &[
            (
                "ISSUER",
                r#"{"command":"correct","device":"500000000000000012","first_day":"2025-02-01","less_wh":0,"first":"","last":"","reason":"meter read twice","key":"correct-february-0Wh"}"#,
                r#"{"outcome":"accepted","reply":{"carry":0,"count":0,"withdrawal":0}}"#,
            ),
            (
                "ISSUER",
                r#"{"command":"correct","device":"500000000000000012","first_day":"2025-02-01","less_wh":0,"first":"","last":"","reason":"meter read twice","key":"correct-february-0Wh-again"}"#,
                r#"{"outcome":"accepted","reply":{"carry":0,"count":0,"withdrawal":0}}"#,
            ),
            (
                "ISSUER",
                r#"{"command":"correct","device":"500000000000000012","first_day":"2025-02-01","less_wh":0,"first":"","last":"","reason":"meter read twice","key":"correct-february-0Wh"}"#,
                r#"{"outcome":"repeated","reply":{"carry":0,"count":0,"withdrawal":0}}"#,
            ),
            (
                "ISSUER",
                r#"{"command":"correct","device":"500000000000000012","first_day":"2025-02-01","less_wh":999999,"first":"07000000001201","last":"07000000001201","reason":"meter read twice","key":"correct-february-0Wh-once-more"}"#,
                r#"{"outcome":"accepted","reply":{"carry":1,"count":1,"withdrawal":1}}"#,
            ),
            (
                "ISSUER",
                r#"{"command":"correct","device":"500000000000000012","first_day":"2025-02-01","less_wh":0,"first":"","last":"","reason":"meter read twice","key":"correct-february-0Wh.3"}"#,
                r#"{"outcome":"accepted","reply":{"carry":1,"count":0,"withdrawal":0}}"#,
            ),
            (
                "ISSUER",
                r#"{"command":"correct","device":"500000000000000012","first_day":"2025-02-01","less_wh":999999,"first":"07000000001201","last":"07000000001201","reason":"meter read twice","key":"correct-february-0Wh-once-more"}"#,
                r#"{"outcome":"repeated","reply":{"carry":1,"count":1,"withdrawal":1}}"#,
            ),
            (
                "ISSUER",
                r#"{"command":"correct","device":"500000000000000012","first_day":"2025-02-01","less_wh":999999,"first":"07000000001201","last":"07000000001201","reason":"meter read thrice","key":"correct-february-0Wh-once-more"}"#,
                r#"{"code":2,"name":"KeyReused","outcome":"refused"}"#,
            ),
            (
                "ISSUER",
                r#"{"command":"correct","device":"500000000000000012","first_day":"2025-02-01","less_wh":0,"first":"","last":"","reason":"meter read twice","key":"correct-february-0Wh"}"#,
                r#"{"outcome":"repeated","reply":{"carry":0,"count":0,"withdrawal":0}}"#,
            ),
            (
                "SUN",
                r#"{"command":"correct","device":"500000000000000012","first_day":"2025-02-01","less_wh":0,"first":"","last":"","reason":"meter read twice","key":"correct-february-0Wh"}"#,
                r#"{"code":1,"name":"NotAllowed","outcome":"refused"}"#,
            ),
            (
                "ISSUER",
                r#"{"command":"correct","device":"500000000000000012","first_day":"2025-01-01","less_wh":0,"first":"","last":"","reason":"meter read twice","key":"correct-january-0Wh"}"#,
                r#"{"outcome":"accepted","reply":{"carry":1,"count":0,"withdrawal":0}}"#,
            ),
        ],
        shown: "1 07000000000001 07000000001200 2025-01-01 held\n1 07000000001201 07000000001201 2025-03-01 withdrawn:1\n500000000000000012 1201000000 999999 1201 1 1\n",
    },
    Case {
        name: "a_correction_over_two_accounts",
        serial: 1,
        begun: 9,
        asked: &[
            (
                "SUN",
                r#"{"command":"transfer","giver":1,"taker":2,"first":"07000000000100","last":"07000000000199","key":"transfer-100-to-199"}"#,
                r#"{"outcome":"accepted","reply":{"count":100}}"#,
            ),
            (
                "ISSUER",
                r#"{"command":"correct","device":"500000000000000012","first_day":"2025-01-01","less_wh":3000000,"first":"07000000000099","last":"07000000000101","reason":"meter read twice","key":"correct-january-3MWh-99-to-101"}"#,
                r#"{"outcome":"accepted","reply":{"carry":0,"count":3,"withdrawal":1}}"#,
            ),
            (
                "ISSUER",
                r#"{"command":"correct","device":"500000000000000012","first_day":"2025-01-01","less_wh":1000000,"first":"07000000000150","last":"07000000000150","reason":"meter read twice","key":"correct-january-1MWh-150"}"#,
                r#"{"outcome":"accepted","reply":{"carry":0,"count":1,"withdrawal":2}}"#,
            ),
            (
                "VOLT",
                r#"{"command":"transfer","giver":2,"taker":1,"first":"07000000000149","last":"07000000000151","key":"transfer-149-to-151-from-2-to-1"}"#,
                r#"{"code":17,"name":"NotHeld","number":"07000000000150","outcome":"refused"}"#,
            ),
            (
                "SUN",
                r#"{"command":"cancel","account":1,"first":"07000000000098","last":"07000000000099","beneficiary":"Volt","use_first":"2025-01-01","use_last":"2025-03-31","key":"cancel-98-to-99"}"#,
                r#"{"code":17,"name":"NotHeld","number":"07000000000099","outcome":"refused"}"#,
            ),
        ],
        shown: "1 07000000000001 07000000000098 2025-01-01 held\n1 07000000000099 07000000000099 2025-01-01 withdrawn:1\n1 07000000000200 07000000001200 2025-01-01 held\n1 07000000001201 07000000001201 2025-03-01 held\n2 07000000000100 07000000000101 2025-01-01 withdrawn:1\n2 07000000000102 07000000000149 2025-01-01 held\n2 07000000000150 07000000000150 2025-01-01 withdrawn:2\n2 07000000000151 07000000000199 2025-01-01 held\n500000000000000012 1201000000 4000000 1201 4 0\n",
    },
    Case {
        name: "a_correction_over_two_lots",
        serial: 1,
        begun: 9,
        asked: &[
            (
                "ISSUER",
                r#"{"command":"correct","device":"500000000000000012","first_day":"2025-01-01","less_wh":2000000,"first":"07000000001200","last":"07000000001201","reason":"meter read twice","key":"correct-january-2MWh-1200-to-1201"}"#,
                r#"{"outcome":"accepted","reply":{"carry":0,"count":2,"withdrawal":1}}"#,
            ),
            (
                "ISSUER",
                r#"{"command":"correct","device":"500000000000000012","first_day":"2025-03-01","less_wh":1,"first":"07000000001199","last":"07000000001199","reason":"meter read twice","key":"correct-march-1Wh-1199"}"#,
                r#"{"outcome":"accepted","reply":{"carry":999999,"count":1,"withdrawal":2}}"#,
            ),
            (
                "ISSUER",
                r#"{"command":"correct","device":"500000000000000012","first_day":"2025-03-01","less_wh":1,"first":"","last":"","reason":"meter read twice","key":"correct-march-1Wh"}"#,
                r#"{"code":32,"name":"OverCorrected","outcome":"refused"}"#,
            ),
        ],
        shown: "1 07000000000001 07000000001198 2025-01-01 held\n1 07000000001199 07000000001199 2025-01-01 withdrawn:2\n1 07000000001200 07000000001200 2025-01-01 withdrawn:1\n1 07000000001201 07000000001201 2025-03-01 withdrawn:1\n500000000000000012 1201000000 2000001 1201 3 999999\n",
    },
    Case {
        name: "a_correction_takes_the_carry",
        serial: 1,
        begun: 7,
        asked: &[
            (
                "ISSUER",
                r#"{"command":"correct","device":"500000000000000012","first_day":"2025-02-01","less_wh":999998,"first":"","last":"","reason":"meter read twice","key":"correct-february-999998Wh"}"#,
                r#"{"outcome":"accepted","reply":{"carry":1,"count":0,"withdrawal":0}}"#,
            ),
            (
                "ISSUER",
                r#"{"command":"correct","device":"500000000000000012","first_day":"2025-01-01","less_wh":2,"first":"","last":"","reason":"meter read twice","key":"correct-january-2Wh"}"#,
                r#"{"code":33,"name":"WrongCount","outcome":"refused"}"#,
            ),
            (
                "ISSUER",
                r#"{"command":"correct","device":"500000000000000012","first_day":"2025-01-01","less_wh":2,"first":"07000000001200","last":"07000000001200","reason":"meter read twice","key":"correct-january-2Wh-1200"}"#,
                r#"{"outcome":"accepted","reply":{"carry":999999,"count":1,"withdrawal":1}}"#,
            ),
            (
                "ISSUER",
                r#"{"command":"correct","device":"500000000000000012","first_day":"2025-01-01","less_wh":999999,"first":"","last":"","reason":"meter read twice","key":"correct-january-999999Wh"}"#,
                r#"{"outcome":"accepted","reply":{"carry":0,"count":0,"withdrawal":0}}"#,
            ),
            (
                "ISSUER",
                r#"{"command":"correct","device":"500000000000000012","first_day":"2025-02-01","less_wh":2,"first":"","last":"","reason":"meter read twice","key":"correct-february-2Wh"}"#,
                r#"{"code":32,"name":"OverCorrected","outcome":"refused"}"#,
            ),
            (
                "ISSUER",
                r#"{"command":"correct","device":"500000000000000012","first_day":"2025-01-01","less_wh":1198999999,"first":"07000000000001","last":"07000000001199","reason":"meter read twice","key":"correct-january-1198999999Wh-1-to-1199"}"#,
                r#"{"outcome":"accepted","reply":{"carry":1,"count":1199,"withdrawal":2}}"#,
            ),
            (
                "ISSUER",
                r#"{"command":"correct","device":"500000000000000012","first_day":"2025-01-01","less_wh":1,"first":"","last":"","reason":"meter read twice","key":"correct-january-1Wh"}"#,
                r#"{"code":32,"name":"OverCorrected","outcome":"refused"}"#,
            ),
            (
                "ISSUER",
                r#"{"command":"correct","device":"500000000000000012","first_day":"2025-02-01","less_wh":1,"first":"","last":"","reason":"meter read twice","key":"correct-february-1Wh"}"#,
                r#"{"outcome":"accepted","reply":{"carry":0,"count":0,"withdrawal":0}}"#,
            ),
            (
                "ISSUER",
                r#"{"command":"advance","day":"2025-04-05","key":"advance-to-2025-04-05"}"#,
                r#"{"outcome":"accepted","reply":{"expired":0}}"#,
            ),
            (
                "ISSUER",
                r#"{"command":"declare","device":"500000000000000012","first_day":"2025-03-01","last_day":"2025-03-31","gross_wh":2000000,"aux_wh":0,"key":"declare-march"}"#,
                r#"{"outcome":"accepted","reply":{"carry":0,"count":2,"first":"07000000001201","last":"07000000001202"}}"#,
            ),
        ],
        shown: "1 07000000000001 07000000001199 2025-01-01 withdrawn:2\n1 07000000001200 07000000001200 2025-01-01 withdrawn:1\n1 07000000001201 07000000001202 2025-03-01 held\n500000000000000012 1202999999 1200999999 1202 1200 0\n",
    },
    Case {
        name: "a_declaration_is_lowered",
        serial: 1,
        begun: 9,
        asked: &[
            (
                "ISSUER",
                r#"{"command":"correct","device":"500000000000000012","first_day":"2025-02-01","less_wh":999999,"first":"07000000001201","last":"07000000001201","reason":"meter read twice","key":"correct-february-999999Wh-1201"}"#,
                r#"{"outcome":"accepted","reply":{"carry":1,"count":1,"withdrawal":1}}"#,
            ),
            (
                "ISSUER",
                r#"{"command":"correct","device":"500000000000000012","first_day":"2025-01-01","less_wh":1,"first":"","last":"","reason":"meter read twice","key":"correct-january-1Wh"}"#,
                r#"{"outcome":"accepted","reply":{"carry":0,"count":0,"withdrawal":0}}"#,
            ),
            (
                "ISSUER",
                r#"{"command":"correct","device":"500000000000000012","first_day":"2025-02-01","less_wh":1,"first":"","last":"","reason":"meter read twice","key":"correct-february-1Wh"}"#,
                r#"{"code":32,"name":"OverCorrected","outcome":"refused"}"#,
            ),
            (
                "ISSUER",
                r#"{"command":"correct","device":"500000000000000012","first_day":"2025-01-02","less_wh":1,"first":"","last":"","reason":"meter read twice","key":"correct-january-1Wh-again"}"#,
                r#"{"code":31,"name":"UnknownDeclaration","outcome":"refused"}"#,
            ),
            (
                "ISSUER",
                r#"{"command":"correct","device":"500000000000000012","first_day":"2025-01-01","less_wh":1000000,"first":"07000000000001","last":"07000000000002","reason":"meter read twice","key":"correct-january-1MWh-1-to-2"}"#,
                r#"{"code":33,"name":"WrongCount","outcome":"refused"}"#,
            ),
            (
                "ISSUER",
                r#"{"command":"correct","device":"500000000000000012","first_day":"2025-01-01","less_wh":1000000,"first":"07000000001202","last":"07000000001202","reason":"meter read twice","key":"correct-january-1MWh-1202"}"#,
                r#"{"code":16,"name":"UnknownNumber","number":"07000000001202","outcome":"refused"}"#,
            ),
            (
                "ISSUER",
                r#"{"command":"correct","device":"500000000000000012","first_day":"2025-01-01","less_wh":1000000,"first":"07000000001201","last":"07000000001201","reason":"meter read twice","key":"correct-january-1MWh-1201"}"#,
                r#"{"code":17,"name":"NotHeld","number":"07000000001201","outcome":"refused"}"#,
            ),
        ],
        shown: "1 07000000000001 07000000001200 2025-01-01 held\n1 07000000001201 07000000001201 2025-03-01 withdrawn:1\n500000000000000012 1201000000 1000000 1201 1 0\n",
    },
];
