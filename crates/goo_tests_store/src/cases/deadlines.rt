//! Worked cases, written by tools/gate/cases-as-tests from cases/: change them there.

use crate::worked::Case;

pub const DEADLINES: [Case; 4] = [
    Case {
        name: "the_day_after_the_last",
        serial: 1,
        begun: 9,
        asked: &[
            (
                "ISSUER",
                r#"{"command":"advance","day":"2026-07-31","key":"advance-to-2026-07-31"}"#,
                r#"{"outcome":"accepted","reply":{"expired":0}}"#,
            ),
            (
                "ISSUER",
                r#"{"command":"advance","day":"2026-08-01","key":"advance-to-2026-08-01"}"#,
                r#"{"outcome":"accepted","reply":{"expired":1200}}"#,
            ),
        ],
        shown: "1 07000000000001 07000000001200 2025-01-01 expired\n1 07000000001201 07000000001201 2025-03-01 held\n500000000000000012 1201000000 0 1201 0 0\n",
    },
    Case {
        name: "the_last_day_and_the_day_after",
        serial: 1,
        begun: 9,
        asked: &[
            (
                "ISSUER",
                r#"{"command":"advance","day":"2026-07-31","key":"advance-to-2026-07-31"}"#,
                r#"{"outcome":"accepted","reply":{"expired":0}}"#,
            ),
            (
                "ISSUER",
                r#"{"command":"advance","day":"2026-08-01","key":"advance-to-2026-08-01"}"#,
                r#"{"outcome":"accepted","reply":{"expired":1200}}"#,
            ),
            (
                "SUN",
                r#"{"command":"cancel","account":1,"first":"07000000001201","last":"07000000001201","beneficiary":"X","use_first":"2025-01-01","use_last":"2025-03-31","key":"cancel-1201"}"#,
                r#"{"outcome":"accepted","reply":{"cancellation":1,"count":1}}"#,
            ),
            (
                "SUN",
                r#"{"command":"cancel","account":1,"first":"07000000001200","last":"07000000001200","beneficiary":"X","use_first":"2025-01-01","use_last":"2025-03-31","key":"cancel-1200"}"#,
                r#"{"code":17,"name":"NotHeld","number":"07000000001200","outcome":"refused"}"#,
            ),
        ],
        shown: "1 07000000000001 07000000001200 2025-01-01 expired\n1 07000000001201 07000000001201 2025-03-01 cancelled:1\n500000000000000012 1201000000 0 1201 0 0\n",
    },
    Case {
        name: "trade_closed_before_it_was_issued",
        serial: 1,
        begun: 5,
        asked: &[
            (
                "ISSUER",
                r#"{"command":"register_device","account":1,"capacity_w":2000000,"commissioned":"2020-06-15","country":"DE","device":"500000000000000029","site":"North field","source":"F01010100","support":"none","tech":"T010000","key":"device-29"}"#,
                r#"{"outcome":"accepted","reply":{}}"#,
            ),
            (
                "ISSUER",
                r#"{"command":"declare","device":"500000000000000029","first_day":"2023-10-01","last_day":"2023-10-31","gross_wh":1000000,"aux_wh":0,"key":"declare-october-2023-of-29"}"#,
                r#"{"outcome":"accepted","reply":{"carry":0,"count":1,"first":"07000000000001","last":"07000000000001"}}"#,
            ),
            (
                "SUN",
                r#"{"command":"transfer","giver":1,"taker":2,"first":"07000000000001","last":"07000000000001","key":"transfer-1"}"#,
                r#"{"code":18,"name":"TradeClosed","number":"07000000000001","outcome":"refused"}"#,
            ),
            (
                "SUN",
                r#"{"command":"cancel","account":1,"first":"07000000000001","last":"07000000000001","beneficiary":"X","use_first":"2025-01-01","use_last":"2025-03-31","key":"cancel-1"}"#,
                r#"{"outcome":"accepted","reply":{"cancellation":1,"count":1}}"#,
            ),
        ],
        shown: "1 07000000000001 07000000000001 2023-10-01 cancelled:1\n500000000000000012 0 0 0 0 0\n500000000000000029 1000000 0 1 0 0\n",
    },
    Case {
        name: "trade_closes",
        serial: 1,
        begun: 9,
        asked: &[
            (
                "ISSUER",
                r#"{"command":"advance","day":"2026-01-31","key":"advance-to-2026-01-31"}"#,
                r#"{"outcome":"accepted","reply":{"expired":0}}"#,
            ),
            (
                "SUN",
                r#"{"command":"transfer","giver":1,"taker":2,"first":"07000000000001","last":"07000000000001","key":"transfer-1"}"#,
                r#"{"outcome":"accepted","reply":{"count":1}}"#,
            ),
            (
                "ISSUER",
                r#"{"command":"advance","day":"2026-02-01","key":"advance-to-2026-02-01"}"#,
                r#"{"outcome":"accepted","reply":{"expired":0}}"#,
            ),
            (
                "SUN",
                r#"{"command":"transfer","giver":1,"taker":2,"first":"07000000000002","last":"07000000000002","key":"transfer-2"}"#,
                r#"{"code":18,"name":"TradeClosed","number":"07000000000002","outcome":"refused"}"#,
            ),
            (
                "SUN",
                r#"{"command":"cancel","account":1,"first":"07000000000002","last":"07000000000002","beneficiary":"X","use_first":"2025-01-01","use_last":"2025-03-31","key":"cancel-2"}"#,
                r#"{"outcome":"accepted","reply":{"cancellation":1,"count":1}}"#,
            ),
        ],
        shown: "1 07000000000002 07000000000002 2025-01-01 cancelled:1\n1 07000000000003 07000000001200 2025-01-01 held\n1 07000000001201 07000000001201 2025-03-01 held\n2 07000000000001 07000000000001 2025-01-01 held\n500000000000000012 1201000000 0 1201 0 0\n",
    },
];
