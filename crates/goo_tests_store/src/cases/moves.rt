//! Worked cases, written by tools/gate/cases-as-tests from cases/: change them there.

use crate::worked::Case;

pub const MOVES: [Case; 8] = [
    Case {
        name: "a_number_that_another_account_holds",
        serial: 1,
        begun: 9,
        asked: &[
            (
                "SUN",
                r#"{"command":"transfer","giver":1,"taker":2,"first":"07000000000007","last":"07000000000007","key":"transfer-7"}"#,
                r#"{"outcome":"accepted","reply":{"count":1}}"#,
            ),
            (
                "SUN",
                r#"{"command":"cancel","account":1,"first":"07000000000001","last":"07000000000010","beneficiary":"X","use_first":"2025-01-01","use_last":"2025-03-31","key":"cancel-1-to-10"}"#,
                r#"{"code":17,"name":"NotHeld","number":"07000000000007","outcome":"refused"}"#,
            ),
        ],
        shown: "1 07000000000001 07000000000006 2025-01-01 held\n1 07000000000008 07000000001200 2025-01-01 held\n1 07000000001201 07000000001201 2025-03-01 held\n2 07000000000007 07000000000007 2025-01-01 held\n500000000000000012 1201000000 0 1201 0 0\n",
    },
    Case {
        name: "a_number_that_another_account_holds_before_the_date_moves",
        serial: 1,
        begun: 7,
        asked: &[
            (
                "SUN",
                r#"{"command":"transfer","giver":1,"taker":2,"first":"07000000000007","last":"07000000000007","key":"transfer-7"}"#,
                r#"{"outcome":"accepted","reply":{"count":1}}"#,
            ),
            (
                "SUN",
                r#"{"command":"cancel","account":1,"first":"07000000000001","last":"07000000000010","beneficiary":"X","use_first":"2025-01-01","use_last":"2025-03-31","key":"cancel-1-to-10"}"#,
                r#"{"code":17,"name":"NotHeld","number":"07000000000007","outcome":"refused"}"#,
            ),
        ],
        shown: "1 07000000000001 07000000000006 2025-01-01 held\n1 07000000000008 07000000001200 2025-01-01 held\n2 07000000000007 07000000000007 2025-01-01 held\n500000000000000012 1200999999 0 1200 0 999999\n",
    },
    Case {
        name: "a_part_is_moved",
        serial: 1,
        begun: 9,
        asked: &[(
            "SUN",
            r#"{"command":"transfer","giver":1,"taker":2,"first":"07000000000100","last":"07000000000199","key":"transfer-100-to-199"}"#,
            r#"{"outcome":"accepted","reply":{"count":100}}"#,
        )],
        shown: "1 07000000000001 07000000000099 2025-01-01 held\n1 07000000000200 07000000001200 2025-01-01 held\n1 07000000001201 07000000001201 2025-03-01 held\n2 07000000000100 07000000000199 2025-01-01 held\n500000000000000012 1201000000 0 1201 0 0\n",
    },
    Case {
        name: "a_part_is_moved_before_the_date_moves",
        serial: 1,
        begun: 7,
        asked: &[(
            "SUN",
            r#"{"command":"transfer","giver":1,"taker":2,"first":"07000000000100","last":"07000000000199","key":"transfer-100-to-199"}"#,
            r#"{"outcome":"accepted","reply":{"count":100}}"#,
        )],
        shown: "1 07000000000001 07000000000099 2025-01-01 held\n1 07000000000200 07000000001200 2025-01-01 held\n2 07000000000100 07000000000199 2025-01-01 held\n500000000000000012 1200999999 0 1200 0 999999\n",
    },
    Case {
        name: "a_withdrawal",
        serial: 1,
        begun: 9,
        asked: &[
            (
                "ISSUER",
                r#"{"command":"withdraw","first":"07000000000005","last":"07000000000005","reason":"meter read twice","key":"withdraw-5"}"#,
                r#"{"outcome":"accepted","reply":{"count":1,"withdrawal":1}}"#,
            ),
            (
                "ISSUER",
                r#"{"command":"withdraw","first":"07000000000005","last":"07000000000005","reason":"meter read twice","key":"withdraw-5-again"}"#,
                r#"{"code":17,"name":"NotHeld","number":"07000000000005","outcome":"refused"}"#,
            ),
            (
                "SUN",
                r#"{"command":"withdraw","first":"07000000000006","last":"07000000000006","reason":"x","key":"withdraw-6-by-SUN"}"#,
                r#"{"code":1,"name":"NotAllowed","outcome":"refused"}"#,
            ),
        ],
        shown: "1 07000000000001 07000000000004 2025-01-01 held\n1 07000000000005 07000000000005 2025-01-01 withdrawn:1\n1 07000000000006 07000000001200 2025-01-01 held\n1 07000000001201 07000000001201 2025-03-01 held\n500000000000000012 1201000000 0 1201 0 0\n",
    },
    Case {
        name: "a_withdrawal_before_the_date_moves",
        serial: 1,
        begun: 7,
        asked: &[
            (
                "ISSUER",
                r#"{"command":"withdraw","first":"07000000000005","last":"07000000000005","reason":"meter read twice","key":"withdraw-5"}"#,
                r#"{"outcome":"accepted","reply":{"count":1,"withdrawal":1}}"#,
            ),
            (
                "ISSUER",
                r#"{"command":"withdraw","first":"07000000000005","last":"07000000000005","reason":"meter read twice","key":"withdraw-5-again"}"#,
                r#"{"code":17,"name":"NotHeld","number":"07000000000005","outcome":"refused"}"#,
            ),
            (
                "SUN",
                r#"{"command":"withdraw","first":"07000000000005","last":"07000000000005","reason":"meter read twice","key":"withdraw-5-by-SUN"}"#,
                r#"{"code":1,"name":"NotAllowed","outcome":"refused"}"#,
            ),
        ],
        shown: "1 07000000000001 07000000000004 2025-01-01 held\n1 07000000000005 07000000000005 2025-01-01 withdrawn:1\n1 07000000000006 07000000001200 2025-01-01 held\n500000000000000012 1200999999 0 1200 0 999999\n",
    },
    Case {
        name: "there_and_back",
        serial: 1,
        begun: 9,
        asked: &[
            (
                "SUN",
                r#"{"command":"transfer","giver":1,"taker":2,"first":"07000000000100","last":"07000000000199","key":"transfer-100-to-199"}"#,
                r#"{"outcome":"accepted","reply":{"count":100}}"#,
            ),
            (
                "VOLT",
                r#"{"command":"transfer","giver":2,"taker":1,"first":"07000000000100","last":"07000000000199","key":"transfer-100-to-199-from-2-to-1"}"#,
                r#"{"outcome":"accepted","reply":{"count":100}}"#,
            ),
        ],
        shown: "1 07000000000001 07000000001200 2025-01-01 held\n1 07000000001201 07000000001201 2025-03-01 held\n500000000000000012 1201000000 0 1201 0 0\n",
    },
    Case {
        name: "two_lots_in_one_range",
        serial: 1,
        begun: 9,
        asked: &[(
            "SUN",
            r#"{"command":"transfer","giver":1,"taker":2,"first":"07000000001200","last":"07000000001201","key":"transfer-1200-to-1201"}"#,
            r#"{"outcome":"accepted","reply":{"count":2}}"#,
        )],
        shown: "1 07000000000001 07000000001199 2025-01-01 held\n2 07000000001200 07000000001200 2025-01-01 held\n2 07000000001201 07000000001201 2025-03-01 held\n500000000000000012 1201000000 0 1201 0 0\n",
    },
];
