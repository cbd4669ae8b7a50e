//! Worked cases, written by tools/gate/cases-as-tests from cases/: change them there.

use crate::worked::Case;

pub const REFUSALS: [Case; 4] = [
    Case {
        name: "an_account_closed_after_its_certificates_expired",
        serial: 1,
        begun: 5,
        asked: &[
            (
                "ISSUER",
                r#"{"command":"declare","device":"500000000000000012","first_day":"2025-01-01","last_day":"2025-01-31","gross_wh":1000000,"aux_wh":0,"key":"declare-january"}"#,
                r#"{"outcome":"accepted","reply":{"carry":0,"count":1,"first":"07000000000001","last":"07000000000001"}}"#,
            ),
            (
                "ISSUER",
                r#"{"command":"advance","day":"2026-07-31","key":"advance-to-2026-07-31"}"#,
                r#"{"outcome":"accepted","reply":{"expired":0}}"#,
            ),
            (
                "ISSUER",
                r#"{"command":"close_account","account":1,"key":"close-account-1"}"#,
                r#"{"code":7,"name":"AccountNotEmpty","outcome":"refused"}"#,
            ),
            (
                "ISSUER",
                r#"{"command":"advance","day":"2026-08-01","key":"advance-to-2026-08-01"}"#,
                r#"{"outcome":"accepted","reply":{"expired":1}}"#,
            ),
            (
                "ISSUER",
                r#"{"command":"close_account","account":1,"key":"close-account-1-again"}"#,
                r#"{"outcome":"accepted","reply":{}}"#,
            ),
            (
                "ISSUER",
                r#"{"command":"open_account","holder":"SUN","key":"account-of-SUN-again"}"#,
                r#"{"outcome":"accepted","reply":{"account":3}}"#,
            ),
            (
                "ISSUER",
                r#"{"command":"close_account","account":1,"key":"close-account-1-once-more"}"#,
                r#"{"code":6,"name":"AccountClosed","outcome":"refused"}"#,
            ),
        ],
        shown: "",
    },
    Case {
        name: "before_the_date_moves",
        serial: 1,
        begun: 7,
        asked: &[
            (
                "ISSUER",
                r#"{"command":"withdraw","first":"07000000000005","last":"07000000000005","reason":"meter read twice","key":"withdraw-5"}"#,
                r#"{"outcome":"accepted","reply":{"count":1,"withdrawal":1}}"#,
            ),
            (
                "ISSUER",
                r#"{"command":"withdraw","first":"07000000000005","last":"07000000000005","reason":"meter read twice","key":"withdraw-5-again"}"#,
                r#"{"code":17,"name":"NotHeld","number":"07000000000005","outcome":"refused"}"#,
            ),
            (
                "SUN",
                r#"{"command":"withdraw","first":"07000000000006","last":"07000000000006","reason":"meter read twice","key":"withdraw-6-by-SUN"}"#,
                r#"{"code":1,"name":"NotAllowed","outcome":"refused"}"#,
            ),
            (
                "SUN",
                r#"{"command":"transfer","giver":1,"taker":2,"first":"07000000000100","last":"07000000000199","key":"transfer-100-to-199"}"#,
                r#"{"outcome":"accepted","reply":{"count":100}}"#,
            ),
            (
                "SUN",
                r#"{"command":"transfer","giver":1,"taker":2,"first":"07000000000007","last":"07000000000007","key":"transfer-7"}"#,
                r#"{"outcome":"accepted","reply":{"count":1}}"#,
            ),
            (
                "SUN",
                r#"{"command":"cancel","account":1,"first":"07000000000006","last":"07000000000010","beneficiary":"X","use_first":"2025-01-01","use_last":"2025-03-31","key":"cancel-6-to-10"}"#,
                r#"{"code":17,"name":"NotHeld","number":"07000000000007","outcome":"refused"}"#,
            ),
            (
                "ISSUER",
                r#"{"command":"open_holder","holder":"SUN","name":"x","key":"holder-SUN-again"}"#,
                r#"{"code":4,"name":"HolderExists","outcome":"refused"}"#,
            ),
            (
                "ISSUER",
                r#"{"command":"open_holder","holder":"ISSUER","name":"x","key":"holder-ISSUER"}"#,
                r#"{"code":4,"name":"HolderExists","outcome":"refused"}"#,
            ),
            (
                "ISSUER",
                r#"{"command":"open_account","holder":"NOBODY","key":"account-of-NOBODY"}"#,
                r#"{"code":3,"name":"UnknownHolder","outcome":"refused"}"#,
            ),
            (
                "ISSUER",
                r#"{"command":"register_device","account":1,"capacity_w":2000000,"commissioned":"2020-06-15","country":"DE","device":"500000000000000012","site":"North field","source":"F01010100","support":"none","tech":"T010000","key":"device-12-again"}"#,
                r#"{"code":8,"name":"DeviceExists","outcome":"refused"}"#,
            ),
            (
                "ISSUER",
                r#"{"command":"declare","device":"500000000000000029","first_day":"2025-01-01","last_day":"2025-01-31","gross_wh":5,"aux_wh":0,"key":"declare-january-of-29"}"#,
                r#"{"code":9,"name":"UnknownDevice","outcome":"refused"}"#,
            ),
            (
                "SUN",
                r#"{"command":"transfer","giver":1,"taker":1,"first":"07000000000001","last":"07000000000001","key":"transfer-1-from-1-to-1"}"#,
                r#"{"code":19,"name":"SameAccount","outcome":"refused"}"#,
            ),
            (
                "SUN",
                r#"{"command":"transfer","giver":1,"taker":3,"first":"07000000000001","last":"07000000000001","key":"transfer-1-from-1-to-3"}"#,
                r#"{"code":5,"name":"UnknownAccount","outcome":"refused"}"#,
            ),
            (
                "SUN",
                r#"{"command":"transfer","giver":1,"taker":2,"first":"07000000001202","last":"07000000001202","key":"transfer-1202"}"#,
                r#"{"code":16,"name":"UnknownNumber","number":"07000000001202","outcome":"refused"}"#,
            ),
            (
                "VOLT",
                r#"{"command":"transfer","giver":1,"taker":2,"first":"07000000000001","last":"07000000000001","key":"transfer-1-by-VOLT"}"#,
                r#"{"code":1,"name":"NotAllowed","outcome":"refused"}"#,
            ),
            (
                "SUN",
                r#"{"command":"cancel","account":1,"first":"07000000000001","last":"07000000000001","beneficiary":"X","use_first":"2025-03-31","use_last":"2025-01-01","key":"cancel-1"}"#,
                r#"{"code":29,"name":"UsePeriod","outcome":"refused"}"#,
            ),
        ],
        shown: "",
    },
    Case {
        name: "closing_an_account",
        serial: 1,
        begun: 5,
        asked: &[
            (
                "ISSUER",
                r#"{"command":"declare","device":"500000000000000012","first_day":"2025-01-01","last_day":"2025-01-31","gross_wh":1000000,"aux_wh":0,"key":"declare-january"}"#,
                r#"{"outcome":"accepted","reply":{"carry":0,"count":1,"first":"07000000000001","last":"07000000000001"}}"#,
            ),
            (
                "ISSUER",
                r#"{"command":"close_account","account":1,"key":"close-account-1"}"#,
                r#"{"code":7,"name":"AccountNotEmpty","outcome":"refused"}"#,
            ),
            (
                "SUN",
                r#"{"command":"cancel","account":1,"first":"07000000000001","last":"07000000000001","beneficiary":"X","use_first":"2025-01-01","use_last":"2025-03-31","key":"cancel-1"}"#,
                r#"{"outcome":"accepted","reply":{"cancellation":1,"count":1}}"#,
            ),
            (
                "ISSUER",
                r#"{"command":"close_account","account":1,"key":"close-account-1-again"}"#,
                r#"{"outcome":"accepted","reply":{}}"#,
            ),
            (
                "ISSUER",
                r#"{"command":"close_account","account":1,"key":"close-account-1-once-more"}"#,
                r#"{"code":6,"name":"AccountClosed","outcome":"refused"}"#,
            ),
        ],
        shown: "1 07000000000001 07000000000001 2025-01-01 cancelled:1\n500000000000000012 1000000 0 1 0 0\n",
    },
    Case {
        name: "refusals_of_the_other_commands",
        serial: 1,
        begun: 9,
        asked: &[
            (
                "ISSUER",
                r#"{"command":"open_holder","holder":"SUN","name":"x","key":"holder-SUN-again"}"#,
                r#"{"code":4,"name":"HolderExists","outcome":"refused"}"#,
            ),
            (
                "ISSUER",
                r#"{"command":"open_holder","holder":"ISSUER","name":"x","key":"holder-ISSUER"}"#,
                r#"{"code":4,"name":"HolderExists","outcome":"refused"}"#,
            ),
            (
                "ISSUER",
                r#"{"command":"open_account","holder":"NOBODY","key":"account-of-NOBODY"}"#,
                r#"{"code":3,"name":"UnknownHolder","outcome":"refused"}"#,
            ),
            (
                "ISSUER",
                r#"{"command":"register_device","account":1,"capacity_w":2000000,"commissioned":"2020-06-15","country":"DE","device":"500000000000000012","site":"North field","source":"F01010100","support":"none","tech":"T010000","key":"device-12-again"}"#,
                r#"{"code":8,"name":"DeviceExists","outcome":"refused"}"#,
            ),
            (
                "ISSUER",
                r#"{"command":"declare","device":"500000000000000029","first_day":"2025-04-01","last_day":"2025-04-01","gross_wh":1,"aux_wh":0,"key":"declare-2025-04-01-of-29"}"#,
                r#"{"code":9,"name":"UnknownDevice","outcome":"refused"}"#,
            ),
            (
                "SUN",
                r#"{"command":"transfer","giver":1,"taker":1,"first":"07000000000001","last":"07000000000001","key":"transfer-1-from-1-to-1"}"#,
                r#"{"code":19,"name":"SameAccount","outcome":"refused"}"#,
            ),
            (
                "SUN",
                r#"{"command":"transfer","giver":1,"taker":3,"first":"07000000000001","last":"07000000000001","key":"transfer-1-from-1-to-3"}"#,
                r#"{"code":5,"name":"UnknownAccount","outcome":"refused"}"#,
            ),
            (
                "SUN",
                r#"{"command":"transfer","giver":1,"taker":2,"first":"07000000001202","last":"07000000001202","key":"transfer-1202"}"#,
                r#"{"code":16,"name":"UnknownNumber","number":"07000000001202","outcome":"refused"}"#,
            ),
            (
                "VOLT",
                r#"{"command":"transfer","giver":1,"taker":2,"first":"07000000000001","last":"07000000000001","key":"transfer-1-by-VOLT"}"#,
                r#"{"code":1,"name":"NotAllowed","outcome":"refused"}"#,
            ),
            (
                "ISSUER",
                r#"{"command":"advance","day":"2025-04-05","key":"advance-to-2025-04-05-again"}"#,
                r#"{"code":20,"name":"DateBackwards","outcome":"refused"}"#,
            ),
            (
                "SUN",
                r#"{"command":"export","giver":1,"peer":9,"account":5,"first":"07000000000001","last":"07000000000001","key":"export-1"}"#,
                r#"{"code":21,"name":"UnknownPeer","outcome":"refused"}"#,
            ),
            (
                "ISSUER",
                r#"{"command":"add_peer","peer":7,"key":"peer-7"}"#,
                r#"{"code":22,"name":"PeerExists","outcome":"refused"}"#,
            ),
            (
                "ISSUER",
                r#"{"command":"import","notice":{"sender":9,"addressee":8,"number":1,"account":1,"version":1,"parts":[{"first":"07000000000001","last":"07000000000001","lot":{"capacity_w":2000000,"commissioned":"2020-06-15","country":"DE","device":"500000000000000012","first_day":"2025-01-01","issued_on":"2025-03-01","last_day":"2025-01-31","origin":7,"site":"North field","source":"F01010100","support":"none","tech":"T010000"}}]},"key":"notice-1"}"#,
                r#"{"code":23,"name":"WrongRegistry","outcome":"refused"}"#,
            ),
            (
                "SUN",
                r#"{"command":"cancel","account":1,"first":"07000000000001","last":"07000000000001","beneficiary":"X","use_first":"2025-03-31","use_last":"2025-01-01","key":"cancel-1"}"#,
                r#"{"code":29,"name":"UsePeriod","outcome":"refused"}"#,
            ),
        ],
        shown: "",
    },
];
