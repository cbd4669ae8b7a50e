//! Requests in order, and what each is answered.

/// Who asks, what is asked, and the reply to it where it is accepted.
pub type Line = (&'static str, &'static str, &'static str);

/// Two holders with an account each and a device of the first; the certificates of January, the
/// carry of February and the certificate of March; another registry, a transfer, a cancellation and
/// an export.
const SCRIPT: [Line; 13] = [
    (
        "ISSUER",
        "{\"command\":\"open_holder\",\"holder\":\"SUN\",\"key\":\"s1\",\"name\":\"Sun Power\"}",
        "{}",
    ),
    (
        "ISSUER",
        "{\"command\":\"open_account\",\"holder\":\"SUN\",\"key\":\"s2\"}",
        "{\"account\":1}",
    ),
    (
        "ISSUER",
        "{\"command\":\"open_holder\",\"holder\":\"VOLT\",\"key\":\"s3\",\"name\":\"Volt\"}",
        "{}",
    ),
    (
        "ISSUER",
        "{\"command\":\"open_account\",\"holder\":\"VOLT\",\"key\":\"s4\"}",
        "{\"account\":2}",
    ),
    (
        "ISSUER",
        "{\"account\":1,\"capacity_w\":2000000,\"command\":\"register_device\",\"commissioned\":\"2020-06-15\",\"country\":\"DE\",\"device\":\"500000000000000012\",\"key\":\"s5\",\"site\":\"North field\",\"source\":\"F01010100\",\"support\":\"none\",\"tech\":\"T010000\"}",
        "{}",
    ),
    (
        "ISSUER",
        "{\"aux_wh\":34567890,\"command\":\"declare\",\"device\":\"500000000000000012\",\"first_day\":\"2025-01-01\",\"gross_wh\":1234567890,\"key\":\"s6\",\"last_day\":\"2025-01-31\"}",
        "{\"carry\":0,\"count\":1200,\"first\":\"07000000000001\",\"last\":\"07000000001200\"}",
    ),
    (
        "ISSUER",
        "{\"aux_wh\":0,\"command\":\"declare\",\"device\":\"500000000000000012\",\"first_day\":\"2025-02-01\",\"gross_wh\":999999,\"key\":\"s7\",\"last_day\":\"2025-02-28\"}",
        "{\"carry\":999999,\"count\":0}",
    ),
    (
        "ISSUER",
        "{\"command\":\"advance\",\"day\":\"2025-04-05\",\"key\":\"s8\"}",
        "{\"expired\":0}",
    ),
    (
        "ISSUER",
        "{\"aux_wh\":0,\"command\":\"declare\",\"device\":\"500000000000000012\",\"first_day\":\"2025-03-01\",\"gross_wh\":1,\"key\":\"s9\",\"last_day\":\"2025-03-31\"}",
        "{\"carry\":0,\"count\":1,\"first\":\"07000000001201\",\"last\":\"07000000001201\"}",
    ),
    (
        "ISSUER",
        "{\"command\":\"add_peer\",\"key\":\"s10\",\"peer\":9}",
        "{}",
    ),
    (
        "SUN",
        "{\"command\":\"transfer\",\"first\":\"07000000000100\",\"giver\":1,\"key\":\"s11\",\"last\":\"07000000000199\",\"taker\":2}",
        "{\"count\":100}",
    ),
    (
        "SUN",
        "{\"account\":1,\"beneficiary\":\"Bäckerei Müller\",\"command\":\"cancel\",\"first\":\"07000000000001\",\"key\":\"s12\",\"last\":\"07000000000010\",\"use_first\":\"2025-01-01\",\"use_last\":\"2025-03-31\"}",
        "{\"cancellation\":1,\"count\":10}",
    ),
    (
        "SUN",
        "{\"account\":5,\"command\":\"export\",\"first\":\"07000000000020\",\"giver\":1,\"key\":\"s13\",\"last\":\"07000000000029\",\"peer\":9}",
        "{\"count\":10,\"notice\":1}",
    ),
];

/// Those requests. A function, as each that names a long table costs a check three seconds more.
pub fn requests() -> &'static [Line] {
    &SCRIPT
}

/// The registry on 5 April 2025, with the certificates of three months and no others asked for.
pub const APRIL: usize = 9;

/// Where the cancellation stands among the requests.
pub const CANCELLATION: usize = 11;

/// Requests that are refused in any state, each for a reason that tells states apart: the date, the
/// device and its last period, and whether the other registry is known.
pub const PROBES: [(&str, &str); 2] = [
    (
        "ISSUER",
        "{\"aux_wh\":1,\"command\":\"declare\",\"device\":\"500000000000000012\",\"first_day\":\"2025-03-01\",\"gross_wh\":0,\"key\":\"p1\",\"last_day\":\"2025-03-31\"}",
    ),
    (
        "SUN",
        "{\"account\":5,\"command\":\"export\",\"first\":\"07999999999999\",\"giver\":1,\"key\":\"p2\",\"last\":\"07999999999999\",\"peer\":9}",
    ),
];
