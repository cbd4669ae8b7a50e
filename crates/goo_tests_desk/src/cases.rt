//! Requests, and what they are answered.

use crate::wire::{AUDIT, AUDITED};

/// What is sent, and the first line of the answer.
pub const CASES: [(&str, &str); 27] = [
    ("garbage\r\n\r\n", "HTTP/1.1 400 Bad Request\r\n"),
    (
        "GET /v1/audit HTTP/1.1\r\nGOO-Caller: ISSUER\r\n\r\n",
        "HTTP/1.1 400 Bad Request\r\n",
    ),
    (
        "GET /v1/audit HTTP/1.1\r\nHost: x\r\nhost: x\r\n\r\n",
        "HTTP/1.1 400 Bad Request\r\n",
    ),
    (
        "POST /v1/requests HTTP/1.0\r\nTransfer-Encoding: identity\r\nContent-Length: x\r\n\r\n",
        "HTTP/1.1 501 Not Implemented\r\n",
    ),
    (
        "POST /v1/requests HTTP/1.1\r\nHost: x\r\nTransfer-Encoding: chunked\r\n\r\n0\r\n\r\n",
        "HTTP/1.1 501 Not Implemented\r\n",
    ),
    (
        "POST /v1/requests HTTP/1.0\r\nContent-Length: 2\r\nContent-Length: 2\r\n\r\n{}",
        "HTTP/1.1 400 Bad Request\r\n",
    ),
    (
        "POST /v1/requests HTTP/1.0\r\nContent-Length: +5\r\n\r\n12345",
        "HTTP/1.1 400 Bad Request\r\n",
    ),
    (
        "POST /v1/requests HTTP/1.0\r\nContent-Length: \r\n\r\n",
        "HTTP/1.1 400 Bad Request\r\n",
    ),
    (
        "POST /v1/requests HTTP/1.0\r\nContent-Length: 1048577\r\n\r\n",
        "HTTP/1.1 413 Content Too Large\r\n",
    ),
    (
        "POST /v1/requests HTTP/1.0\r\nContent-Length: 9999999999999999999\r\n\r\n",
        "HTTP/1.1 413 Content Too Large\r\n",
    ),
    (
        "POST /v1/requests HTTP/1.0\r\nContent-Length: 10000000000000000000\r\n\r\n",
        "HTTP/1.1 400 Bad Request\r\n",
    ),
    (
        "GET /v1/nothing HTTP/1.0\r\nContent-Length: 10\r\n\r\n123456789",
        "HTTP/1.1 400 Bad Request\r\n",
    ),
    (
        "GET /v1/nothing HTTP/1.0\r\nContent-Length: 10\r\n\r\n1234567890more",
        "HTTP/1.1 404 Not Found\r\n",
    ),
    (
        "GET /v1/audit?all HTTP/1.0\r\nGOO-Caller: ISSUER\r\n\r\n",
        "HTTP/1.1 404 Not Found\r\n",
    ),
    (
        "POST /v1/notices/%31 HTTP/1.0\r\n\r\n",
        "HTTP/1.1 405 Method Not Allowed\r\n",
    ),
    (
        "get /v1/audit HTTP/1.0\r\nGOO-Caller: ISSUER\r\n\r\n",
        "HTTP/1.1 405 Method Not Allowed\r\n",
    ),
    (
        "GET /v1/audit HTTP/1.0\r\n\r\n",
        "HTTP/1.1 403 Forbidden\r\n",
    ),
    (
        "GET /v1/notices/0 HTTP/1.0\r\nGOO-Caller: ISSUER\r\nGOO-Caller: ISSUER\r\n\r\n",
        "HTTP/1.1 403 Forbidden\r\n",
    ),
    (
        "GET /v1/notices/0 HTTP/1.0\r\ngoo-caller:  ISSUER \r\n\r\n",
        "HTTP/1.1 404 Not Found\r\n",
    ),
    (
        "GET /v1/accounts/0/statement HTTP/1.0\r\nGOO-Caller: SUN\r\n\r\n",
        "HTTP/1.1 404 Not Found\r\n",
    ),
    (
        "GET /v1/accounts/1/statement HTTP/1.0\r\nGOO-Caller: SUN\r\n\r\n",
        "HTTP/1.1 403 Forbidden\r\n",
    ),
    (
        "GET /v1/accounts/1/statement HTTP/1.0\r\nGOO-Caller: ISSUER\r\n\r\n",
        "HTTP/1.1 404 Not Found\r\n",
    ),
    (
        "GET /v1/certificates/07000000000001 HTTP/1.0\r\nGOO-Caller: ISSUER\r\n\r\n",
        "HTTP/1.1 404 Not Found\r\n",
    ),
    (
        "GET /v1/audit HTTP/1.0\ngoo-caller: ISSUER\n\n",
        "HTTP/1.1 200 OK\r\n",
    ),
    (
        "GET /v1/audit HTTP/1.0\r\ngoo-caller: SUN\r\n\r\n",
        "HTTP/1.1 403 Forbidden\r\n",
    ),
    (
        "POST /v1/requests HTTP/1.0\r\nGOO-Caller: ISSUER\r\nContent-Length: 2\r\n\r\n{}",
        "HTTP/1.1 400 Bad Request\r\n",
    ),
    (
        "POST /v1/declarations HTTP/1.0\r\nGOO-Caller: ISSUER\r\nContent-Length: 2\r\n\r\n{}",
        "HTTP/1.1 400 Bad Request\r\n",
    ),
];

/// What is sent, and the whole answer.
pub const WORKED: [(&str, &str); 8] = [
    (AUDIT, AUDITED),
    (
        "GET /v1/audit HTTP/1.1\r\nHost: x\r\nGOO-Caller: VOLT\r\n\r\n",
        "HTTP/1.1 403 Forbidden\r\nContent-Type: text/plain; charset=utf-8\r\nContent-Length: 10\r\nConnection: close\r\n\r\nForbidden\n",
    ),
    (
        "GET /v1/nothing HTTP/1.1\r\nHost: x\r\nGOO-Caller: ISSUER\r\n\r\n",
        "HTTP/1.1 404 Not Found\r\nContent-Type: text/plain; charset=utf-8\r\nContent-Length: 10\r\nConnection: close\r\n\r\nNot Found\n",
    ),
    (
        "POST /v1/audit HTTP/1.1\r\nHost: x\r\nGOO-Caller: ISSUER\r\n\r\n",
        "HTTP/1.1 405 Method Not Allowed\r\nContent-Type: text/plain; charset=utf-8\r\nAllow: GET\r\nContent-Length: 19\r\nConnection: close\r\n\r\nMethod Not Allowed\n",
    ),
    (
        "HEAD /v1/audit HTTP/1.1\r\nHost: x\r\nGOO-Caller: ISSUER\r\n\r\n",
        "HTTP/1.1 405 Method Not Allowed\r\nContent-Type: text/plain; charset=utf-8\r\nAllow: GET\r\nContent-Length: 19\r\nConnection: close\r\n\r\n",
    ),
    (
        "POST /v1/requests HTTP/1.1\r\nHost: x\r\nGOO-Caller: ISSUER\r\nContent-Length: 10\r\n\r\n123456789",
        "HTTP/1.1 400 Bad Request\r\nContent-Type: text/plain; charset=utf-8\r\nContent-Length: 12\r\nConnection: close\r\n\r\nBad Request\n",
    ),
    (
        "GET /v1/audit HTTP/1.1\r\nHost: x\r\nHost: y\r\nGOO-Caller: ISSUER\r\n\r\n",
        "HTTP/1.1 400 Bad Request\r\nContent-Type: text/plain; charset=utf-8\r\nContent-Length: 12\r\nConnection: close\r\n\r\nBad Request\n",
    ),
    (
        "POST /v1/requests HTTP/1.1\r\nHost: x\r\nGOO-Caller: ISSUER\r\nContent-Length: 1048577\r\n\r\n",
        "HTTP/1.1 413 Content Too Large\r\nContent-Type: text/plain; charset=utf-8\r\nContent-Length: 18\r\nConnection: close\r\n\r\nContent Too Large\n",
    ),
];

/// A device of hydrogen after the certificates of a plant, and the whole answers: its certificate
/// and its notice state the carrier, and those of the plant don't.
pub const CARRIED: [(&str, &str); 8] = [
    (
        "POST /v1/requests HTTP/1.1\r\nHost: x\r\nGOO-Caller: ISSUER\r\nContent-Length: 243\r\n\r\n{\"account\":1,\"capacity_w\":2000000,\"carrier\":\"Hydrogen\",\"command\":\"register_device\",\"commissioned\":\"2020-06-15\",\"country\":\"DE\",\"device\":\"500000000000000029\",\"key\":\"y1\",\"site\":\"South field\",\"source\":\"F01010100\",\"support\":\"none\",\"tech\":\"T010000\"}",
        "HTTP/1.1 400 Bad Request\r\nContent-Type: application/json\r\nContent-Length: 40\r\nConnection: close\r\n\r\n{\"fault\":\"Field\",\"outcome\":\"unreadable\"}",
    ),
    (
        "POST /v1/requests HTTP/1.1\r\nHost: x\r\nGOO-Caller: ISSUER\r\nContent-Length: 243\r\n\r\n{\"account\":1,\"capacity_w\":2000000,\"carrier\":\"hydrogen\",\"command\":\"register_device\",\"commissioned\":\"2020-06-15\",\"country\":\"DE\",\"device\":\"500000000000000029\",\"key\":\"y1\",\"site\":\"South field\",\"source\":\"F01010100\",\"support\":\"none\",\"tech\":\"T010000\"}",
        "HTTP/1.1 200 OK\r\nContent-Type: application/json\r\nContent-Length: 33\r\nConnection: close\r\n\r\n{\"outcome\":\"accepted\",\"reply\":{}}",
    ),
    (
        "POST /v1/requests HTTP/1.1\r\nHost: x\r\nGOO-Caller: ISSUER\r\nContent-Length: 141\r\n\r\n{\"aux_wh\":0,\"command\":\"declare\",\"device\":\"500000000000000029\",\"first_day\":\"2025-03-01\",\"gross_wh\":1000000,\"key\":\"y2\",\"last_day\":\"2025-03-31\"}",
        "HTTP/1.1 200 OK\r\nContent-Type: application/json\r\nContent-Length: 101\r\nConnection: close\r\n\r\n{\"outcome\":\"accepted\",\"reply\":{\"carry\":0,\"count\":1,\"first\":\"07000000001202\",\"last\":\"07000000001202\"}}",
    ),
    (
        "GET /v1/certificates/07000000001202 HTTP/1.1\r\nHost: x\r\nGOO-Caller: SUN\r\n\r\n",
        "HTTP/1.1 200 OK\r\nContent-Type: application/json\r\nContent-Length: 346\r\nConnection: close\r\n\r\n{\"account\":1,\"act\":0,\"lot\":{\"capacity_w\":2000000,\"carrier\":\"hydrogen\",\"commissioned\":\"2020-06-15\",\"country\":\"DE\",\"device\":\"500000000000000029\",\"first_day\":\"2025-03-01\",\"issued_on\":\"2025-04-05\",\"last_day\":\"2025-03-31\",\"origin\":7,\"site\":\"South field\",\"source\":\"F01010100\",\"support\":\"none\",\"tech\":\"T010000\"},\"number\":\"07000000001202\",\"place\":\"held\"}",
    ),
    (
        "GET /v1/certificates/07000000000001 HTTP/1.1\r\nHost: x\r\nGOO-Caller: ISSUER\r\n\r\n",
        "HTTP/1.1 200 OK\r\nContent-Type: application/json\r\nContent-Length: 325\r\nConnection: close\r\n\r\n{\"account\":1,\"act\":0,\"lot\":{\"capacity_w\":2000000,\"commissioned\":\"2020-06-15\",\"country\":\"DE\",\"device\":\"500000000000000012\",\"first_day\":\"2025-01-01\",\"issued_on\":\"2025-03-01\",\"last_day\":\"2025-01-31\",\"origin\":7,\"site\":\"North field\",\"source\":\"F01010100\",\"support\":\"none\",\"tech\":\"T010000\"},\"number\":\"07000000000001\",\"place\":\"held\"}",
    ),
    (
        "POST /v1/requests HTTP/1.1\r\nHost: x\r\nGOO-Caller: ISSUER\r\nContent-Length: 42\r\n\r\n{\"command\":\"add_peer\",\"key\":\"y3\",\"peer\":9}",
        "HTTP/1.1 200 OK\r\nContent-Type: application/json\r\nContent-Length: 33\r\nConnection: close\r\n\r\n{\"outcome\":\"accepted\",\"reply\":{}}",
    ),
    (
        "POST /v1/requests HTTP/1.1\r\nHost: x\r\nGOO-Caller: SUN\r\nContent-Length: 111\r\n\r\n{\"account\":5,\"command\":\"export\",\"first\":\"07000000001202\",\"giver\":1,\"key\":\"y4\",\"last\":\"07000000001202\",\"peer\":9}",
        "HTTP/1.1 200 OK\r\nContent-Type: application/json\r\nContent-Length: 53\r\nConnection: close\r\n\r\n{\"outcome\":\"accepted\",\"reply\":{\"count\":1,\"notice\":1}}",
    ),
    (
        "GET /v1/notices/1 HTTP/1.1\r\nHost: x\r\nGOO-Caller: SUN\r\n\r\n",
        "HTTP/1.1 200 OK\r\nContent-Type: application/json\r\nContent-Length: 406\r\nConnection: close\r\n\r\n{\"account\":5,\"addressee\":9,\"number\":1,\"parts\":[{\"first\":\"07000000001202\",\"last\":\"07000000001202\",\"lot\":{\"capacity_w\":2000000,\"carrier\":\"hydrogen\",\"commissioned\":\"2020-06-15\",\"country\":\"DE\",\"device\":\"500000000000000029\",\"first_day\":\"2025-03-01\",\"issued_on\":\"2025-04-05\",\"last_day\":\"2025-03-31\",\"origin\":7,\"site\":\"South field\",\"source\":\"F01010100\",\"support\":\"none\",\"tech\":\"T010000\"}}],\"sender\":7,\"version\":2}",
    ),
];
