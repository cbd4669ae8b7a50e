//! What goes over the wire.

/// The audit, asked by the issuing body, and the answer of a registry whose plant was issued 1,201
/// certificates.
pub const AUDIT: &str = "GET /v1/audit HTTP/1.1\r\nHost: x\r\nGOO-Caller: ISSUER\r\n\r\n";

pub const AUDITED: &str =
    "HTTP/1.1 200 OK\r\nContent-Type: text/plain; charset=utf-8\r\nContent-Length: 41\r\nConnection: close\r\n\r\n500000000000000012 1201000000 0 1201 0 0\n";

/// The answer of a new registry.
pub const AUDITED_NEW: &str =
    "HTTP/1.1 200 OK\r\nContent-Type: text/plain; charset=utf-8\r\nContent-Length: 0\r\nConnection: close\r\n\r\n";

/// The certificates of a plant: each request is accepted.
pub const PLANT: [&str; 7] = [
    "POST /v1/requests HTTP/1.1\r\nHost: x\r\nGOO-Caller: ISSUER\r\nContent-Length: 70\r\n\r\n{\"command\":\"open_holder\",\"holder\":\"SUN\",\"key\":\"a1\",\"name\":\"Sun Power\"}",
    "POST /v1/requests HTTP/1.1\r\nHost: x\r\nGOO-Caller: ISSUER\r\nContent-Length: 52\r\n\r\n{\"command\":\"open_account\",\"holder\":\"SUN\",\"key\":\"a2\"}",
    "POST /v1/requests HTTP/1.1\r\nHost: x\r\nGOO-Caller: ISSUER\r\nContent-Length: 222\r\n\r\n{\"account\":1,\"capacity_w\":2000000,\"command\":\"register_device\",\"commissioned\":\"2020-06-15\",\"country\":\"DE\",\"device\":\"500000000000000012\",\"key\":\"a3\",\"site\":\"North field\",\"source\":\"F01010100\",\"support\":\"none\",\"tech\":\"T010000\"}",
    "POST /v1/requests HTTP/1.1\r\nHost: x\r\nGOO-Caller: ISSUER\r\nContent-Length: 151\r\n\r\n{\"aux_wh\":34567890,\"command\":\"declare\",\"device\":\"500000000000000012\",\"first_day\":\"2025-01-01\",\"gross_wh\":1234567890,\"key\":\"d1\",\"last_day\":\"2025-01-31\"}",
    "POST /v1/requests HTTP/1.1\r\nHost: x\r\nGOO-Caller: ISSUER\r\nContent-Length: 140\r\n\r\n{\"aux_wh\":0,\"command\":\"declare\",\"device\":\"500000000000000012\",\"first_day\":\"2025-02-01\",\"gross_wh\":999999,\"key\":\"d2\",\"last_day\":\"2025-02-28\"}",
    "POST /v1/requests HTTP/1.1\r\nHost: x\r\nGOO-Caller: ISSUER\r\nContent-Length: 51\r\n\r\n{\"command\":\"advance\",\"day\":\"2025-04-05\",\"key\":\"t1\"}",
    "POST /v1/requests HTTP/1.1\r\nHost: x\r\nGOO-Caller: ISSUER\r\nContent-Length: 135\r\n\r\n{\"aux_wh\":0,\"command\":\"declare\",\"device\":\"500000000000000012\",\"first_day\":\"2025-03-01\",\"gross_wh\":1,\"key\":\"d3\",\"last_day\":\"2025-03-31\"}",
];

/// A request, the answer where it is accepted, and where it was.
pub const OPENING: &str =
    "POST /v1/requests HTTP/1.1\r\nHost: x\r\nGOO-Caller: ISSUER\r\nContent-Length: 70\r\n\r\n{\"command\":\"open_holder\",\"holder\":\"SUN\",\"key\":\"a1\",\"name\":\"Sun Power\"}";

pub const ACCEPTED: &str =
    "HTTP/1.1 200 OK\r\nContent-Type: application/json\r\nContent-Length: 33\r\nConnection: close\r\n\r\n{\"outcome\":\"accepted\",\"reply\":{}}";

pub const REPEATED: &str =
    "HTTP/1.1 200 OK\r\nContent-Type: application/json\r\nContent-Length: 33\r\nConnection: close\r\n\r\n{\"outcome\":\"repeated\",\"reply\":{}}";

/// What is answered where there is no room, and where what keeps the records fails.
pub const APOLOGY: &str =
    "HTTP/1.1 503 Service Unavailable\r\nContent-Type: text/plain; charset=utf-8\r\nContent-Length: 20\r\nConnection: close\r\n\r\nService Unavailable\n";
