//! An entry of the log.

/// Who sent a request.
#[derive(Drop)]
pub struct Sender {
    /// Who signed in; empty for the registry's own agents.
    pub user: String,
    /// How the user was known; empty where nothing says so.
    pub way: String,
    /// The second user who confirmed the request; empty where none had to.
    pub confirmed: String,
    /// Where the request came from; empty for the registry's own agents.
    pub address: String,
    /// `full`, `reads` or `declares`.
    pub role: String,
    /// The holder's code, or `ISSUER`.
    pub caller: String,
}

/// A request over HTTP, as it came.
#[derive(Drop)]
pub struct HttpRequest {
    /// `POST`.
    pub method: String,
    /// The path.
    pub route: String,
    /// Exactly as it came.
    pub body: Vec<u8>,
}

/// A request in the log, with who sent it and when.
#[derive(Drop)]
pub struct Entry {
    /// 1, 2, 3 and so on.
    pub number: u64,
    /// The hash of the line of the entry before; of entry 1 the origin, a number by chance.
    pub before: String,
    /// UTC by the clock of the host that took the request: `2026-03-01T09:00:00.123456Z`.
    pub time: String,
    /// The host that took the request.
    pub host: String,
    pub sender: Sender,
    pub request: HttpRequest,
    /// Of the program that applies this entry.
    pub version: String,
    /// By chance.
    pub id: String,
}
