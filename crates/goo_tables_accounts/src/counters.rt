//! The numbers that are given next.

/// The numbers that the next certificate, account and acts get.
#[derive(Clone, Copy, Debug, PartialEq, Eq)]
pub struct CountersRow {
    /// The serial of the next certificate issued.
    pub next_serial: u64,
    /// The number of the next account.
    pub next_account: u32,
    /// The number of the next cancellation.
    pub next_cancellation: u32,
    /// The number of the next withdrawal.
    pub next_withdrawal: u32,
    /// The number of the next notice sent.
    pub next_notice: u32,
}
