//! The limits of values, each of which is written here alone, and the words that are fixed.

pub use goo_types_forms::numbers::SERIALS;

/// The energy of one certificate, in Wh: a guarantee of origin has the standard size of 1 MWh
/// (Directive (EU) 2018/2001, Article 19(2)).
pub const CERTIFICATE: u64 = 1_000_000;

/// The last number of an account, a cancellation, a withdrawal or a notice sent; the first one is
/// 1.
pub const LAST_ACT: u32 = 999_999_999;

/// The most energy that a declaration may state, in Wh.
pub const MOST_WH: u64 = 1_000_000_000_000_000;

/// The highest capacity of a device, in W; the lowest one is 1.
pub const MOST_WATTS: u64 = 100_000_000_000;

/// The code of the highest registry; the lowest one is 1.
pub const LAST_REGISTRY: u8 = 99;

/// The caller that stands for the issuing body. No holder has this code.
pub const ISSUER: &str = "ISSUER";
