//! What came of an entry.

/// What the registry answered to an entry.
#[derive(Drop)]
pub struct Outcome {
    /// The entry's.
    pub number: u64,
    /// Of HTTP: 200, 400, 403, 409; 500 for an entry that was set aside.
    pub status: u16,
    /// The answer's.
    pub body: Vec<u8>,
    /// The hash of this outcome and of the chain before.
    pub chain: String,
}
