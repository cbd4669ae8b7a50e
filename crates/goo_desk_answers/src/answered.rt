use goo_desk_responses::Status;

/// What is answered.
#[derive(Drop)]
pub struct Answer {
    /// The status in its first line.
    pub status: Status,
    /// All of it.
    pub bytes: Vec<u8>,
}
