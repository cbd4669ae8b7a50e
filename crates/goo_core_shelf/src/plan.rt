//! Plans: the whole change that an accepted request makes.

use goo_ranges::Edit;
use goo_types::notice::Notice;
use goo_types::reply::Reply;
use goo_types::request::Request;

/// The whole change that an accepted request makes.
#[derive(Drop)]
pub struct Plan {
    /// The request.
    pub request: Request,
    /// What it is answered.
    pub reply: Reply,
    /// What becomes of the rows, one edit after another.
    pub edits: Vec<Edit>,
    /// The notice that an export sends.
    pub notice: Option<Notice>,
}
