//! What is told how far an import is.

/// What is told how far an import is. It can change nothing of it.
pub trait ImportWatcher {
    /// Whether anybody looks; if not, rows aren't counted beforehand.
    fn is_watched(&self) -> bool;

    /// The import begins; it has `rows` rows.
    fn begin(&mut self, rows: u64);

    /// The first `rows` rows have their results.
    fn advance(&mut self, rows: u64);
}

/// Nobody looks.
#[derive(Clone, Copy, Debug)]
pub struct Unwatched;

impl ImportWatcher for Unwatched {
    fn is_watched(&self) -> bool {
        false
    }

    fn begin(&mut self, _rows: u64) {}

    fn advance(&mut self, _rows: u64) {}
}
