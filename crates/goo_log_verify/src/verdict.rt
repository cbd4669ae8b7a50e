//! What is said of the bytes of a journal.
use goo_log_journal::{LineFault, Reading};

/// What the bytes of a journal are.
#[derive(Drop)]
pub enum Verdict {
    /// Whole lines, of which each comes next; and where the journal stands behind them.
    Whole(Reading),
    /// Such lines, and behind them the line of this number, which has no end.
    Unfinished(u64),
    /// The line of this number has its end, and is bad; each before it is good.
    Bad(u64, LineFault),
    /// The line of this number has more bytes than a line may have; or there are more lines than
    /// can be counted.
    Beyond(u64),
}
