//! Requests as lines of text: each line is answered with one line.
//!
//! A line is a holder's code, one space and the body of a request. The lines are answered in turn
//! by a [`Desk`](goo_core_shelf::desk::Desk), that is by whatever applies requests to a registry.
#![tactic(auto)]

mod answer;
mod law;
mod line;
mod lines;
mod lines_fault;
mod run;
mod tally;
mod unread;

pub use answer::LineAnswer;
pub use law::lines_are_a_run;
pub use line::read_line;
pub use lines::Lines;
pub use lines_fault::LinesFault;
pub use run::{MOST_INPUT, run_lines};
pub use tally::Tally;
pub use unread::Unread;
