//! How a run of the program ends: an input is answered by any desk, and what came of it is told by
//! an exit status and a line on standard error.
#![tactic(auto)]

mod answering;
mod ending;
mod settings;

pub use answering::answer_input;
pub use ending::{Ending, Failure, NotDone};
