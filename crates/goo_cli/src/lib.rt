//! The command line of the program: from its words to the task that they ask for.
//!
//! `clap` cuts the words into a command and its options; which of them stand together, and what a
//! value may be, is decided here.
#![tactic(auto)]

mod given;
mod help;
mod line_fault;
mod setting;
mod task;
mod tasks;
mod values;
mod verb;
mod words;

pub use line_fault::LineFault;
pub use setting::Setting;
pub use task::{Invocation, Opening, Records, Serving};
pub use values::{code_in, day_in, serial_in};
pub use words::read_task;
