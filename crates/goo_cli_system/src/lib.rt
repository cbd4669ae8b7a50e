//! What the program does on any system: which files it opens, what it does with them and with its
//! streams, what it removes, and how it ends. The words of the command line stand in front.
#![tactic(auto)]

mod performing;
mod system;
mod unopened;

pub use performing::perform;
pub use system::{Opened, System};
pub use unopened::Unopened;
