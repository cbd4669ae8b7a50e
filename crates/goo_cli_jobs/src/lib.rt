//! What the program does for the task that the command line names: a new registry is made in files,
//! or one in files or in memory is worked with.
#![tactic(auto)]

mod creating;
mod memory_work;
mod serving_memory;
mod work;

pub use creating::init_in_files;
pub use memory_work::{MemoryWork, work_in_memory};
pub use serving_memory::serve_in_memory;
pub use work::{Job, Work, copy_of, job_of, work_in_files};
