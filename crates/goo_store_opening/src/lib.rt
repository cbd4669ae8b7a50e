//! A registry's database before there is a shelf over it: its tables are made, or judged and, where
//! they are of version 1, renewed.
#![tactic(auto)]

pub mod creating;
pub mod renewal;
pub mod renewing;
pub mod up_to_date;
