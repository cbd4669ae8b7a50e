//! Laws over every list of requests within their limits, from every sound state: what a registry
//! that answers by the definitions never does. Each is a clause of `Registry::run`.
#![tactic(auto)]

pub mod authority;
pub mod classes;
pub mod deadlines;
pub mod finality;
pub mod idle;
pub mod independent;
