//! A registry over plain lists: who is shown what, requests in a list, memory refused, and
//! registries that send one another notices.
//!
//! It has tests alone. A test says what is asked and what must come of it, and takes that from the
//! rules of the registry, worked out by hand. `desk` has a registry, `asking` sends it requests as
//! texts and compares what they are answered, `stages` has the registries that tests begin with,
//! `three` those of the schedules, `values` and `places` the values that they compare with. The
//! worked requests of each command are in `cases/`, and goo_tests_store plays them.
#![tactic(auto)]

#[cfg(test)]
mod asking;
#[cfg(test)]
mod claims;
#[cfg(test)]
mod desk;
#[cfg(test)]
mod dice;
#[cfg(test)]
mod home;
#[cfg(test)]
mod lines;
#[cfg(test)]
mod lots;
#[cfg(test)]
mod memory;
#[cfg(test)]
mod places;
#[cfg(test)]
mod reads;
#[cfg(test)]
mod running;
#[cfg(test)]
mod schedules;
#[cfg(test)]
mod stages;
#[cfg(test)]
mod three;
#[cfg(test)]
mod values;
#[cfg(test)]
mod world;
