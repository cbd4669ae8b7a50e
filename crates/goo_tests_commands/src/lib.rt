//! The commands `init` and `run` over disks in memory: each word that opening can end with, runs
//! one after another, an `init` that stops half-way, a log that is left behind, a registry of
//! version 1 that is renewed, and a device of hydrogen; and what a file in memory holds.
//!
//! It has tests alone, and they are data: `steps` has what is done to disks and what that comes to,
//! `requests` the lines that are sent, and `disks` disks that fail where a test wants it.
#![tactic(auto)]

#[cfg(test)]
mod carriers;
#[cfg(test)]
mod claims;
#[cfg(test)]
mod disks;
#[cfg(test)]
mod going_on;
#[cfg(test)]
mod half_way;
#[cfg(test)]
mod left_behind;
#[cfg(test)]
mod memory_files;
#[cfg(test)]
mod renewed;
#[cfg(test)]
mod requests;
#[cfg(test)]
mod steps;
#[cfg(test)]
mod words;
