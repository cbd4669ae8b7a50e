//! A registry in tables: worked requests, each answered as plain lists answer it; closed and opened
//! again, on damaged tables and foreign ones too, and after its disk stopped at any one call.
//!
//! It has tests alone. `script` and `cases` have the requests and what they come to, `asking` sends
//! them, `sight` tells what a registry shows, `acts` has what is asked of a registry over any
//! shelf, `registries` begins and opens them, `disks` has the files that they are kept in, and
//! `deeds` what is done there. `texts` asks for what people are given, byte for byte as `wanted`
//! has it, and `carriers` for what isn't of electricity.
#![tactic(auto)]

#[cfg(test)]
mod account_runs;
#[cfg(test)]
mod acts;
#[cfg(test)]
mod asking;
#[cfg(test)]
mod carriers;
#[cfg(test)]
mod cases;
#[cfg(test)]
mod claims;
#[cfg(test)]
mod damages;
#[cfg(test)]
mod deeds;
#[cfg(test)]
mod disks;
#[cfg(test)]
mod foreign;
#[cfg(test)]
mod found;
#[cfg(test)]
mod lapse;
#[cfg(test)]
mod lapses;
#[cfg(test)]
mod parts;
#[cfg(test)]
mod registries;
#[cfg(test)]
mod renewed;
#[cfg(test)]
mod reopened;
#[cfg(test)]
mod script;
#[cfg(test)]
mod sight;
#[cfg(test)]
mod statements;
#[cfg(test)]
mod stops;
#[cfg(test)]
mod texts;
#[cfg(test)]
mod wanted;
#[cfg(test)]
mod worked;
