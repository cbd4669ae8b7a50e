//! The tables of a registry that stand in another form than ours: judged by what their named columns
//! hold, and written anew in ours.
#![tactic(auto)]

pub mod adopting;
mod beginning;
mod judging;
pub mod observer;
mod room;
mod statistics;
pub mod taking;
