//! The rules that the tables of a registry keep, judged over their rows.
#![tactic(auto)]

pub mod apart;
pub mod corrects;
pub mod cut;
pub mod declared;
mod declares;
pub mod energy;
mod in_turn;
mod issued;
pub mod judging;
pub mod keeping;
pub mod keys;
pub mod lists;
pub mod lots;
mod lowered;
pub mod marked;
pub mod named;
pub mod named_texts;
pub mod names;
pub mod notices;
mod periods;
pub mod produced;
mod progress;
pub mod sums;
pub mod taken_back;
pub mod there;
pub mod values;
