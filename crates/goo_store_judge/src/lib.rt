//! What a look-up in the tables of a registry comes to, where a fault raises the flag after which
//! no statement is made any more, and the judgment of tables that are opened.
#![tactic(auto)]

pub mod holders;
pub mod judge;
