//! What the tables of a registry stand for, and the rules that they keep, as definitions. There is
//! no code here.
#![tactic(auto)]
