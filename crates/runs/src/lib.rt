// Which tables of runs hold together.
#![tactic(auto)]

pub mod lent;
