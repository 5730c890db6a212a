// The terms that have been found, in the order in which they were, and the encryptions under each key.
#![tactic(auto)]

pub mod chains;
pub mod found;
