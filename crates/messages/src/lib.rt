// Whole messages, added to the term table all or nothing.
#![tactic(auto)]

pub mod lent;
pub mod plan;
