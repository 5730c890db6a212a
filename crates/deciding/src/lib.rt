// A step decided whole: by its row of the step table and what the intruder can deliver, then its messages planned, and whether their
// terms fit. Nothing is written, and nothing is refused later.
#![tactic(auto)]

pub mod decide;
pub mod plan;
pub mod settle;
