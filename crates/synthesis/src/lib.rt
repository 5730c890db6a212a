// Whether the intruder can put a term together from what he finds, which is whether he can derive it.
#![tactic(auto)]

pub mod all;
pub mod compose;
pub mod knowledge;
pub mod lent;
