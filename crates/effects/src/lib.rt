// Writing an effect: its messages are sent, its row is written, the cache and the clock move, and the answer.
#![tactic(auto)]

pub mod apply;
pub mod cache;
pub mod row;
