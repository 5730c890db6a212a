// The engine: calls on a realm and its lent tables, the replay cache by value.
#![tactic(auto)]

pub mod call;
pub mod lent;
