// The list of records that is handed to the writer, and what turns one of them away by its own fields.
#![tactic(auto)]

pub mod raw;
pub mod refusal;
