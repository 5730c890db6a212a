// The records of a walk file, read from its bytes: a header first, then calls, one record after another.
#![tactic(auto)]

mod field;
pub mod header;
pub mod record;
