// A realm by value, how one is opened, and what turns a step away by its fields alone.
#![tactic(auto)]

pub mod header;
pub mod input;
pub mod tables;
