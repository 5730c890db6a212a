// The replay cache of document 01: a list of sixteen places with a count, whose first `count` places are the entries.
#![tactic(auto)]

pub mod entry; // the records: an entry, a purge, an answer
pub mod cache; // the calls on sixteen places by value
