// A walk file, read and written back: its records as words, the words through the writer, and what was written against the file.
#![tactic(auto)]

pub mod back;
mod reading;
