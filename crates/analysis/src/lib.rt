// What the intruder finds in the terms on the wire by opening and splitting them.
#![tactic(auto)]

pub mod saturate;
