// Terms and their table: constants and what is answered of them. The definitions are in specs; `term_rules`, `term_table` and
// `lent_terms` have the functions.
#![tactic(auto)]

pub mod rules;
pub mod table;
