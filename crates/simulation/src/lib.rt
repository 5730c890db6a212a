// No code: specs/ says what of the tables stands for the exchange, and proofs/ that the tables follow its reading.
#![tactic(auto)]
