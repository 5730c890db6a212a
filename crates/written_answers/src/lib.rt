// No code: specs/ says what the engine answers to the records of a walk that was written, and proofs/ that it does.
#![tactic(auto)]
