// No code: the laws of a walk that was written. It reads back, and every other byte is kept.
#![tactic(auto)]
