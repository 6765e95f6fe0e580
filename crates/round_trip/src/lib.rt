// Theorems about text: what is written is read as it was, and what is read is what would be written. They stand in proofs/; there is no code.

#![tactic(auto)]
