// No code: definitions on lists in specs/, their laws in proofs/.

#![tactic(auto)]
