// No code: what a group cannot tell apart in specs/, the proof of demand 3 in proofs/. The claim itself is in machine/specs/Isolation.antt.

#![tactic(auto)]
