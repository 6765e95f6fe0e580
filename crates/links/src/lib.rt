// No code: what is claimed of how far a chain of loans goes, in specs/; that it is never above 31 links, and that 31 are reached, in proofs/.

#![tactic(auto)]
