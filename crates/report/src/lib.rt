// No code: what the ward report is, and what is claimed of it, in specs/; that it lists exactly the grants that the dock lets through, each once, in proofs/.

#![tactic(auto)]
