// No code: the outcomes of one request on two tables that are the same, in specs/; the theorem that they agree in proofs/.

#![tactic(auto)]
