// No code: tables in order as a proposition in specs/, the theorems that every request keeps it in proofs/.

#![tactic(auto)]
