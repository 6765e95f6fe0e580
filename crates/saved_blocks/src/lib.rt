// The lines of saved tables block by block, as the code writes them, in specs/; that they are the lines in their order, in proofs/. There is no code.

#![tactic(auto)]
