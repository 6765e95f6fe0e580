// The texts of the trace program: definitions and computed cases only.

#![tactic(auto)]
